// Lists headed by a symbol, and the arguments of conclusions and premises.
ghost use Rattle.std.specs.Prelude.{◌≡◌, option_map};
ghost use Rattle.rdx_templates.specs.Scope as scopes;
ghost use Rattle.rdx_parts.specs.Arguments as model;
ghost use Rattle.rdx_parts.specs.Headed as headed;
ghost use Rattle.rdx_parts.specs.PartViews.{arguments_of, headed_of};
ghost use Rattle.rdx_parts.specs.Stands as stands;

use rdx_patterns::shape::{is_symbol, items, text};
use rdx_sexp::Datum;
use rdx_templates::Scope;

/// A list headed by a symbol.
#[derive(Clone, Copy)]
pub struct Headed<'a> {
    pub head: &'a Datum,
    pub arguments: &'a [Datum],
}

/// Arguments, with the mode that they fit, where there is one, and whether patterns stand at its
/// inputs, as in a conclusion, or at its outputs, as in a premise.
#[derive(Clone, Copy)]
pub struct Arguments<'m, 'a> {
    pub mode: Option<&'m [bool]>,
    pub at_inputs: bool,
    pub items: &'a [Datum],
}

/// A datum as a list headed by a symbol.
pub fn headed_list(d: &Datum) -> Option<Headed<'_>>
    ensures { option_map headed_of result ≡ headed.headed d.now }
{
    let [head, arguments @ ..] = items(d)? else {
        return None;
    };
    if is_symbol(head) {
        Some(Headed { head, arguments })
    } else {
        None
    }
}

/// The mode of the judgement of this name, where the file has one.
pub(crate) fn mode_of<'a>(scope: &'a Scope, name: &str) -> Option<&'a [bool]>
    ensures { option_map (λ m. m.now) result ≡ scopes.mode_of (scopes.scope_of scope.now) name.now }
{
    match scope.judgement(name) {
        Some(judgement) => Some(judgement.1.as_slice()),
        None => None,
    }
}

/// Whether the mode is known and has another number of arguments.
pub fn is_misfit(mode: Option<&[bool]>, arguments: &[Datum]) -> bool
    ensures { result ≡ model.is_misfit (option_map (λ m. m.now) mode.entry) arguments.now }
{
    match mode {
        Some(mode) => mode.len() != arguments.len(),
        None => false,
    }
}

// The mode, where it is known and has as many arguments.
fn fitting<'a>(mode: Option<&'a [bool]>, arguments: &[Datum]) -> Option<&'a [bool]>
    ensures { option_map (λ m. m.now) result
        ≡ model.fitting (option_map (λ m. m.now) mode.entry) arguments.now }
{
    let mode = mode?;
    if mode.len() == arguments.len() {
        Some(mode)
    } else {
        None
    }
}

/// The arguments of a conclusion by such a mode.
pub fn in_conclusion<'m, 'a>(mode: Option<&'m [bool]>, arguments: &'a [Datum]) -> Arguments<'m, 'a>
    ensures { arguments_of result
        ≡ model.in_conclusion (option_map (λ m. m.now) mode.entry) arguments.now }
{
    Arguments {
        mode: fitting(mode, arguments),
        at_inputs: true,
        items: arguments,
    }
}

/// Those of a premise.
pub fn in_premise<'m, 'a>(mode: Option<&'m [bool]>, arguments: &'a [Datum]) -> Arguments<'m, 'a>
    ensures { arguments_of result
        ≡ model.in_premise (option_map (λ m. m.now) mode.entry) arguments.now }
{
    Arguments {
        mode: fitting(mode, arguments),
        at_inputs: false,
        items: arguments,
    }
}

/// The arguments of a premise in a file of this scope.
pub(crate) fn premise_arguments<'m, 'a>(scope: &'m Scope, premise: Headed<'a>) -> Arguments<'m, 'a>
    ensures { arguments_of result
        ≡ stands.premise_arguments (scopes.scope_of scope.now) (headed_of premise.entry) }
{
    in_premise(mode_of(scope, text(premise.head)), premise.arguments)
}

impl<'m, 'a> Arguments<'m, 'a> {
    ghost use Rattle.std.specs.Prelude.{◌≡◌};
    ghost use Rattle.rdx_parts.specs.PartViews.{flag_at};

    /// Whether the argument with this flag of the mode is a pattern; else it is a template.
    pub(crate) fn is_pattern(&self, flag: bool) -> bool
        ensures { result ≡ flag_at self.now.at_inputs flag }
    {
        flag == self.at_inputs
    }
}
