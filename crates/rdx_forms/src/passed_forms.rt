// Forms that are passed over.
ghost use Rattle.std.specs.Prelude.{◌≡◌, option_map};
ghost use Rattle.rdx_patterns.specs.Refusal.{first};
ghost use Rattle.rdx_forms.specs.Faults.{IsRefusedBy};
ghost use Rattle.rdx_forms.specs.Inside.Passing.{modules_refusal};
ghost use Rattle.rdx_forms.specs.PassedForms as model;

use rdx_patterns::refusal::unnamed;
use rdx_patterns::shape::{is_symbol, items, text};
use rdx_patterns::{DefFault, DefKind};
use rdx_sexp::Datum;

// Whether this is how a module of Redex or of Racket is named.
fn is_known_module(name: &str) -> bool
    ensures { result ≡ model.is_known_module name.now }
{
    name.starts_with("redex") || name.starts_with("racket")
}

// The first of these that is no symbol.
fn first_unnamed(modules: &[Datum]) -> Option<&Datum>
    ensures { option_map (λ d. d.now) result ≡ first (model.unnamed_modules modules.now) }
{
    for module in modules {
        if !is_symbol(module) {
            return Some(module);
        }
    }
    None
}

// The first of these that names another module.
fn first_other(modules: &[Datum]) -> Option<&Datum>
    ensures { option_map (λ d. d.now) result ≡ first (model.other_modules modules.now) }
{
    for module in modules {
        if is_symbol(module) && !is_known_module(text(module)) {
            return Some(module);
        }
    }
    None
}

// Lets wanted modules pass that are of Redex or of Racket.
fn check_modules(modules: &[Datum]) -> Result<(), DefFault>
    ensures { IsRefusedBy (modules_refusal modules.now) result }
{
    if let Some(module) = first_unnamed(modules) {
        return Err(DefFault::Refused(unnamed(DefKind::Shape, module)));
    }
    if let Some(module) = first_other(modules) {
        return Err(DefFault::Refused(unnamed(DefKind::RacketEscape, module)));
    }
    Ok(())
}

/// Lets a form pass that wants such modules.
pub fn check_wants(form: &Datum) -> Result<(), DefFault>
    ensures { IsRefusedBy (model.wants_refusal form.now) result }
{
    match items(form) {
        Some([_, modules @ ..]) => check_modules(modules),
        Some([]) | None => Ok(()),
    }
}
