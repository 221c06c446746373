// What templates and host expressions make of a binding, where that has no fault.
ghost use Rattle.std.specs.Prelude.{◌≡◌, ◌↔◌, IfNone, IfOk, IfSome, IsTrue, map};
ghost use Rattle.rdx_term.specs.View.{tree_of};
ghost use Rattle.rdx_lang.specs.ProgramView.{program_of};
ghost use Rattle.rdx_lang.specs.Shown.{binding_of};
ghost use Rattle.rdx_lang.specs.TemplateView.{template_of, host_of};
ghost use Rattle.rdx_eval.specs.Answers.{value};
ghost use Rattle.rdx_eval.specs.Instantiation as eval;
ghost use Rattle.rdx_eval.specs.Instantiation.{HostMakes, MakeList, Makes};
ghost use Rattle.rdx_eval.specs.Making.{IsList};
ghost use Rattle.rdx_eval.specs.Views.{program_in, terms_in};
ghost use Rattle.rdx_deriv.specs.Judged.{calls};
ghost use Rattle.rdx_deriv.specs.Inside.Extending.{IsMet};
ghost use Rattle.rdx_deriv.specs.Finding.{Finds};
ghost use Rattle.rdx_deriv.specs.Inside.Faults.{IsNamed};

use rdx_eval::{Engine, EvalFault};
use rdx_lang::{Binding, HostExpr, Matcher, Program, Template};
use rdx_term::{Build, NoMemory, Term, list};
use std::alloc::Global;

// Hands want of memory on; each other fault is none of ours.
fn no_memory_of(fault: EvalFault) -> Result<(), NoMemory>
    ensures { IfOk result (λ u. IsNamed fault) }
{
    match fault {
        EvalFault::Named(_) => Ok(()),
        EvalFault::NoMemory => Err(NoMemory),
    }
}

/// What the template makes of the binding, where that has no fault.
pub fn made<M: Matcher + Drop>(
    engine: &mut Engine<M>,
    program: &Program,
    t: &Template,
    b: &Binding,
) -> Result<Option<Term>, NoMemory>
    requires { (program_in engine.old).now ≡ program.now }
    ensures made { IfOk result (λ r. Finds tree_of (λ u.
        Makes (calls (program_of program.now)) (binding_of b.now)
        (template_of t.now) (value u)) r) }
    ensures same { program_in engine.new ≡ program_in engine.old }
{
    match engine.instantiate(t, b) {
        Ok(term) => Ok(Some(term)),
        Err(fault) => {
            no_memory_of(fault)?;
            Ok(None)
        }
    }
}

// What the host expression makes of the binding, where that has no fault.
fn made_by_host<M: Matcher + Drop>(
    engine: &mut Engine<M>,
    program: &Program,
    h: &HostExpr,
    b: &Binding,
) -> Result<Option<Term>, NoMemory>
    requires { (program_in engine.old).now ≡ program.now }
    ensures made { IfOk result (λ r. Finds tree_of (λ u.
        HostMakes (calls (program_of program.now)) (binding_of b.now)
        (host_of h.now) (value u)) r) }
    ensures same { program_in engine.new ≡ program_in engine.old }
{
    match engine.host(h, b) {
        Ok(term) => Ok(Some(term)),
        Err(fault) => {
            no_memory_of(fault)?;
            Ok(None)
        }
    }
}

// Whether the term is false.
fn is_false(t: &Term) -> bool
    ensures { result ≡ eval.is_false (tree_of t.now) }
{
    match t {
        Term::Bool(b) => !*b,
        Term::Hole | Term::Int(_) | Term::Str(_) | Term::Sym(_) | Term::List(_) => false,
    }
}

/// Whether the host expression makes something of the binding, and that is not false.
pub(crate) fn is_met<M: Matcher + Drop>(
    engine: &mut Engine<M>,
    program: &Program,
    h: &HostExpr,
    b: &Binding,
) -> Result<bool, NoMemory>
    requires { (program_in engine.old).now ≡ program.now }
    ensures met { IfOk result (λ r. IsTrue r
        ↔ IsMet (program_of program.now) (binding_of b.now) (host_of h.now)) }
    ensures same { program_in engine.new ≡ program_in engine.old }
{
    match made_by_host(engine, program, h, b)? {
        Some(t) => Ok(!is_false(&t)),
        None => Ok(false),
    }
}

// The list of the terms, where it is within the limits.
fn listed(alloc: Global, items: Vec<Term>) -> Result<Option<Term>, NoMemory>
    ensures { IfOk result (λ r. Finds tree_of (λ u. IsList (terms_in items) (value u)) r) }
{
    match list(alloc, items) {
        Ok(t) => Ok(Some(t)),
        Err(Build::TooDeep) => Ok(None),
        Err(Build::TooLarge) => Ok(None),
        Err(Build::NoMemory) => Err(NoMemory),
    }
}

/// The list of what the templates make of the binding, where that has no fault.
pub fn made_list<M: Matcher + Drop>(
    alloc: Global,
    engine: &mut Engine<M>,
    program: &Program,
    templates: &[Template],
    b: &Binding,
) -> Result<Option<Term>, NoMemory>
    requires { (program_in engine.old).now ≡ program.now }
    ensures made { IfOk result (λ r. Finds tree_of (λ u.
        MakeList (calls (program_of program.now)) (binding_of b.now)
        (map template_of templates.now) (value u)) r) }
    ensures same { program_in engine.new ≡ program_in engine.old }
{
    let mut items = Vec::new(alloc);
    for template in templates {
        let Some(t) = made(engine, program, template, b)? else {
            return Ok(None);
        };
        items.push(t)?;
    }
    listed(alloc, items)
}

/// Whether this is the list of what the templates make of the binding.
pub(crate) fn makes_list<M: Matcher + Drop>(
    alloc: Global,
    engine: &mut Engine<M>,
    program: &Program,
    templates: &[Template],
    b: &Binding,
    t: &Term,
) -> Result<bool, NoMemory>
    requires { (program_in engine.old).now ≡ program.now }
    ensures makes { IfOk result (λ r. IsTrue r
        ↔ MakeList (calls (program_of program.now)) (binding_of b.now)
        (map template_of templates.now) (value (tree_of t.now))) }
    ensures same { program_in engine.new ≡ program_in engine.old }
{
    match made_list(alloc, engine, program, templates, b)? {
        Some(made) => Ok(made.same(t)),
        None => Ok(false),
    }
}
