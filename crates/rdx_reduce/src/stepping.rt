// The steps of a relation.
ghost use Rattle.std.specs.Prelude.{◌≡◌, IsSome};
ghost use Rattle.std.specs.Prelude as prelude;
ghost use Rattle.rdx_term.specs.View.{tree_of};
ghost use Rattle.rdx_lang.specs.Checked.{language_in, pattern_in};
ghost use Rattle.rdx_lang.specs.ProgramView.{program_of, relation_of, rule_of, extras_of};
ghost use Rattle.rdx_lang.specs.Programs.{language_named as named};
ghost use Rattle.rdx_lang.specs.Shown.{binding_of};
ghost use Rattle.rdx_eval.specs.Answers.{not_contract, value};
ghost use Rattle.rdx_eval.specs.Asking.{AskedIf};
ghost use Rattle.rdx_eval.specs.Extending.{Survivors};
ghost use Rattle.rdx_eval.specs.Heights.{calls_at, height};
ghost use Rattle.rdx_eval.specs.Views.{Says, bindings_in, program_in};
ghost use Rattle.rdx_reduce.specs.Relations.{AreSteps};
ghost use Rattle.rdx_reduce.specs.StepView.{steps_in};
ghost use Rattle.rdx_reduce.specs.Steps.{AllSteps, Reducts, RuleSteps};

use crate::Step;
use crate::sorting::listing;
use rdx_eval::{Engine, EvalFault, Fault, Side};
use rdx_lang::{Binding, CheckedLang, Matcher, Relation, Rule};
use rdx_term::{Name, Term};
use std::alloc::Global;

// Goes on where the term is in the relation's domain, or the relation has none; else what goes into
// the relation on this side, or comes out of it, is not as its domain says.
fn ask_domain<M: Matcher + Drop>(
    engine: &mut Engine<M>,
    language: &CheckedLang,
    relation: &Relation,
    side: Side,
    t: &Term,
) -> Result<(), EvalFault>
    requires { named (program_of (program_in engine.old).now) (relation_of relation.now).language
        ≡ prelude.Some (language_in language.now) }
    ensures answer { Says (λ u. u) (AskedIf (language_in language.now)
        (relation_of relation.now).domain (tree_of t.now)
        (not_contract relation.now.name side (tree_of t.now)) (λ r. r ≡ value tt)) result }
    ensures same { program_in engine.new ≡ program_in engine.old }
{
    let Some(domain) = &relation.domain else {
        return Ok(());
    };
    if engine.matches(language, domain, t)?.is_empty() {
        let fault = Fault::NotContract(relation.name.share()?, side, t.share()?);
        return Err(EvalFault::Named(fault));
    }
    Ok(())
}

// The bindings by which the rule's pattern matches the term that meet its extras.
fn survivors<M: Matcher + Drop>(
    engine: &mut Engine<M>,
    language: &CheckedLang,
    name: &Name,
    rule: &Rule,
    t: &Term,
) -> Result<Vec<Binding>, EvalFault>
    requires { named (program_of (program_in engine.old).now) name.now
        ≡ prelude.Some (language_in language.now) }
    ensures answer { Says bindings_in (Survivors (language_in language.now)
        (calls_at (program_of (program_in engine.old).now) height) (tree_of t.now)
        (pattern_in rule.now.pattern) (extras_of rule.now.extras.items)) result }
    ensures same { program_in engine.new ≡ program_in engine.old }
{
    let found = engine.matches(language, &rule.pattern, t)?;
    engine.extend(name, found, &rule.extras, t)
}

// What the result of the rule makes of a binding, where it is in the relation's domain.
fn reduct<M: Matcher + Drop>(
    engine: &mut Engine<M>,
    language: &CheckedLang,
    relation: &Relation,
    rule: &Rule,
    b: &Binding,
) -> Result<Term, EvalFault>
    requires { named (program_of (program_in engine.old).now) (relation_of relation.now).language
        ≡ prelude.Some (language_in language.now) }
    ensures answer { Says tree_of (Reducts (language_in language.now)
        (calls_at (program_of (program_in engine.old).now) height) (relation_of relation.now)
        (rule_of rule.now) (binding_of b.now)) result }
    ensures same { program_in engine.new ≡ program_in engine.old }
{
    let u = engine.instantiate(&rule.result, b)?;
    ask_domain(engine, language, relation, Side::Out, &u)?;
    Ok(u)
}

// The steps by the rule at this place, binding by binding.
fn rule_steps<M: Matcher + Drop>(
    alloc: Global,
    engine: &mut Engine<M>,
    language: &CheckedLang,
    relation: &Relation,
    place: usize,
    rule: &Rule,
    t: &Term,
) -> Result<Vec<Step>, EvalFault>
    requires { named (program_of (program_in engine.old).now) (relation_of relation.now).language
        ≡ prelude.Some (language_in language.now) }
    ensures answer { Says steps_in (RuleSteps (language_in language.now)
        (calls_at (program_of (program_in engine.old).now) height) (relation_of relation.now)
        (tree_of t.now) place (rule_of rule.now)) result }
    ensures same { program_in engine.new ≡ program_in engine.old }
{
    let bs = survivors(engine, language, &relation.language, rule, t)?;
    let mut found = Vec::new(alloc);
    for b in &bs {
        let u = reduct(engine, language, relation, rule, b)?;
        found.push(Step {
            rule: place,
            reduct: u,
        })?;
    }
    Ok(found)
}

// The steps by the rules of the relation, rule by rule.
fn all_steps<M: Matcher + Drop>(
    alloc: Global,
    engine: &mut Engine<M>,
    language: &CheckedLang,
    relation: &Relation,
    t: &Term,
) -> Result<Vec<Step>, EvalFault>
    requires { named (program_of (program_in engine.old).now) (relation_of relation.now).language
        ≡ prelude.Some (language_in language.now) }
    ensures answer { Says steps_in (AllSteps (language_in language.now)
        (calls_at (program_of (program_in engine.old).now) height) (relation_of relation.now)
        (tree_of t.now) 0 (relation_of relation.now).rules) result }
    ensures same { program_in engine.new ≡ program_in engine.old }
{
    let mut found = Vec::new(alloc);
    for (place, rule) in relation.rules.iter().enumerate() {
        let mut more = rule_steps(alloc, engine, language, relation, place, rule, t)?;
        found.append(&mut more)?;
    }
    Ok(found)
}

/// The steps that the relation takes from the term: for each rule, in their order, for each binding
/// of its pattern that meets its extras, what its result makes of it; ascending by the place of the
/// rule and then by the reduct, each once. Or the first fault: that the term is not in the relation's
/// domain, and else by rule, extra and binding, where a reduct that is not in the domain is one at
/// its place. The relation's language has to be one of the program's.
pub fn steps<M: Matcher + Drop>(
    alloc: Global,
    engine: &mut Engine<M>,
    relation: &Relation,
    t: &Term,
) -> Result<Vec<Step>, EvalFault>
    requires { IsSome (named (program_of (program_in engine.old).now)
        (relation_of relation.now).language) }
    ensures answer { Says steps_in (AreSteps (program_of (program_in engine.old).now)
        (relation_of relation.now) (tree_of t.now)) result }
    ensures same { program_in engine.new ≡ program_in engine.old }
{
    let Some(language) = engine.language(&relation.language)? else {
        unreachable!()
    };
    ask_domain(engine, language, relation, Side::In, t)?;
    let found = all_steps(alloc, engine, language, relation, t)?;
    Ok(listing(alloc, found)?)
}
