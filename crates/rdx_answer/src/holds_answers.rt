// The answers to queries over a premise by itself.
ghost use Rattle.std.specs.Prelude.{◌≡◌, Some, IsSome, IfOk, option_map};
ghost use Rattle.rdx_eval.specs.Answers.{Then};
ghost use Rattle.rdx_eval.specs.Heights.{calls_at, height};
ghost use Rattle.rdx_eval.specs.Judgements as judging;
ghost use Rattle.rdx_eval.specs.Views as engines;
ghost use Rattle.rdx_eval.specs.Views.{Says, bindings_in, terms_in};
ghost use Rattle.rdx_lang.specs.ProgramView.{judgement_of, premise_of, program_of};
ghost use Rattle.rdx_lang.specs.Programs.{judgement_named as named};
ghost use Rattle.rdx_lang.specs.Shown.{bindings_of};
ghost use Rattle.rdx_lang.specs.TemplateView.{template_of};
ghost use Rattle.rdx_answer.specs.HoldsAnswers.{FindsMet, IsHoldsAnswer, IsPremiseAnswer, IsValuesAnswer, Values};
ghost use Rattle.rdx_answer.specs.Inside.Appending.{Tries};
ghost use Rattle.rdx_answer.specs.Queries.{KnowsJudgement};
ghost use Rattle.rdx_answer.specs.TestAnswers.{IsHoldsTestAnswer};

use crate::step_answers::terms_of;
use crate::texts::{write_answers, write_holds, write_verdict};
use rdx_eval::{Engine, EvalFault};
use rdx_lang::{Binding, Judgement, Premise, Template};
use rdx_table::Table;
use rdx_term::{Name, NoMemory, Term};
use std::alloc::Global;
use std::collections::BTreeSet;

/// The judgement of this name.
pub(crate) fn judgement<'a>(
    engine: &mut Engine<'a, Table>,
    name: &Name,
) -> Result<&'a Judgement, NoMemory>
    requires { IsSome (named (program_of (engines.program_in engine.old).now) name.now) }
    ensures found { IfOk result (λ j. named (program_of (engines.program_in engine.old).now) name.now
        ≡ Some (judgement_of j.now)) }
    ensures same { engines.program_in engine.new ≡ engines.program_in engine.old }
{
    match engine.judgement(name)? {
        Some(judgement) => Ok(judgement),
        None => unreachable!(),
    }
}

/// The bindings that meet the premise in the language of its judgement, or the fault on the way.
pub(crate) fn meeting(
    engine: &mut Engine<Table>,
    premise: &Premise,
) -> Result<Vec<Binding>, EvalFault>
    requires { KnowsJudgement (program_of (engines.program_in engine.old).now)
        premise.now.judgement }
    ensures answer { Says bindings_in
        (FindsMet (program_of (engines.program_in engine.old).now) (premise_of premise.now))
        result }
    ensures same { engines.program_in engine.new ≡ engines.program_in engine.old }
{
    let judgement = judgement(engine, &premise.judgement)?;
    engine.meet(&judgement.language, premise)
}

/// Whether there are bindings.
pub(crate) fn are_some(found: &[Binding]) -> bool
    ensures { result ≡ judging.are_some (bindings_of found.now) }
{
    !found.is_empty()
}

// Appends whether the premise is met, or gives the fault on the way.
fn answer_whether_met(
    engine: &mut Engine<Table>,
    premise: &Premise,
    out: &mut Vec<u8>,
) -> Result<bool, EvalFault>
    requires { KnowsJudgement (program_of (engines.program_in engine.old).now)
        premise.now.judgement }
    ensures answer { Tries
        (IsHoldsAnswer (program_of (engines.program_in engine.old).now) (premise_of premise.now))
        out.old.items out.new.items result }
    ensures same { engines.program_in engine.new ≡ engines.program_in engine.old }
{
    let found = meeting(engine, premise)?;
    write_holds(are_some(&found), out)?;
    Ok(true)
}

/// What the template makes of the bindings that meet the premise, ascending and each once, or the
/// fault on the way.
pub(crate) fn values_of(
    alloc: Global,
    engine: &mut Engine<Table>,
    premise: &Premise,
    t: &Template,
) -> Result<Vec<Term>, EvalFault>
    requires { KnowsJudgement (program_of (engines.program_in engine.old).now)
        premise.now.judgement }
    ensures answer { Says terms_in (Then
        (FindsMet (program_of (engines.program_in engine.old).now) (premise_of premise.now))
        (Values (calls_at (program_of (engines.program_in engine.old).now) height)
        (template_of t.now))) result }
    ensures same { engines.program_in engine.new ≡ engines.program_in engine.old }
{
    let found = meeting(engine, premise)?;
    let mut set = BTreeSet::new(alloc);
    for b in &found {
        let value = engine.instantiate(t, b)?;
        set.insert(value)?;
    }
    Ok(terms_of(alloc, set)?)
}

// Appends what the template makes of the bindings that meet the premise, or gives the fault on the
// way.
fn answer_values(
    alloc: Global,
    engine: &mut Engine<Table>,
    premise: &Premise,
    t: &Template,
    out: &mut Vec<u8>,
) -> Result<bool, EvalFault>
    requires { KnowsJudgement (program_of (engines.program_in engine.old).now)
        premise.now.judgement }
    ensures answer { Tries
        (IsValuesAnswer (program_of (engines.program_in engine.old).now) (premise_of premise.now)
        (template_of t.now)) out.old.items out.new.items result }
    ensures same { engines.program_in engine.new ≡ engines.program_in engine.old }
{
    let values = values_of(alloc, engine, premise, t)?;
    write_answers(&values, out)?;
    Ok(true)
}

/// Appends whether the premise is met; or, where there is a template, what it makes of the bindings
/// that meet it. Or gives the fault on the way.
pub(crate) fn answer_holds(
    alloc: Global,
    engine: &mut Engine<Table>,
    premise: &Premise,
    template: &Option<Template>,
    out: &mut Vec<u8>,
) -> Result<bool, EvalFault>
    requires { KnowsJudgement (program_of (engines.program_in engine.old).now)
        premise.now.judgement }
    ensures answer { Tries
        (IsPremiseAnswer (program_of (engines.program_in engine.old).now) (premise_of premise.now)
        (option_map template_of template.now)) out.old.items out.new.items result }
    ensures same { engines.program_in engine.new ≡ engines.program_in engine.old }
{
    match template {
        Some(t) => answer_values(alloc, engine, premise, t, out),
        None => answer_whether_met(engine, premise, out),
    }
}

/// Appends whether the test passes that the premise is met, or gives the fault on the way.
pub(crate) fn answer_holds_test(
    engine: &mut Engine<Table>,
    premise: &Premise,
    out: &mut Vec<u8>,
) -> Result<bool, EvalFault>
    requires { KnowsJudgement (program_of (engines.program_in engine.old).now)
        premise.now.judgement }
    ensures answer { Tries
        (IsHoldsTestAnswer (program_of (engines.program_in engine.old).now)
        (premise_of premise.now)) out.old.items out.new.items result }
    ensures same { engines.program_in engine.new ≡ engines.program_in engine.old }
{
    let found = meeting(engine, premise)?;
    let passes = are_some(&found);
    write_verdict(passes, out)?;
    Ok(passes)
}
