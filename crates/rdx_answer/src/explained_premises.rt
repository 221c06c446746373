// The answers to queries over a premise by itself, with derivations for the outputs that meet it.
ghost use Rattle.std.specs.Prelude.{◌≡◌, ◌↔◌, IfOk, IsTrue, None, OnOk, Some, map, true};
ghost use Rattle.std.specs.declared.cmp.Ordering.TheVariants.{Equal};
ghost use Rattle.rdx_term.specs.Text.{tree_text};
ghost use Rattle.rdx_term.specs.View.{tree_of};
ghost use Rattle.rdx_lang.specs.Checked.{language_in, pattern_in};
ghost use Rattle.rdx_lang.specs.Listing.{IsSeen};
ghost use Rattle.rdx_lang.specs.Members.{In};
ghost use Rattle.rdx_lang.specs.ProgramView.{premise_of, program_of};
ghost use Rattle.rdx_lang.specs.Rules.{Match};
ghost use Rattle.rdx_lang.specs.Shown.{binding_of, bindings_of};
ghost use Rattle.rdx_lang.specs.TemplateView.{template_of};
ghost use Rattle.rdx_lang.specs.Bindings.{no_names};
ghost use Rattle.rdx_eval.specs.Answers.{value};
ghost use Rattle.rdx_eval.specs.Heights.{calls_at, height};
ghost use Rattle.rdx_eval.specs.Instantiation.{MakeList, Makes};
ghost use Rattle.rdx_eval.specs.Views as engines;
ghost use Rattle.rdx_eval.specs.Views.{terms_in};
ghost use Rattle.rdx_deriv.specs.Derivations as goals;
ghost use Rattle.rdx_why.specs.Finders.{known_in};
ghost use Rattle.rdx_answer.specs.AnswerText.{holds_text, line_text};
ghost use Rattle.rdx_answer.specs.Explained.{ExplainsMet, ExplainsValue};
ghost use Rattle.rdx_answer.specs.Inside.Explaining.{AreParts, Gains, GainsBehind, GainsDerivation, HasAsked, HasExplanation, HasGiven, HasInputs, HasMatched, HasSource, HasValue, HasValues, IsAsked, IsGiven, IsHeld, IsLawful, IsMatched, IsSource, TriesParts};
ghost use Rattle.rdx_answer.specs.Queries as model;
ghost use Rattle.rdx_answer.specs.Queries.{KnowsJudgement};

use crate::explained_answers::write_derivation;
use crate::holds_answers::{are_some, judgement, meeting, values_of};
use crate::match_answers::language;
use crate::texts::{write_head, write_holds, write_term_line};
use rdx_deriv::{Goal, made, made_list};
use rdx_eval::{Engine, EvalFault};
use rdx_lang::{Binding, CheckedLang, CheckedPat, Premise, Template};
use rdx_table::Table;
use rdx_term::{NoMemory, Term};
use rdx_why::Finder;
use std::alloc::Global;
use std::cmp::Ordering;

/// What a judgement is asked and answered for a premise by itself, and the language of its pattern.
#[derive(Drop)]
struct Asked<'a> {
    language: &'a CheckedLang,
    inputs: Term,
    outputs: Vec<Term>,
}

// The list of what the inputs of a premise by itself make.
fn inputs_of(alloc: Global, engine: &mut Engine<Table>, premise: &Premise) -> Result<Term, NoMemory>
    requires { HasInputs (program_of (engines.program_in engine.old).now) (premise_of premise.now) }
    ensures made { IfOk result (λ a. MakeList
        (calls_at (program_of (engines.program_in engine.old).now) height) no_names
        (premise_of premise.now).inputs (value (tree_of a))) }
    ensures same { engines.program_in engine.new ≡ engines.program_in engine.old }
{
    let none = Binding::new(Vec::new(alloc));
    let program = engine.program();
    match made_list(alloc, engine, program, &premise.ins, &none)? {
        Some(inputs) => Ok(inputs),
        None => unreachable!(),
    }
}

// What the judgement of the premise is asked and answered, which has no fault.
fn ask<'a>(
    alloc: Global,
    engine: &mut Engine<'a, Table>,
    premise: &Premise,
) -> Result<Asked<'a>, NoMemory>
    requires { HasAsked (program_of (engines.program_in engine.old).now) (premise_of premise.now) }
    ensures asked { IfOk result (λ s. IsAsked (program_of (engines.program_in engine.old).now)
        (premise_of premise.now) (language_in s.language.now) (tree_of s.inputs)
        (terms_in s.outputs)) }
    ensures same { engines.program_in engine.new ≡ engines.program_in engine.old }
{
    let inputs = inputs_of(alloc, engine, premise)?;
    let judgement = judgement(engine, &premise.judgement)?;
    let language = language(engine, &judgement.language)?;
    match engine.judge(&premise.judgement, &inputs) {
        Ok(outputs) => Ok(Asked {
            language,
            inputs,
            outputs,
        }),
        Err(_) => Err(NoMemory),
    }
}

// The first of the outputs that the pattern matches.
fn first_matched<'a>(
    engine: &mut Engine<Table>,
    language: &CheckedLang,
    pat: &CheckedPat,
    outputs: &'a [Term],
) -> Result<&'a Term, NoMemory>
    requires { HasMatched (language_in language.now) (pattern_in pat.now)
        (map tree_of outputs.now) }
    ensures found { IfOk result (λ o. IsMatched (language_in language.now) (pattern_in pat.now)
        (map tree_of outputs.now) (tree_of o.now)) }
    ensures same { engines.program_in engine.new ≡ engines.program_in engine.old }
{
    for given in outputs {
        let found = engine.matches(language, pat, given)?;
        if are_some(&found) {
            return Ok(given);
        }
    }
    unreachable!()
}

// Whether two that compare so tie.
fn is_tie(order: Ordering) -> bool
    ensures to { IsTrue result → order ≡ Equal }
    ensures from { order ≡ Equal → IsTrue result }
{
    match order {
        Ordering::Equal => true,
        Ordering::Less | Ordering::Greater => false,
    }
}

// Whether the binding is one of these.
fn is_listed(found: &[Binding], b: &Binding) -> bool
    ensures { IsTrue result ↔ In (binding_of b.now) (bindings_of found.now) }
{
    for other in found {
        if is_tie(other.compare(b)) {
            return true;
        }
    }
    false
}

// The first of the outputs by which the pattern binds this.
fn first_given<'a>(
    engine: &mut Engine<Table>,
    language: &CheckedLang,
    pat: &CheckedPat,
    outputs: &'a [Term],
    b: &Binding,
) -> Result<&'a Term, NoMemory>
    requires { HasGiven (language_in language.now) (pattern_in pat.now) (map tree_of outputs.now)
        (binding_of b.now) }
    ensures found { IfOk result (λ o. IsGiven (language_in language.now) (pattern_in pat.now)
        (map tree_of outputs.now) (binding_of b.now) (tree_of o.now)) }
    ensures same { engines.program_in engine.new ≡ engines.program_in engine.old }
{
    for given in outputs {
        let found = engine.matches(language, pat, given)?;
        if is_listed(&found, b) {
            return Ok(given);
        }
    }
    unreachable!()
}

// Whether the template makes this value of the binding.
fn makes(
    engine: &mut Engine<Table>,
    t: &Template,
    b: &Binding,
    wanted: &Term,
) -> Result<bool, NoMemory>
    ensures made { IfOk result (λ r. IsTrue r ↔ Makes
        (calls_at (program_of (engines.program_in engine.old).now) height) (binding_of b.now)
        (template_of t.now) (value (tree_of wanted.now))) }
    ensures same { engines.program_in engine.new ≡ engines.program_in engine.old }
{
    let program = engine.program();
    match made(engine, program, t, b)? {
        Some(u) => Ok(u.same(wanted)),
        None => Ok(false),
    }
}

// The first of the bindings of which the template makes this value.
fn first_source<'a>(
    engine: &mut Engine<Table>,
    t: &Template,
    found: &'a [Binding],
    wanted: &Term,
) -> Result<&'a Binding, NoMemory>
    requires { HasSource (program_of (engines.program_in engine.old).now) (template_of t.now)
        (bindings_of found.now) (tree_of wanted.now) }
    ensures found { IfOk result (λ b. IsSource (program_of (engines.program_in engine.old).now)
        (template_of t.now) (bindings_of found.now) (tree_of wanted.now) (binding_of b.now)) }
    ensures same { engines.program_in engine.new ≡ engines.program_in engine.old }
{
    for b in found {
        if makes(engine, t, b, wanted)? {
            return Ok(b);
        }
    }
    unreachable!()
}

// Appends the lines of a derivation of these outputs.
fn write_judged(
    alloc: Global,
    engine: &mut Engine<Table>,
    finder: &mut Finder<Table>,
    premise: &Premise,
    inputs: &Term,
    given: &Term,
    out: &mut Vec<u8>,
) -> Result<(), NoMemory>
    requires there { HasExplanation (program_of (engines.program_in engine.old).now)
        (goals.judged premise.now.judgement (tree_of inputs.now) (tree_of given.now)) }
    requires finder { (known_in finder.old).now ≡ (engines.program_in engine.old).now }
    ensures gained { OnOk result (GainsDerivation
        (program_of (engines.program_in engine.old).now)
        (goals.judged premise.now.judgement (tree_of inputs.now) (tree_of given.now))
        out.old.items out.new.items) }
    ensures same { engines.program_in engine.new ≡ engines.program_in engine.old }
    ensures kept { known_in finder.new ≡ known_in finder.old }
{
    let goal = Goal::Judge(premise.judgement.share()?, inputs.share()?, given.share()?);
    write_derivation(alloc, engine, finder, &goal, out)
}

// Appends whether the premise is met, and where it is, a derivation of the least outputs that meet it;
// or gives the fault on the way.
pub(crate) fn explain_holds(
    alloc: Global,
    engine: &mut Engine<Table>,
    finder: &mut Finder<Table>,
    premise: &Premise,
    out: &mut Vec<u8>,
) -> Result<(), EvalFault>
    requires known { KnowsJudgement (program_of (engines.program_in engine.old).now)
        premise.now.judgement }
    requires lawful { IsLawful (program_of (engines.program_in engine.old).now) }
    requires finder { (known_in finder.old).now ≡ (engines.program_in engine.old).now }
    ensures answer { TriesParts (program_of (engines.program_in engine.old).now)
        (model.holds (premise_of premise.now) None) out.old.items out.new.items result }
    ensures same { engines.program_in engine.new ≡ engines.program_in engine.old }
    ensures kept { known_in finder.new ≡ known_in finder.old }
{
    let found = meeting(engine, premise)?;
    if are_some(&found) {
        return Ok(show_held(alloc, engine, finder, premise, out)?);
    }
    write_holds(false, out)?;
    Ok(())
}

// Appends that the premise is met, and a derivation of the least outputs that meet it.
fn show_held(
    alloc: Global,
    engine: &mut Engine<Table>,
    finder: &mut Finder<Table>,
    premise: &Premise,
    out: &mut Vec<u8>,
) -> Result<(), NoMemory>
    requires held { IsHeld (program_of (engines.program_in engine.old).now)
        (premise_of premise.now) }
    requires finder { (known_in finder.old).now ≡ (engines.program_in engine.old).now }
    ensures gained { OnOk result (GainsBehind (program_of (engines.program_in engine.old).now)
        (ExplainsMet (program_of (engines.program_in engine.old).now) (premise_of premise.now))
        (holds_text true) out.old.items out.new.items) }
    ensures same { engines.program_in engine.new ≡ engines.program_in engine.old }
    ensures kept { known_in finder.new ≡ known_in finder.old }
{
    let asked = ask(alloc, engine, premise)?;
    let given = first_matched(engine, asked.language, &premise.outs, &asked.outputs)?;
    write_holds(true, out)?;
    write_judged(alloc, engine, finder, premise, &asked.inputs, given, out)
}

// Appends each value that the template makes of a binding that meets the premise, with a derivation of
// the least outputs with which the least such binding meets it; or gives the fault on the way.
pub(crate) fn explain_values(
    alloc: Global,
    engine: &mut Engine<Table>,
    finder: &mut Finder<Table>,
    premise: &Premise,
    template: &Template,
    out: &mut Vec<u8>,
) -> Result<(), EvalFault>
    requires known { KnowsJudgement (program_of (engines.program_in engine.old).now)
        premise.now.judgement }
    requires lawful { IsLawful (program_of (engines.program_in engine.old).now) }
    requires finder { (known_in finder.old).now ≡ (engines.program_in engine.old).now }
    ensures answer { TriesParts (program_of (engines.program_in engine.old).now)
        (model.holds (premise_of premise.now) (Some (template_of template.now))) out.old.items
        out.new.items result }
    ensures same { engines.program_in engine.new ≡ engines.program_in engine.old }
    ensures kept { known_in finder.new ≡ known_in finder.old }
{
    let found = meeting(engine, premise)?;
    let values = values_of(alloc, engine, premise, template)?;
    Ok(show_values(
        alloc, engine, finder, premise, template, &found, &values, out,
    )?)
}

// Appends these values, each with a derivation.
fn show_values(
    alloc: Global,
    engine: &mut Engine<Table>,
    finder: &mut Finder<Table>,
    premise: &Premise,
    template: &Template,
    found: &[Binding],
    values: &[Term],
    out: &mut Vec<u8>,
) -> Result<(), NoMemory>
    requires values { HasValues (program_of (engines.program_in engine.old).now)
        (premise_of premise.now) (template_of template.now) (bindings_of found.now)
        (map tree_of values.now) }
    requires finder { (known_in finder.old).now ≡ (engines.program_in engine.old).now }
    ensures gained { OnOk result (Gains (program_of (engines.program_in engine.old).now)
        (λ ps. AreParts (program_of (engines.program_in engine.old).now)
        (model.holds (premise_of premise.now) (Some (template_of template.now))) ps true)
        out.old.items out.new.items) }
    ensures same { engines.program_in engine.new ≡ engines.program_in engine.old }
    ensures kept { known_in finder.new ≡ known_in finder.old }
{
    let asked = ask(alloc, engine, premise)?;
    write_head(b"answers", values.len(), out)?;
    for value in values {
        show_value(
            alloc, engine, finder, premise, template, &asked, found, value, out,
        )?;
    }
    Ok(())
}

// Appends the line of a value, with a derivation.
fn show_value(
    alloc: Global,
    engine: &mut Engine<Table>,
    finder: &mut Finder<Table>,
    premise: &Premise,
    template: &Template,
    asked: &Asked,
    found: &[Binding],
    wanted: &Term,
    out: &mut Vec<u8>,
) -> Result<(), NoMemory>
    requires value { HasValue (program_of (engines.program_in engine.old).now)
        (premise_of premise.now) (language_in asked.now.language.now) (tree_of asked.now.inputs)
        (terms_in asked.now.outputs) (template_of template.now) (bindings_of found.now)
        (tree_of wanted.now) }
    requires finder { (known_in finder.old).now ≡ (engines.program_in engine.old).now }
    ensures gained { OnOk result (GainsBehind (program_of (engines.program_in engine.old).now)
        (ExplainsValue (program_of (engines.program_in engine.old).now) (premise_of premise.now)
        (template_of template.now) (tree_of wanted.now))
        (line_text (tree_text (tree_of wanted.now))) out.old.items out.new.items) }
    ensures same { engines.program_in engine.new ≡ engines.program_in engine.old }
    ensures kept { known_in finder.new ≡ known_in finder.old }
{
    let b = first_source(engine, template, found, wanted)?;
    let given = first_given(engine, asked.language, &premise.outs, &asked.outputs, b)?;
    write_term_line(wanted, out)?;
    write_judged(alloc, engine, finder, premise, &asked.inputs, given, out)
}
