// The texts of answers.
ghost use Rattle.std.specs.Prelude.{◌≡◌, ◌++◌, OnOk, IsTrue, List, codes, decimal, map, option_map};
ghost use Rattle.std.specs.Rc.{rc_str_bytes};
ghost use Rattle.rdx_term.specs.Context.{is_context};
ghost use Rattle.rdx_term.specs.Text.{label_text, spaced_text, tree_text};
ghost use Rattle.rdx_term.specs.View.{tree_of, trees_of};
ghost use Rattle.rdx_lang.specs.Bindings as bindings;
ghost use Rattle.rdx_lang.specs.Bindings.{one, values};
ghost use Rattle.rdx_lang.specs.BindingView.{value_of, pair_of};
ghost use Rattle.rdx_lang.specs.ProgramView.{rule_of};
ghost use Rattle.rdx_lang.specs.Shown.{binding_of, bindings_of, decomposition_of, decompositions_of};
ghost use Rattle.rdx_eval.specs.Answers.{ambiguous, lengths_differ, not_context, not_contract, spent};
ghost use Rattle.rdx_eval.specs.Judgements as judging;
ghost use Rattle.rdx_eval.specs.Views.{fault_of};
ghost use Rattle.rdx_gen.specs.Generated.{bad_name, generated};
ghost use Rattle.rdx_reduce.specs.StepView.{step_of};
ghost use Rattle.rdx_answer.specs.AnswerText as text;
ghost use Rattle.rdx_answer.specs.GenerateAnswers.{failed_lines, generated_text, passed_line};
ghost use Rattle.rdx_answer.specs.Inside.Attempting.{Faults};
ghost use Rattle.rdx_answer.specs.Inside.Contexts.{HaveContexts};
ghost use Rattle.rdx_answer.specs.StepAnswers as steps;
ghost use Rattle.rdx_answer.specs.Tests as tests;

use itoa::Buffer;
use rdx_delta::operation_text;
use rdx_eval::{Fault, Side};
use rdx_fill::path_of;
use rdx_gen::GenFault;
use rdx_lang::{Binding, Rule, Split, Value};
use rdx_reduce::Step;
use rdx_term::printing::{print_bytes, print_string};
use rdx_term::spelling::is_symbol;
use rdx_term::{Name, NoMemory, Term, text_of};
use std::alloc::Global;
use std::rc::RcStr;

// A number in decimal.
pub(crate) fn write_number(number: usize, out: &mut Vec<u8>) -> Result<(), NoMemory>
    ensures { OnOk result (out.new.items ≡ out.old.items ++ decimal number) }
{
    let mut buffer = Buffer::new();
    out.extend_from_slice(buffer.format(number).as_bytes())?;
    Ok(())
}

// The places of a path, with a space between two.
fn write_places(places: &[usize], out: &mut Vec<u8>) -> Result<(), NoMemory>
    ensures { OnOk result (out.new.items ≡ out.old.items ++ text.places_text places.now) }
{
    let [first, others @ ..] = places else {
        return Ok(());
    };
    write_number(*first, out)?;
    for place in others {
        out.push(b' ')?;
        write_number(*place, out)?;
    }
    Ok(())
}

// ` at [places]`, where a context has its own hole.
fn write_at(alloc: Global, context: &Term, out: &mut Vec<u8>) -> Result<(), NoMemory>
    requires { IsTrue (is_context (tree_of context.now)) }
    ensures { OnOk result (out.new.items ≡ out.old.items ++ text.at_text (tree_of context.now)) }
{
    match path_of(alloc, context)? {
        Some(places) => {
            out.extend_from_slice(b" at [")?;
            write_places(&places, out)?;
            out.push(b']')?;
            Ok(())
        }
        None => unreachable!(),
    }
}

// A term that a name stands for; a context with other holes than its own with its path.
fn write_term(alloc: Global, term: &Term, out: &mut Vec<u8>) -> Result<(), NoMemory>
    ensures { OnOk result
        (out.new.items ≡ out.old.items ++ text.value_text (one (tree_of term.now))) }
{
    text_of(term, out)?;
    if term.is_context() && term.holes() > 1 {
        write_at(alloc, term, out)?;
    }
    Ok(())
}

// What a name stands for: a term, a sequence in square brackets, or a length in decimal.
#[cycle(write_value)]
fn write_value(alloc: Global, value: &Value, out: &mut Vec<u8>) -> Result<(), NoMemory>
    ensures { OnOk result (out.new.items ≡ out.old.items ++ text.value_text (value_of value.now)) }
{
    match value {
        Value::One(term) => write_term(alloc, term, out),
        Value::Many(turns) => {
            out.push(b'[')?;
            write_values(alloc, turns, out)?;
            out.push(b']')?;
            Ok(())
        }
        Value::Len(turns) => write_number(*turns, out),
    }
}

// The values of a sequence, with one space between two.
#[cycle(write_value)]
fn write_values(alloc: Global, turns: &[Value], out: &mut Vec<u8>) -> Result<(), NoMemory>
    ensures { OnOk result (out.new.items ≡ out.old.items
        ++ text.values_text (values (map value_of turns.now))) }
{
    let Some(first) = turns.first() else {
        return Ok(());
    };
    write_value(alloc, first, out)?;
    for i in 1..turns.len() {
        out.push(b' ')?;
        write_value(alloc, &turns[i], out)?;
    }
    Ok(())
}

// `name = value`.
fn write_pair(alloc: Global, pair: &(Name, Value), out: &mut Vec<u8>) -> Result<(), NoMemory>
    ensures { OnOk result (out.new.items ≡ out.old.items ++ text.pair_text (pair_of pair.now)) }
{
    let (name, value) = pair;
    out.extend_from_slice(name.text().as_bytes())?;
    out.extend_from_slice(b" = ")?;
    write_value(alloc, value, out)
}

// The pairs with commas between, or `-` where there are none.
fn write_binding(alloc: Global, binding: &Binding, out: &mut Vec<u8>) -> Result<(), NoMemory>
    ensures { OnOk result
        (out.new.items ≡ out.old.items ++ text.binding_text (binding_of binding.now)) }
{
    let [first, others @ ..] = binding.pairs() else {
        out.push(b'-')?;
        return Ok(());
    };
    write_pair(alloc, first, out)?;
    for pair in others {
        out.extend_from_slice(b", ")?;
        write_pair(alloc, pair, out)?;
    }
    Ok(())
}

/// The line of a binding.
pub(crate) fn write_binding_line(
    alloc: Global,
    binding: &Binding,
    out: &mut Vec<u8>,
) -> Result<(), NoMemory>
    ensures { OnOk result (out.new.items ≡ out.old.items
        ++ text.line_text (text.binding_text (binding_of binding.now))) }
{
    out.extend_from_slice(b"  ")?;
    write_binding(alloc, binding, out)?;
    out.push(b'\n')?;
    Ok(())
}

// A line for each binding.
fn write_binding_lines(alloc: Global, found: &[Binding], out: &mut Vec<u8>) -> Result<(), NoMemory>
    ensures { OnOk result (out.new.items ≡ out.old.items
        ++ text.lines_text (map text.binding_text (bindings_of found.now))) }
{
    for binding in found {
        write_binding_line(alloc, binding, out)?;
    }
    Ok(())
}

// `context at [places] is part with binding`.
fn write_split(alloc: Global, split: &Split, out: &mut Vec<u8>) -> Result<(), NoMemory>
    requires { IsTrue (is_context (tree_of split.now.context)) }
    ensures { OnOk result
        (out.new.items ≡ out.old.items ++ text.split_text (decomposition_of split.now)) }
{
    text_of(&split.context, out)?;
    write_at(alloc, &split.context, out)?;
    out.extend_from_slice(b" is ")?;
    text_of(&split.part, out)?;
    out.extend_from_slice(b" with ")?;
    write_binding(alloc, &split.binding, out)
}

/// The line of a split.
pub(crate) fn write_split_line(
    alloc: Global,
    split: &Split,
    out: &mut Vec<u8>,
) -> Result<(), NoMemory>
    requires { IsTrue (is_context (tree_of split.now.context)) }
    ensures { OnOk result (out.new.items ≡ out.old.items
        ++ text.line_text (text.split_text (decomposition_of split.now))) }
{
    out.extend_from_slice(b"  ")?;
    write_split(alloc, split, out)?;
    out.push(b'\n')?;
    Ok(())
}

// A line for each split.
fn write_split_lines(alloc: Global, found: &[Split], out: &mut Vec<u8>) -> Result<(), NoMemory>
    requires { HaveContexts (decompositions_of found.now) }
    ensures { OnOk result (out.new.items ≡ out.old.items
        ++ text.lines_text (map text.split_text (decompositions_of found.now))) }
{
    for split in found {
        write_split_line(alloc, split, out)?;
    }
    Ok(())
}

/// What there is, and how many there are.
pub(crate) fn write_head(what: &[u8], count: usize, out: &mut Vec<u8>) -> Result<(), NoMemory>
    ensures { OnOk result (out.new.items ≡ out.old.items
        ++ what.now ++ codes " " ++ decimal count ++ codes "\n") }
{
    out.extend_from_slice(what)?;
    out.push(b' ')?;
    write_number(count, out)?;
    out.push(b'\n')?;
    Ok(())
}

/// The line of a term.
pub(crate) fn write_term_line(term: &Term, out: &mut Vec<u8>) -> Result<(), NoMemory>
    ensures { OnOk result (out.new.items ≡ out.old.items ++ text.line_text (tree_text (tree_of term.now))) }
{
    out.extend_from_slice(b"  ")?;
    text_of(term, out)?;
    out.push(b'\n')?;
    Ok(())
}

/// How many bindings there are, and then each.
pub(crate) fn write_matches(
    alloc: Global,
    found: &[Binding],
    out: &mut Vec<u8>,
) -> Result<(), NoMemory>
    ensures { OnOk result
        (out.new.items ≡ out.old.items ++ text.matches_text (bindings_of found.now)) }
{
    out.extend_from_slice(b"match ")?;
    write_number(found.len(), out)?;
    out.push(b'\n')?;
    write_binding_lines(alloc, found, out)
}

/// How many splits there are, and then each.
pub(crate) fn write_splits(
    alloc: Global,
    found: &[Split],
    out: &mut Vec<u8>,
) -> Result<(), NoMemory>
    requires { HaveContexts (decompositions_of found.now) }
    ensures { OnOk result
        (out.new.items ≡ out.old.items ++ text.splits_text (decompositions_of found.now)) }
{
    out.extend_from_slice(b"splits ")?;
    write_number(found.len(), out)?;
    out.push(b'\n')?;
    write_split_lines(alloc, found, out)
}

/// Whether there are some.
pub(crate) fn write_whether(are_some: bool, out: &mut Vec<u8>) -> Result<(), NoMemory>
    ensures { OnOk result ((found : List bindings.Binding) → are_some ≡ judging.are_some found
        → out.new.items ≡ out.old.items ++ text.whether_text found) }
{
    let line: &[u8] = if are_some {
        b"matches #t\n"
    } else {
        b"matches #f\n"
    };
    out.extend_from_slice(line)?;
    Ok(())
}

/// Whether a test passes.
pub(crate) fn write_verdict(passes: bool, out: &mut Vec<u8>) -> Result<(), NoMemory>
    ensures { OnOk result (out.new.items ≡ out.old.items ++ tests.verdict_line passes) }
{
    let line: &[u8] = if passes { b"pass\n" } else { b"fail\n" };
    out.extend_from_slice(line)?;
    Ok(())
}

/// The term itself.
pub(crate) fn write_value_line(term: &Term, out: &mut Vec<u8>) -> Result<(), NoMemory>
    ensures { OnOk result (out.new.items ≡ out.old.items ++ text.value_line (tree_of term.now)) }
{
    out.extend_from_slice(b"value ")?;
    text_of(term, out)?;
    out.push(b'\n')?;
    Ok(())
}

/// The term that was generated.
pub(crate) fn write_generated(term: &Term, out: &mut Vec<u8>) -> Result<(), NoMemory>
    ensures { OnOk result (out.new.items ≡ out.old.items
        ++ generated_text (generated (tree_of term.now))) }
{
    out.extend_from_slice(b"generated ")?;
    text_of(term, out)?;
    out.push(b'\n')?;
    Ok(())
}

/// That so many attempts passed.
pub(crate) fn write_passed(attempts: usize, out: &mut Vec<u8>) -> Result<(), NoMemory>
    ensures { OnOk result (out.new.items ≡ out.old.items ++ passed_line attempts) }
{
    out.extend_from_slice(b"check passed ")?;
    write_number(attempts, out)?;
    out.push(b'\n')?;
    Ok(())
}

/// At which attempt a counterexample was found, the term, and the binding.
pub(crate) fn write_counterexample(
    alloc: Global,
    attempt: usize,
    term: &Term,
    binding: &Binding,
    out: &mut Vec<u8>,
) -> Result<(), NoMemory>
    ensures { OnOk result (out.new.items ≡ out.old.items
        ++ failed_lines attempt (tree_of term.now) (binding_of binding.now)) }
{
    out.extend_from_slice(b"check failed ")?;
    write_number(attempt, out)?;
    out.push(b' ')?;
    text_of(term, out)?;
    out.extend_from_slice(b"\n  ")?;
    write_binding(alloc, binding, out)?;
    out.push(b'\n')?;
    Ok(())
}

// The name that breaks a rule of generation.
fn write_bad_name(name: &Name, out: &mut Vec<u8>) -> Result<(), NoMemory>
    ensures { OnOk result (out.new.items ≡ out.old.items ++ generated_text (bad_name name.now)) }
{
    out.extend_from_slice(b"fault GenName ")?;
    out.extend_from_slice(name.text().as_bytes())?;
    out.push(b'\n')?;
    Ok(())
}

/// Why no term was generated.
pub(crate) fn write_generation_fault(fault: &GenFault, out: &mut Vec<u8>) -> Result<(), NoMemory>
    ensures { OnOk result
        (Faults (λ a. out.new.items ≡ out.old.items ++ generated_text a) fault.now) }
{
    match fault {
        GenFault::GenName(name) => write_bad_name(name, out),
        GenFault::Barren => print_bytes(b"fault Barren\n", out),
        GenFault::TooDeep => print_bytes(b"fault TooDeep\n", out),
        GenFault::TooLarge => print_bytes(b"fault TooLarge\n", out),
        GenFault::NoMemory => Err(NoMemory),
    }
}

// A line for each term.
fn write_term_lines(found: &[Term], out: &mut Vec<u8>) -> Result<(), NoMemory>
    ensures { OnOk result (out.new.items ≡ out.old.items
        ++ text.lines_text (map tree_text (map tree_of found.now))) }
{
    for term in found {
        out.extend_from_slice(b"  ")?;
        text_of(term, out)?;
        out.push(b'\n')?;
    }
    Ok(())
}

// How many terms there are, behind what they are, and then each.
fn write_terms(what: &[u8], found: &[Term], out: &mut Vec<u8>) -> Result<(), NoMemory>
    ensures { OnOk result (out.new.items ≡ out.old.items
        ++ text.counted_text what.now (map tree_text (map tree_of found.now))) }
{
    out.extend_from_slice(what)?;
    out.push(b' ')?;
    write_number(found.len(), out)?;
    out.push(b'\n')?;
    write_term_lines(found, out)
}

/// How many reducts there are, and then each.
pub(crate) fn write_reducts(found: &[Term], out: &mut Vec<u8>) -> Result<(), NoMemory>
    ensures { OnOk result
        (out.new.items ≡ out.old.items ++ text.reducts_text (map tree_of found.now)) }
{
    write_terms(b"reducts", found, out)
}

/// How many values of a template there are, and then each.
pub(crate) fn write_answers(found: &[Term], out: &mut Vec<u8>) -> Result<(), NoMemory>
    ensures { OnOk result
        (out.new.items ≡ out.old.items ++ text.answers_text (map tree_of found.now)) }
{
    write_terms(b"answers", found, out)
}

/// Whether a premise is met.
pub(crate) fn write_holds(is_met: bool, out: &mut Vec<u8>) -> Result<(), NoMemory>
    ensures { OnOk result (out.new.items ≡ out.old.items ++ text.holds_text is_met) }
{
    let line: &[u8] = if is_met { b"holds #t\n" } else { b"holds #f\n" };
    out.extend_from_slice(line)?;
    Ok(())
}

// The name of a rule, as a string where it is not spelled like a symbol.
fn write_label(name: &RcStr, out: &mut Vec<u8>) -> Result<(), NoMemory>
    ensures { OnOk result
        (out.new.items ≡ out.old.items ++ label_text (rc_str_bytes name.now)) }
{
    let text = name.as_str();
    if is_symbol(text) {
        print_bytes(text.as_bytes(), out)
    } else {
        print_string(text.as_bytes(), out)
    }
}

// The name of a rule, or `-` where it has none.
fn write_rule_name(name: Option<&RcStr>, out: &mut Vec<u8>) -> Result<(), NoMemory>
    ensures { OnOk result (out.new.items ≡ out.old.items
        ++ text.rule_name_text (option_map (λ n. rc_str_bytes n.now) name.entry)) }
{
    match name {
        Some(name) => write_label(name, out),
        None => print_bytes(b"-", out),
    }
}

// The name of the rule at this place, if there is a rule there and it has one.
fn name_at(rules: &[Rule], place: usize) -> Option<&RcStr>
    ensures { option_map (λ n. rc_str_bytes n.now) result
        ≡ steps.name_at (map rule_of rules.now) place }
{
    rules.get(place)?.name.as_ref()
}

/// `name reduct`.
pub(crate) fn write_step(rules: &[Rule], step: &Step, out: &mut Vec<u8>) -> Result<(), NoMemory>
    ensures { OnOk result (out.new.items ≡ out.old.items
        ++ text.step_text (steps.name_at (map rule_of rules.now) step.now.rule, tree_of step.now.reduct)) }
{
    write_rule_name(name_at(rules, step.rule), out)?;
    out.push(b' ')?;
    text_of(&step.reduct, out)
}

// A line for each step.
fn write_step_lines(rules: &[Rule], found: &[Step], out: &mut Vec<u8>) -> Result<(), NoMemory>
    ensures { OnOk result (out.new.items ≡ out.old.items ++ text.lines_text
        (map text.step_text (steps.named_steps (map rule_of rules.now) (map step_of found.now)))) }
{
    for step in found {
        out.extend_from_slice(b"  ")?;
        write_step(rules, step, out)?;
        out.push(b'\n')?;
    }
    Ok(())
}

/// How many steps there are, and then each, with the name of its rule.
pub(crate) fn write_steps(rules: &[Rule], found: &[Step], out: &mut Vec<u8>) -> Result<(), NoMemory>
    ensures { OnOk result (out.new.items ≡ out.old.items ++ text.steps_text
        (steps.named_steps (map rule_of rules.now) (map step_of found.now))) }
{
    out.extend_from_slice(b"steps ")?;
    write_number(found.len(), out)?;
    out.push(b'\n')?;
    write_step_lines(rules, found, out)
}

// The items of a list; other terms have none.
fn items_of(term: &Term) -> &[Term]
    ensures { trees_of result.now ≡ text.items_of (tree_of term.now) }
{
    match term {
        Term::List(node) => node.items(),
        Term::Hole | Term::Int(_) | Term::Bool(_) | Term::Str(_) | Term::Sym(_) => &[],
    }
}

// Each term with a space before it.
fn write_spaced(terms: &[Term], out: &mut Vec<u8>) -> Result<(), NoMemory>
    ensures { OnOk result (out.new.items ≡ out.old.items ++ spaced_text (trees_of terms.now)) }
{
    for term in terms {
        out.push(b' ')?;
        text_of(term, out)?;
    }
    Ok(())
}

// `(name t ...)`: a call of what has this name, with these arguments.
fn write_call(name: &str, args: &[Term], out: &mut Vec<u8>) -> Result<(), NoMemory>
    ensures { OnOk result
        (out.new.items ≡ out.old.items ++ text.call_text name.now (trees_of args.now)) }
{
    out.push(b'(')?;
    out.extend_from_slice(name.as_bytes())?;
    write_spaced(args, out)?;
    out.push(b')')?;
    Ok(())
}

// A call behind a word.
fn write_word_call(
    word: &[u8],
    name: &str,
    args: &[Term],
    out: &mut Vec<u8>,
) -> Result<(), NoMemory>
    ensures { OnOk result (out.new.items ≡ out.old.items
        ++ (word.now ++ text.call_text name.now (trees_of args.now))) }
{
    out.extend_from_slice(word)?;
    write_call(name, args, out)
}

// `first and second`, two terms.
fn write_two_terms(first: &Term, second: &Term, out: &mut Vec<u8>) -> Result<(), NoMemory>
    ensures { OnOk result (out.new.items ≡ out.old.items
        ++ (tree_text (tree_of first.now) ++ codes " and " ++ tree_text (tree_of second.now))) }
{
    text_of(first, out)?;
    out.extend_from_slice(b" and ")?;
    text_of(second, out)
}

// A call of a metafunction with several values, of which these two are the least.
fn write_ambiguous(
    name: &Name,
    args: &Term,
    first: &Term,
    second: &Term,
    out: &mut Vec<u8>,
) -> Result<(), NoMemory>
    ensures { OnOk result (out.new.items ≡ out.old.items ++ text.fault_name
        (ambiguous name.now (tree_of args.now) (tree_of first.now) (tree_of second.now))) }
{
    write_word_call(b"Ambiguous ", name.text(), items_of(args), out)?;
    out.extend_from_slice(b" gives ")?;
    write_two_terms(first, second, out)
}

// How many holes there are in what is no context.
fn write_not_context(holes: usize, out: &mut Vec<u8>) -> Result<(), NoMemory>
    ensures { OnOk result (out.new.items ≡ out.old.items ++ text.fault_name (not_context holes)) }
{
    out.extend_from_slice(b"NotContext ")?;
    write_number(holes, out)
}

// Two lengths that differ.
fn write_lengths(first: usize, other: usize, out: &mut Vec<u8>) -> Result<(), NoMemory>
    ensures { OnOk result
        (out.new.items ≡ out.old.items ++ text.fault_name (lengths_differ first other)) }
{
    out.extend_from_slice(b"Lengths ")?;
    write_number(first, out)?;
    out.extend_from_slice(b" and ")?;
    write_number(other, out)
}

// The name of a metafunction whose calls stand too high.
fn write_spent(name: &Name, out: &mut Vec<u8>) -> Result<(), NoMemory>
    ensures { OnOk result (out.new.items ≡ out.old.items ++ text.fault_name (spent name.now)) }
{
    out.extend_from_slice(b"Spent ")?;
    print_bytes(name.text().as_bytes(), out)
}

// The word for what a contract speaks of, between spaces.
fn side_text(side: Side) -> &'static [u8]
    ensures { result.now ≡ text.side_text side }
{
    match side {
        Side::In => b" in ",
        Side::Out => b" out ",
    }
}

// What goes into what has this name, or comes out of it, and is not as its contract says.
fn write_not_contract(
    name: &Name,
    side: Side,
    term: &Term,
    out: &mut Vec<u8>,
) -> Result<(), NoMemory>
    ensures { OnOk result (out.new.items ≡ out.old.items
        ++ text.fault_name (not_contract name.now side (tree_of term.now))) }
{
    out.extend_from_slice(b"NotContract ")?;
    out.extend_from_slice(name.text().as_bytes())?;
    out.extend_from_slice(side_text(side))?;
    text_of(term, out)
}

// What a fault is called, with its numbers and terms.
fn write_fault_name(fault: &Fault, out: &mut Vec<u8>) -> Result<(), NoMemory>
    ensures { OnOk result
        (out.new.items ≡ out.old.items ++ text.fault_name (fault_of fault.now)) }
{
    match fault {
        Fault::Undefined(name, args) => {
            write_word_call(b"Undefined ", name.text(), items_of(args), out)
        }
        Fault::Ambiguous(name, args, first, second) => {
            write_ambiguous(name, args, first, second, out)
        }
        Fault::NotContract(name, side, term) => write_not_contract(name, *side, term, out),
        Fault::Spent(name) => write_spent(name, out),
        Fault::NotContext(holes) => write_not_context(*holes as usize, out),
        Fault::TooDeep => print_bytes(b"TooDeep", out),
        Fault::TooLarge => print_bytes(b"TooLarge", out),
        Fault::Lengths(first, other) => write_lengths(*first, *other, out),
        Fault::HostDomain(op, args) => {
            write_word_call(b"HostDomain ", operation_text(*op), args, out)
        }
        Fault::Overflow(op, args) => write_word_call(b"Overflow ", operation_text(*op), args, out),
        Fault::DivideByZero(op, args) => {
            write_word_call(b"DivideByZero ", operation_text(*op), args, out)
        }
    }
}

/// The line of a fault.
pub(crate) fn write_fault(fault: &Fault, out: &mut Vec<u8>) -> Result<(), NoMemory>
    ensures { OnOk result
        (out.new.items ≡ out.old.items ++ text.fault_line (fault_of fault.now)) }
{
    out.extend_from_slice(b"fault ")?;
    write_fault_name(fault, out)?;
    out.push(b'\n')?;
    Ok(())
}
