// The texts of walks, and of the faults of walks and runs.
ghost use Rattle.std.specs.Prelude.{◌≡◌, ◌∷◌, ◌++◌, [], IfOk, OnOk, map};
ghost use Rattle.rdx_lang.specs.ProgramView.{rule_of};
ghost use Rattle.rdx_reduce.specs.StepView.{step_of};
ghost use Rattle.rdx_run.specs.Views.{end_of, state_of, states_of, walk_of};
ghost use Rattle.rdx_term.specs.View.{tree_of};
ghost use Rattle.rdx_answer.specs.AnswerText as text;
ghost use Rattle.rdx_answer.specs.StepperAnswers as model;

use crate::texts::{write_fault, write_number, write_step};
use rdx_lang::Rule;
use rdx_reduce::Step;
use rdx_run::{State, Walk, WalkEnd};
use rdx_term::{NoMemory, Term, text_of};

/// Why a run rests in no term: this one has two different reducts.
pub(crate) fn write_branches(term: &Term, out: &mut Vec<u8>) -> Result<(), NoMemory>
    ensures { OnOk result
        (out.new.items ≡ out.old.items ++ text.branches_line (tree_of term.now)) }
{
    out.extend_from_slice(b"fault Branches ")?;
    text_of(term, out)?;
    out.push(b'\n')?;
    Ok(())
}

/// Why a run rests in no term: it took as many steps as it may.
pub(crate) fn write_bound(out: &mut Vec<u8>) -> Result<(), NoMemory>
    ensures { OnOk result (out.new.items ≡ out.old.items ++ text.bound_line) }
{
    out.extend_from_slice(b"fault RunBound 10000\n")?;
    Ok(())
}

// A choice by which there is no step, of so many.
fn write_no_such_reduct(choice: u64, steps: usize, out: &mut Vec<u8>) -> Result<(), NoMemory>
    ensures { OnOk result
        (out.new.items ≡ out.old.items ++ text.no_such_reduct_line choice steps) }
{
    out.extend_from_slice(b"fault NoSuchReduct ")?;
    write_number(choice as usize, out)?;
    out.extend_from_slice(b" of ")?;
    write_number(steps, out)?;
    out.push(b'\n')?;
    Ok(())
}

// The term at which one is after so many steps.
fn write_state_line(k: usize, term: &Term, out: &mut Vec<u8>) -> Result<(), NoMemory>
    ensures { OnOk result
        (out.new.items ≡ out.old.items ++ model.state_line k (tree_of term.now)) }
{
    out.extend_from_slice(b"step ")?;
    write_number(k, out)?;
    out.push(b' ')?;
    text_of(term, out)?;
    out.push(b'\n')?;
    Ok(())
}

// A line for each step, with its number, counted from 1.
fn write_numbered_steps(rules: &[Rule], steps: &[Step], out: &mut Vec<u8>) -> Result<(), NoMemory>
    ensures { OnOk result (out.new.items ≡ out.old.items ++ text.lines_text
        (model.numbered_steps 1 (map rule_of rules.now) (map step_of steps.now))) }
{
    for (i, step) in steps.iter().enumerate() {
        out.extend_from_slice(b"  ")?;
        write_number(i + 1, out)?;
        out.push(b' ')?;
        write_step(rules, step, out)?;
        out.push(b'\n')?;
    }
    Ok(())
}

// A state that is reached after so many steps, with the steps from it.
fn write_state(k: usize, rules: &[Rule], state: &State, out: &mut Vec<u8>) -> Result<(), NoMemory>
    ensures { OnOk result (out.new.items ≡ out.old.items
        ++ model.states_text k (map rule_of rules.now) (states_of (state.now ∷ []))) }
{
    write_state_line(k, &state.term, out)?;
    write_numbered_steps(rules, &state.steps, out)
}

// The states of a walk.
fn write_states(rules: &[Rule], states: &[State], out: &mut Vec<u8>) -> Result<(), NoMemory>
    ensures { OnOk result (out.new.items ≡ out.old.items
        ++ model.states_text 0 (map rule_of rules.now) (states_of states.now)) }
{
    for (k, state) in states.iter().enumerate() {
        write_state(k, rules, state, out)?;
    }
    Ok(())
}

// What stands behind so many states, and whether all choices were taken.
fn write_end(k: usize, end: &WalkEnd, out: &mut Vec<u8>) -> Result<bool, NoMemory>
    ensures text { OnOk result
        (out.new.items ≡ out.old.items ++ model.end_text k (end_of end.now)) }
    ensures done { IfOk result (λ done. done ≡ model.is_done (end_of end.now)) }
{
    match end {
        WalkEnd::Done => Ok(true),
        WalkEnd::NoSuchReduct(choice, steps) => {
            write_no_such_reduct(*choice, *steps, out)?;
            Ok(false)
        }
        WalkEnd::Stopped(term, fault) => {
            write_state_line(k, term, out)?;
            write_fault(fault, out)?;
            Ok(false)
        }
    }
}

/// The states of a walk by these rules, and why it ends, where that is a fault. Says whether all
/// choices were taken.
pub(crate) fn write_walk(rules: &[Rule], walk: &Walk, out: &mut Vec<u8>) -> Result<bool, NoMemory>
    ensures text { OnOk result (out.new.items ≡ out.old.items
        ++ model.walk_text (map rule_of rules.now) (walk_of walk.now)) }
    ensures done { IfOk result (λ done. done ≡ model.is_done (walk_of walk.now).end) }
{
    write_states(rules, &walk.states, out)?;
    write_end(walk.states.len(), &walk.end, out)
}
