// Walks by choices.
ghost use Rattle.std.specs.Prelude.{◌≡◌, IfOk, IsSome, map, option_map};
ghost use Rattle.rdx_term.specs.View.{tree_of};
ghost use Rattle.rdx_lang.specs.ProgramView.{program_of, relation_of};
ghost use Rattle.rdx_lang.specs.Programs.{language_named as named};
ghost use Rattle.rdx_eval.specs.Views.{program_in};
ghost use Rattle.rdx_reduce.specs.Relations.{AreSteps};
ghost use Rattle.rdx_reduce.specs.StepView.{step_of};
ghost use Rattle.rdx_run.specs.Views.{walk_of};
ghost use Rattle.rdx_run.specs.Walks as model;

use crate::turn::turn;
use rdx_eval::{Engine, Fault};
use rdx_lang::{Matcher, Relation};
use rdx_reduce::Step;
use rdx_term::{NoMemory, Term};
use std::alloc::Global;

/// A term that is reached.
#[derive(Drop)]
pub struct State {
    /// The term.
    pub term: Term,
    /// The steps from it, ascending.
    pub steps: Vec<Step>,
}

/// How a walk ends.
#[derive(Drop)]
pub enum WalkEnd {
    /// All choices were taken.
    Done,
    /// This choice is that of no step: the last state has so many.
    NoSuchReduct(u64, usize),
    /// The steps from this term, which was reached last, have this fault.
    Stopped(Term, Fault),
}

/// The terms that are reached, in order, and how that ends.
#[derive(Drop)]
pub struct Walk {
    /// The states, the first term first. A term whose steps have a fault is none of them.
    pub states: Vec<State>,
    /// The end.
    pub end: WalkEnd,
}

// The term that a choice leads to, counted from 1.
fn chosen(steps: &[Step], choice: u64) -> Result<Option<Term>, NoMemory>
    ensures { IfOk result (λ next. option_map tree_of next
        ≡ option_map (λ s. s.reduct) (model.chosen choice (map step_of steps.now))) }
{
    if choice == 0 {
        return Ok(None);
    }
    match steps.get((choice - 1) as usize) {
        Some(step) => Ok(Some(step.reduct.share()?)),
        None => Ok(None),
    }
}

/// The walk from the term by these choices, each of which takes the step of its number among those
/// of the term at hand, counted from 1. The relation's language has to be one of the program's.
pub fn follow<M: Matcher + Drop>(
    alloc: Global,
    engine: &mut Engine<M>,
    relation: &Relation,
    t: &Term,
    choices: &[u64],
) -> Result<Walk, NoMemory>
    requires { IsSome (named (program_of (program_in engine.old).now)
        (relation_of relation.now).language) }
    ensures walk { IfOk result (λ walk. model.Walks (AreSteps
        (program_of (program_in engine.old).now) (relation_of relation.now)) (tree_of t.now)
        choices.now (walk_of walk)) }
    ensures same { program_in engine.new ≡ program_in engine.old }
{
    let mut states = Vec::new(alloc);
    let mut term = t.share()?;
    for choice in choices {
        let steps = match turn(alloc, engine, relation, &term)? {
            Ok(steps) => steps,
            Err(fault) => {
                return Ok(Walk {
                    states,
                    end: WalkEnd::Stopped(term, fault),
                });
            }
        };
        let number = steps.len();
        match chosen(&steps, *choice)? {
            Some(next) => {
                let term = std::mem::replace(&mut term, next);
                states.push(State { term, steps })?;
            }
            None => {
                states.push(State { term, steps })?;
                return Ok(Walk {
                    states,
                    end: WalkEnd::NoSuchReduct(*choice, number),
                });
            }
        }
    }
    match turn(alloc, engine, relation, &term)? {
        Ok(steps) => {
            states.push(State { term, steps })?;
            Ok(Walk {
                states,
                end: WalkEnd::Done,
            })
        }
        Err(fault) => Ok(Walk {
            states,
            end: WalkEnd::Stopped(term, fault),
        }),
    }
}
