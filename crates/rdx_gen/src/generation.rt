// Generation: the frames, and what is done next.
ghost use Rattle.std.specs.Prelude.{◌≡◌, ◌<◌, ◌+◌, ◌∷◌, [], ◌++◌, IfOk};
ghost use Rattle.rdx_lang.specs.PatternView.{pattern_of};
ghost use Rattle.rdx_term.specs.View.{tree_of};
ghost use Rattle.rdx_gen.specs.Inside.Frames.{gives, leads, pending};
ghost use Rattle.rdx_gen.specs.Inside.Scopes.{term_here};
ghost use Rattle.rdx_gen.specs.Inside.Weights.{frames_weight, move_weight, next_weight};
ghost use Rattle.rdx_gen.specs.Outcomes.{State as model_state};
ghost use Rattle.rdx_gen.specs.Views.{Says, state_of};

use crate::frames::{Frame, Move, Next};
use crate::setting::{Scope, Setting};
use crate::state::State;
use crate::steps::{resume, step};
use crate::stop::Stop;
use rdx_lang::Pat;
use rdx_term::{NoMemory, Term};

// What is done next; what waits for it is put on the frames.
fn follow<'p>(
    _setting: &'p Setting<'p>,
    stack: &mut Vec<Frame<'p>>,
    taken: Move<'p>,
) -> Result<Next<'p>, NoMemory>
    ensures leads { (s : model_state) → IfOk result
        (λ n. pending _setting.now stack.new.items (gives _setting.now n s)
        ≡ pending _setting.now stack.old.items (leads _setting.now taken.entry s)) }
    ensures weight { IfOk result (λ n. frames_weight _setting.now stack.new.items
        + next_weight _setting.now n
        ≡ frames_weight _setting.now stack.old.items + move_weight _setting.now taken.entry) }
{
    match taken {
        Move::Goes(next) => Ok(next),
        Move::Waits(frame, next) => {
            stack.push(frame)?;
            Ok(next)
        }
    }
}

// All steps.
fn advance<'p>(setting: &'p Setting<'p>, next: Next<'p>, state: &mut State) -> Result<Term, Stop>
    ensures { Says tree_of (gives setting.now next.entry (state_of state.old)) result
        (state_of state.new) }
{
    let mut stack: Vec<Frame<'p>> = Vec::new(setting.alloc);
    let mut next = next;
    loop {
        match next {
            Next::Made(t) => {
                let Some(frame) = stack.pop() else {
                    return Ok(t);
                };
                let taken = resume(setting, frame, t, state)?;
                next = follow(setting, &mut stack, taken)?;
            }
            other => {
                let taken = step(setting, other, state)?;
                next = follow(setting, &mut stack, taken)?;
            }
        }
    }
}

/// A term of the pattern.
pub(crate) fn term<'p>(
    setting: &'p Setting<'p>,
    scope: Scope<'p>,
    pat: &'p Pat,
    state: &mut State,
) -> Result<Term, Stop>
    ensures { Says tree_of (term_here setting.now scope.entry (pattern_of pat.now)
        (state_of state.old)) result (state_of state.new) }
{
    advance(setting, Next::Term(scope, pat), state)
}
