// Evaluation: one recursion over templates, calls, judgements and extras. It goes deeper only by calls,
// which have less height each, and what a template makes is made in steps, so it needs little of the
// machine's stack.
ghost use Rattle.std.specs.Prelude.{[], map};
ghost use Rattle.rdx_term.specs.View.{tree_of};
ghost use Rattle.rdx_lang.specs.TemplateView.{template_of};
ghost use Rattle.rdx_eval.specs.Inside.Frames.{Gives};
ghost use Rattle.rdx_eval.specs.Inside.Parts.{InstList};
ghost use Rattle.rdx_eval.specs.Inside.Memos.{IsMemoIn};
ghost use Rattle.rdx_eval.specs.Inside.Scopes.{calls_here, bound_here};
ghost use Rattle.rdx_eval.specs.Inside.Stops.{Tells};

use crate::evaluation::calls::call;
use crate::frames::{Next, Stage};
use crate::host::Host;
use crate::kept::Memo;
use crate::making::listed;
use crate::scope::Scope;
use crate::steps::advance;
use crate::stop::Stop;
use rdx_lang::{Matcher, Template};
use rdx_term::Term;

pub(crate) mod calls;
pub(crate) mod extras;

/// What is done first in the scope, with all that comes of it, makes.
#[cycle(evaluation)]
#[inline(never)]
pub(crate) fn make<'t, M: Matcher, H: Host>(
    scope: &Scope<H>,
    matcher: &mut M,
    memo: &mut Memo,
    first: Next<'t>,
) -> Result<Term, Stop>
    requires kept { IsMemoIn scope.now.setting.now memo.old }
    ensures answer { Tells tree_of (Gives (calls_here scope.now) (bound_here scope.now) []
        first.entry) result }
    ensures kept { IsMemoIn scope.now.setting.now memo.new }
{
    let mut turns = Vec::new(scope.setting.alloc);
    let mut stack = Vec::new(scope.setting.alloc);
    let mut next = first;
    'calls: loop {
        let stage = advance(scope, &mut turns, &mut stack, next)?;
        match stage {
            Stage::Calls(f, args) => {
                let t = call(scope.setting, matcher, memo, scope.height, f, &args)?;
                next = Next::Made(t);
            }
            Stage::Ends(t) => return Ok(t),
        }
    }
}

// The list of what the templates make, one after the other.
#[cycle(evaluation)]
#[inline(never)]
pub(crate) fn make_list<M: Matcher, H: Host>(
    scope: &Scope<H>,
    matcher: &mut M,
    memo: &mut Memo,
    templates: &[Template],
) -> Result<Term, Stop>
    requires kept { IsMemoIn scope.now.setting.now memo.old }
    ensures answer { Tells tree_of (InstList (calls_here scope.now) (bound_here scope.now) []
        (map template_of templates.now)) result }
    ensures kept { IsMemoIn scope.now.setting.now memo.new }
{
    let mut found = Vec::new(scope.setting.alloc);
    for template in templates {
        let t = make(scope, matcher, memo, Next::Make(template))?;
        found.push(t)?;
    }
    listed(scope.setting.alloc, found)
}
