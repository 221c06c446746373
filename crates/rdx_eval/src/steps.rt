// Single steps of making a template. What waits stands in frames, which are kept in memory, so a
// template takes nothing of the machine's stack, however deep it is.
ghost use Rattle.std.specs.Prelude.{◌≡◌, ◌<◌, ◌+◌, ◌∷◌, [], ◌++◌, ℕ, List, IfOk};
ghost use Rattle.rdx_lang.specs.Templates.{many as many_more};
ghost use Rattle.rdx_lang.specs.TemplateView.{host_of, template_of};
ghost use Rattle.rdx_term.specs.Tree.{Tree};
ghost use Rattle.rdx_term.specs.View.{tree_of};
ghost use Rattle.rdx_eval.specs.Answers.{Answer, value};
ghost use Rattle.rdx_eval.specs.Inside.Frames.{Advances, After, ArgumentsGive, Finish, Gives, Goes, IsStep, Pending, RowGives, items_at, turn_of, turns_of};
ghost use Rattle.rdx_eval.specs.Inside.Parts.{items_in, hosts_in};
ghost use Rattle.rdx_eval.specs.Inside.Scopes.{calls_here, bound_here};
ghost use Rattle.rdx_eval.specs.Inside.Weights.{frame_weight, frames_weight, host_weight, hosts_weight, items_weight, next_weight, weight};
ghost use Rattle.rdx_eval.specs.Instantiation.{FirstFalse, FirstTrue, Inst, InstHost, agree};
ghost use Rattle.rdx_eval.specs.Turns.{lengths};
ghost use Rattle.rdx_eval.specs.Views.{terms_in};
ghost use Rattle.rdx_eval.specs.declared.frames.Frame.{Frame as Pended};
ghost use Rattle.rdx_eval.specs.declared.frames.Frame.TheVariants.{And, Or, Turn};

use crate::at_once::{past_arguments, past_items};
use crate::frames::{Aim, Frame, Head, Next, Row, Stage, Turns};
use crate::host::{Host, is_false, operate};
use crate::making::{filled, listed};
use crate::scope::Scope;
use crate::stop::Stop;
use crate::turns::{term_for, turns_around};
use rdx_lang::{HostExpr, HostOp, TItem, Template};
use rdx_term::{NoMemory, Term};

/// What stands first among the items.
pub(crate) fn head<'t>(items: &'t [TItem]) -> Head<'t>
    ensures { items_at result ≡ items_in items.now }
{
    let Some((item, rest)) = items.split_first() else {
        return Head::End;
    };
    match item {
        TItem::One(template) => Head::One(template, rest),
        TItem::Many(template) => Head::Many(template, rest),
    }
}

// What is made of the terms of a list template, which are all there.
fn finish<'t, H: Host>(scope: &Scope<H>, aim: Aim<'t>, found: Vec<Term>) -> Result<Next<'t>, Stop>
    ensures { (is : List ℕ) → (ws : List Pended)
        → Goes (calls_here scope.now) (bound_here scope.now)
        (Finish (calls_here scope.now) aim.entry (terms_in found)) 2 is ws is ws result }
{
    let t = listed(scope.setting.alloc, found)?;
    match aim {
        Aim::List => Ok(Next::Made(t)),
        Aim::Call(f) => Ok(Next::Call(f, t)),
    }
}

// The terms with one more behind them.
fn one_more(found: Vec<Term>, t: Term) -> Result<Vec<Term>, NoMemory>
    ensures { IfOk result (λ v. terms_in v ≡ terms_in found ++ tree_of t ∷ []) }
{
    let mut found = found;
    found.push(t)?;
    Ok(found)
}

// The row with one term more.
fn with_term<'t>(row: Row<'t>, t: Term) -> Result<Row<'t>, NoMemory>
    ensures aim { IfOk result (λ w. w.aim ≡ row.entry.aim) }
    ensures found { IfOk result (λ w. terms_in w.found
        ≡ terms_in row.entry.found ++ tree_of t ∷ []) }
    ensures rest { IfOk result (λ w. w.rest.now ≡ row.entry.rest.now) }
{
    let found = one_more(row.found, t)?;
    Ok(Row {
        aim: row.aim,
        found,
        rest: row.rest,
    })
}

// Whether `and` goes on behind this term, before these expressions.
fn behind_and<'t, H: Host>(_scope: &Scope<H>, t: Term, hs: &'t [HostExpr]) -> Next<'t>
    ensures gives { (is : List ℕ) (r : Answer Tree)
        → Gives (calls_here _scope.now) (bound_here _scope.now) is result r
        → After (calls_here _scope.now) (bound_here _scope.now) is (And hs.entry) (tree_of t) r }
    ensures less { next_weight result < hosts_weight (hosts_in hs.now) + 2 }
{
    if is_false(&t) {
        return Next::Made(t);
    }
    Next::And(t, hs)
}

// Whether `or` does.
fn behind_or<'t, H: Host>(_scope: &Scope<H>, t: Term, hs: &'t [HostExpr]) -> Next<'t>
    ensures gives { (is : List ℕ) (r : Answer Tree)
        → Gives (calls_here _scope.now) (bound_here _scope.now) is result r
        → After (calls_here _scope.now) (bound_here _scope.now) is (Or hs.entry) (tree_of t) r }
    ensures less { next_weight result < hosts_weight (hosts_in hs.now) + 2 }
{
    if !is_false(&t) {
        return Next::Made(t);
    }
    Next::Or(hs)
}

// The first turn of an item under an ellipsis, which comes before the other items of the row, if it
// takes one.
fn first_turn<'t, H: Host>(
    scope: &Scope<H>,
    turns: &mut Vec<usize>,
    stack: &mut Vec<Frame<'t>>,
    template: &'t Template,
    row: Row<'t>,
) -> Result<Next<'t>, Stop>
    ensures { Goes (calls_here scope.now) (bound_here scope.now)
        (RowGives (calls_here scope.now) (bound_here scope.now) turns.old.items row.entry.aim
        (many_more (template_of template.now) (items_in row.entry.rest.now))
        (terms_in row.entry.found))
        (items_weight (many_more (template_of template.now) (items_in row.entry.rest.now)) + 2)
        turns.old.items stack.old.items turns.new.items stack.new.items result }
{
    let times = turns_around(scope.setting.alloc, template, scope.b, turns)?;
    begin_turns(scope, turns, stack, template, row, times)
}

// The first of so many turns, if there is one.
fn begin_turns<'t, H: Host>(
    scope: &Scope<H>,
    turns: &mut Vec<usize>,
    stack: &mut Vec<Frame<'t>>,
    template: &'t Template,
    row: Row<'t>,
    times: usize,
) -> Result<Next<'t>, Stop>
    requires { value times
        ≡ agree (lengths (bound_here scope.now) turns.old.items 0 (template_of template.now)) }
    ensures { Goes (calls_here scope.now) (bound_here scope.now)
        (RowGives (calls_here scope.now) (bound_here scope.now) turns.old.items row.entry.aim
        (many_more (template_of template.now) (items_in row.entry.rest.now))
        (terms_in row.entry.found))
        (items_weight (many_more (template_of template.now) (items_in row.entry.rest.now)) + 2)
        turns.old.items stack.old.items turns.new.items stack.new.items result }
{
    if times == 0 {
        return Ok(Next::Row(row));
    }
    turns.push(0)?;
    stack.push(Frame::Turn(Turns {
        row,
        template,
        turn: 0,
        times,
    }))?;
    Ok(Next::Make(template))
}

// The next item of a row, if there is one more.
fn next_item<'t, H: Host>(
    scope: &Scope<H>,
    turns: &mut Vec<usize>,
    stack: &mut Vec<Frame<'t>>,
    row: Row<'t>,
) -> Result<Next<'t>, Stop>
    ensures { Goes (calls_here scope.now) (bound_here scope.now)
        (RowGives (calls_here scope.now) (bound_here scope.now) turns.old.items row.entry.aim
        (items_in row.entry.rest.now) (terms_in row.entry.found))
        (items_weight (items_in row.entry.rest.now) + 2)
        turns.old.items stack.old.items turns.new.items stack.new.items result }
{
    match head(row.rest) {
        Head::End => finish(scope, row.aim, row.found),
        Head::One(template, rest) => {
            stack.push(Frame::Item(Row {
                aim: row.aim,
                found: row.found,
                rest,
            }))?;
            Ok(Next::Make(template))
        }
        Head::Many(template, rest) => {
            let row = Row {
                aim: row.aim,
                found: row.found,
                rest,
            };
            first_turn(scope, turns, stack, template, row)
        }
    }
}

// The items of a row that are to come.
fn in_row<'t, H: Host>(
    scope: &Scope<H>,
    turns: &mut Vec<usize>,
    stack: &mut Vec<Frame<'t>>,
    row: Row<'t>,
) -> Result<Next<'t>, Stop>
    ensures { Goes (calls_here scope.now) (bound_here scope.now)
        (RowGives (calls_here scope.now) (bound_here scope.now) turns.old.items row.entry.aim
        (items_in row.entry.rest.now) (terms_in row.entry.found))
        (items_weight (items_in row.entry.rest.now) + 2)
        turns.old.items stack.old.items turns.new.items stack.new.items result }
{
    let mut found = row.found;
    let rest = past_items(scope, turns, &mut found, row.rest)?;
    let left = Row {
        aim: row.aim,
        found,
        rest,
    };
    next_item(scope, turns, stack, left)
}

// The next argument of an operation, if there is one more.
fn next_argument<'t, H: Host>(
    scope: &Scope<H>,
    stack: &mut Vec<Frame<'t>>,
    op: HostOp,
    found: Vec<Term>,
    hs: &'t [HostExpr],
) -> Result<Next<'t>, Stop>
    ensures { (is : List ℕ) → Goes (calls_here scope.now) (bound_here scope.now)
        (ArgumentsGive (calls_here scope.now) (bound_here scope.now) is op (hosts_in hs.now)
        (terms_in found))
        (hosts_weight (hosts_in hs.now) + 1)
        is stack.old.items is stack.new.items result }
{
    let Some((h, rest)) = hs.split_first() else {
        return Ok(Next::Made(operate(scope.setting.alloc, scope.setting.host, op, found)?));
    };
    stack.push(Frame::Argument(op, found, rest))?;
    Ok(Next::Host(h))
}

// The arguments of an operation that are to come.
fn in_arguments<'t, H: Host>(
    scope: &Scope<H>,
    turns: &[usize],
    stack: &mut Vec<Frame<'t>>,
    op: HostOp,
    found: Vec<Term>,
    hs: &'t [HostExpr],
) -> Result<Next<'t>, Stop>
    ensures { Goes (calls_here scope.now) (bound_here scope.now)
        (ArgumentsGive (calls_here scope.now) (bound_here scope.now) turns.now op (hosts_in hs.now)
        (terms_in found))
        (hosts_weight (hosts_in hs.now) + 1)
        turns.now stack.old.items turns.now stack.new.items result }
{
    let mut made = found;
    let rest = past_arguments(scope, turns, &mut made, hs)?;
    next_argument(scope, stack, op, made, rest)
}

// The next expression of `and`, if there is one more behind one that made this.
fn in_and<'t, H: Host>(
    _scope: &Scope<H>,
    stack: &mut Vec<Frame<'t>>,
    last: Term,
    hs: &'t [HostExpr],
) -> Result<Next<'t>, Stop>
    ensures { (is : List ℕ) → Goes (calls_here _scope.now) (bound_here _scope.now)
        (FirstFalse (calls_here _scope.now) (bound_here _scope.now) is (tree_of last)
        (hosts_in hs.now))
        (hosts_weight (hosts_in hs.now) + 1)
        is stack.old.items is stack.new.items result }
{
    let Some((h, rest)) = hs.split_first() else {
        return Ok(Next::Made(last));
    };
    stack.push(Frame::And(rest))?;
    Ok(Next::Host(h))
}

// The next expression of `or`, if there is one more.
fn in_or<'t, H: Host>(
    _scope: &Scope<H>,
    stack: &mut Vec<Frame<'t>>,
    hs: &'t [HostExpr],
) -> Result<Next<'t>, Stop>
    ensures { (is : List ℕ) → Goes (calls_here _scope.now) (bound_here _scope.now)
        (FirstTrue (calls_here _scope.now) (bound_here _scope.now) is (hosts_in hs.now))
        (hosts_weight (hosts_in hs.now) + 1)
        is stack.old.items is stack.new.items result }
{
    let Some((h, rest)) = hs.split_first() else {
        return Ok(Next::Made(Term::Bool(false)));
    };
    stack.push(Frame::Or(rest))?;
    Ok(Next::Host(h))
}

// The first step of a template.
fn begin<'t, H: Host>(
    scope: &Scope<H>,
    turns: &[usize],
    stack: &mut Vec<Frame<'t>>,
    template: &'t Template,
) -> Result<Next<'t>, Stop>
    ensures { Goes (calls_here scope.now) (bound_here scope.now)
        (Inst (calls_here scope.now) (bound_here scope.now) turns.now (template_of template.now))
        (weight (template_of template.now))
        turns.now stack.old.items turns.now stack.new.items result }
{
    match template {
        Template::Lit(t) => Ok(Next::Made(t.share()?)),
        Template::Var(name, depth) => Ok(Next::Made(term_for(scope.b, name, *depth, turns)?)),
        Template::Fill(context, part) => {
            stack.push(Frame::Context(part))?;
            Ok(Next::Make(context))
        }
        Template::Call(f, items) => Ok(Next::Row(Row {
            aim: Aim::Call(f),
            found: Vec::new(scope.setting.alloc),
            rest: items,
        })),
        Template::Host(h) => Ok(Next::Host(h)),
        Template::Seq(items) => Ok(Next::Row(Row {
            aim: Aim::List,
            found: Vec::new(scope.setting.alloc),
            rest: items,
        })),
    }
}

// The first step of a host expression.
fn begin_host<'t, H: Host>(scope: &Scope<H>, h: &'t HostExpr) -> Result<Next<'t>, Stop>
    ensures { (is : List ℕ) → (ws : List Pended)
        → Goes (calls_here scope.now) (bound_here scope.now)
        (InstHost (calls_here scope.now) (bound_here scope.now) is (host_of h.now))
        (host_weight (host_of h.now)) is ws is ws result }
{
    match h {
        HostExpr::Term(template) => Ok(Next::Make(template)),
        HostExpr::Int(n) => Ok(Next::Made(Term::Int(*n))),
        HostExpr::Bool(v) => Ok(Next::Made(Term::Bool(*v))),
        HostExpr::Call(op, hs) => Ok(Next::Arguments(*op, Vec::new(scope.setting.alloc), hs)),
        HostExpr::And(hs) => Ok(Next::And(Term::Bool(true), hs)),
        HostExpr::Or(hs) => Ok(Next::Or(hs)),
    }
}

/// One step.
pub(crate) fn step<'t, H: Host>(
    scope: &Scope<H>,
    turns: &mut Vec<usize>,
    stack: &mut Vec<Frame<'t>>,
    next: Next<'t>,
) -> Result<Next<'t>, Stop>
    requires { IsStep next }
    ensures { Goes (calls_here scope.now) (bound_here scope.now)
        (Gives (calls_here scope.now) (bound_here scope.now) turns.old.items next.entry)
        (next_weight next.entry)
        turns.old.items stack.old.items turns.new.items stack.new.items result }
{
    match next {
        Next::Make(template) => begin(scope, turns, stack, template),
        Next::Host(h) => begin_host(scope, h),
        Next::Row(row) => in_row(scope, turns, stack, row),
        Next::Arguments(op, found, hs) => in_arguments(scope, turns, stack, op, found, hs),
        Next::And(last, hs) => in_and(scope, stack, last, hs),
        Next::Or(hs) => in_or(scope, stack, hs),
        Next::Call(_, _) | Next::Made(_) => unreachable!(),
    }
}

// The next turn of an ellipsis, of which one made this term; or what comes behind the last one.
fn next_turn<'t, H: Host>(
    _scope: &Scope<H>,
    turns: &mut Vec<usize>,
    stack: &mut Vec<Frame<'t>>,
    taken: Turns<'t>,
    t: Term,
) -> Result<Next<'t>, Stop>
    ensures { (is : List ℕ) → turns.old.items ≡ is ++ turn_of (Turn taken.entry)
        → Goes (calls_here _scope.now) (bound_here _scope.now)
        (After (calls_here _scope.now) (bound_here _scope.now) is (Turn taken.entry) (tree_of t))
        (frame_weight (Turn taken.entry))
        is stack.old.items turns.new.items stack.new.items result }
{
    turns.pop();
    let Turns {
        row,
        template,
        turn,
        times,
    } = taken;
    let row = with_term(row, t)?;
    if turn >= times {
        return Ok(Next::Row(row));
    }
    let turn = turn + 1;
    if turn >= times {
        return Ok(Next::Row(row));
    }
    turns.push(turn)?;
    stack.push(Frame::Turn(Turns {
        row,
        template,
        turn,
        times,
    }))?;
    Ok(Next::Make(template))
}

/// What the frame does with the term that was made for it.
pub(crate) fn resume<'t, H: Host>(
    scope: &Scope<H>,
    turns: &mut Vec<usize>,
    stack: &mut Vec<Frame<'t>>,
    frame: Frame<'t>,
    t: Term,
) -> Result<Next<'t>, Stop>
    ensures { (is : List ℕ) → turns.old.items ≡ is ++ turn_of frame.entry
        → Goes (calls_here scope.now) (bound_here scope.now)
        (After (calls_here scope.now) (bound_here scope.now) is frame.entry (tree_of t))
        (frame_weight frame.entry)
        is stack.old.items turns.new.items stack.new.items result }
{
    match frame {
        Frame::Context(part) => {
            stack.push(Frame::Part(t))?;
            Ok(Next::Make(part))
        }
        Frame::Part(context) => Ok(Next::Made(filled(scope.setting.alloc, &context, &t)?)),
        Frame::Item(row) => Ok(Next::Row(with_term(row, t)?)),
        Frame::Turn(taken) => next_turn(scope, turns, stack, taken, t),
        Frame::Argument(op, found, hs) => Ok(Next::Arguments(op, one_more(found, t)?, hs)),
        Frame::And(hs) => Ok(behind_and(scope, t, hs)),
        Frame::Or(hs) => Ok(behind_or(scope, t, hs)),
    }
}

/// All steps up to the next call, or to the end.
pub(crate) fn advance<'t, H: Host>(
    scope: &Scope<H>,
    turns: &mut Vec<usize>,
    stack: &mut Vec<Frame<'t>>,
    next: Next<'t>,
) -> Result<Stage<'t>, Stop>
    requires { turns.old.items ≡ turns_of stack.old.items }
    ensures { Advances (calls_here scope.now) (bound_here scope.now)
        (Pending (calls_here scope.now) (bound_here scope.now) [] stack.old.items
        (Gives (calls_here scope.now) (bound_here scope.now) turns.old.items next.entry))
        (frames_weight stack.old.items + next_weight next.entry)
        turns.new.items stack.new.items result }
{
    let mut next = next;
    loop {
        match next {
            Next::Call(f, args) => return Ok(Stage::Calls(f, args)),
            Next::Made(t) => {
                let Some(frame) = stack.pop() else {
                    return Ok(Stage::Ends(t));
                };
                next = resume(scope, turns, stack, frame, t)?;
            }
            other => next = step(scope, turns, stack, other)?,
        }
    }
}
