// What is made at once, without a step of its own: literals, and what names stand for. Mostly the items of
// a list template, and the arguments of an operation, are such.
ghost use Rattle.std.specs.Option.{IfSome};
ghost use Rattle.std.specs.Prelude.{◌≤◌, IfOk};
ghost use Rattle.rdx_lang.specs.TemplateView.{host_of, template_of};
ghost use Rattle.rdx_lang.specs.declared.operation.HostOp.{HostOp as Operation};
ghost use Rattle.rdx_term.specs.Tree.{Tree};
ghost use Rattle.rdx_term.specs.View.{tree_of};
ghost use Rattle.rdx_eval.specs.Answers.{Answer, value};
ghost use Rattle.rdx_eval.specs.Inside.Frames.{ArgumentsGive, RowGives};
ghost use Rattle.rdx_eval.specs.Inside.Parts.{hosts_in, items_in};
ghost use Rattle.rdx_eval.specs.Inside.Scopes.{bound_here, calls_here};
ghost use Rattle.rdx_eval.specs.Inside.Weights.{hosts_weight, items_weight};
ghost use Rattle.rdx_eval.specs.Instantiation.{Inst, InstHost};
ghost use Rattle.rdx_eval.specs.Views.{terms_in};
ghost use Rattle.rdx_eval.specs.declared.frames.Aim.{Aim as Aimed};

use crate::frames::Head;
use crate::host::Host;
use crate::scope::Scope;
use crate::steps::head;
use crate::turns::term_for;
use rdx_lang::{HostExpr, TItem, Template};
use rdx_term::{NoMemory, Term};

// The term that the template makes, if it is a literal or a name.
#[inline(always)]
fn at_once<H: Host>(
    scope: &Scope<H>,
    turns: &[usize],
    template: &Template,
) -> Result<Option<Term>, NoMemory>
    ensures { IfOk result (λ r. IfSome r (λ t. Inst (calls_here scope.now) (bound_here scope.now)
        turns.now (template_of template.now) (value (tree_of t)))) }
{
    match template {
        Template::Lit(t) => Ok(Some(t.share()?)),
        Template::Var(name, depth) => Ok(Some(term_for(scope.b, name, *depth, turns)?)),
        Template::Fill(_, _) | Template::Call(_, _) | Template::Host(_) | Template::Seq(_) => Ok(
            None,
        ),
    }
}

// The term that the host expression makes, if it is a number, a truth value or such a template.
#[inline(always)]
fn host_at_once<H: Host>(
    scope: &Scope<H>,
    turns: &[usize],
    h: &HostExpr,
) -> Result<Option<Term>, NoMemory>
    ensures { IfOk result (λ r. IfSome r (λ t. InstHost (calls_here scope.now)
        (bound_here scope.now) turns.now (host_of h.now) (value (tree_of t)))) }
{
    match h {
        HostExpr::Term(template) => at_once(scope, turns, template),
        HostExpr::Int(n) => Ok(Some(Term::Int(*n))),
        HostExpr::Bool(v) => Ok(Some(Term::Bool(*v))),
        HostExpr::Call(_, _) | HostExpr::And(_) | HostExpr::Or(_) => Ok(None),
    }
}

/// The items behind the first ones that are made at once. What these make is put behind what was found.
pub(crate) fn past_items<'t, H: Host>(
    scope: &Scope<H>,
    turns: &[usize],
    found: &mut Vec<Term>,
    items: &'t [TItem],
) -> Result<&'t [TItem], NoMemory>
    ensures gives { IfOk result (λ rest. (a : Aimed) (r : Answer Tree)
        → RowGives (calls_here scope.now) (bound_here scope.now) turns.now a (items_in rest.now)
        (terms_in found.new) r
        → RowGives (calls_here scope.now) (bound_here scope.now) turns.now a (items_in items.now)
        (terms_in found.old) r) }
    ensures less { IfOk result (λ rest.
        items_weight (items_in rest.now) ≤ items_weight (items_in items.now)) }
{
    let mut rest = items;
    for _ in 0..items.len() {
        let Head::One(template, behind) = head(rest) else {
            return Ok(rest);
        };
        let Some(t) = at_once(scope, turns, template)? else {
            return Ok(rest);
        };
        found.push(t)?;
        rest = behind;
    }
    Ok(rest)
}

/// The arguments behind the first ones that are made at once, in the same way.
pub(crate) fn past_arguments<'t, H: Host>(
    scope: &Scope<H>,
    turns: &[usize],
    found: &mut Vec<Term>,
    hs: &'t [HostExpr],
) -> Result<&'t [HostExpr], NoMemory>
    ensures gives { IfOk result (λ rest. (op : Operation) (r : Answer Tree)
        → ArgumentsGive (calls_here scope.now) (bound_here scope.now) turns.now op
        (hosts_in rest.now) (terms_in found.new) r
        → ArgumentsGive (calls_here scope.now) (bound_here scope.now) turns.now op
        (hosts_in hs.now) (terms_in found.old) r) }
    ensures less { IfOk result (λ rest.
        hosts_weight (hosts_in rest.now) ≤ hosts_weight (hosts_in hs.now)) }
{
    let mut rest = hs;
    for _ in 0..hs.len() {
        let Some((h, behind)) = rest.split_first() else {
            return Ok(rest);
        };
        let Some(t) = host_at_once(scope, turns, h)? else {
            return Ok(rest);
        };
        found.push(t)?;
        rest = behind;
    }
    Ok(rest)
}
