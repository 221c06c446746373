// What extras make of bindings: `where`, side conditions, premises and fresh names.
ghost use Rattle.rdx_term.specs.View.{tree_of};
ghost use Rattle.rdx_lang.specs.Checked.{language_in, pattern_in};
ghost use Rattle.rdx_lang.specs.ProgramView.{extra_of, extras_of, premise_of};
ghost use Rattle.rdx_lang.specs.Shown.{binding_of};
ghost use Rattle.rdx_lang.specs.TemplateView.{template_of, host_of};
ghost use Rattle.rdx_eval.specs.Answers.{Gather};
ghost use Rattle.rdx_eval.specs.Extending.{ByEach, ByPremise, Extend, Survivors};
ghost use Rattle.rdx_eval.specs.Fresh.{avoiding};
ghost use Rattle.rdx_eval.specs.Inside.Extras.{WhereOne, SideOne, behind_all};
ghost use Rattle.rdx_eval.specs.Inside.Memos.{IsMemoIn};
ghost use Rattle.rdx_eval.specs.Inside.Scopes.{calls_in};
ghost use Rattle.rdx_eval.specs.Inside.Stops.{Tells};
ghost use Rattle.rdx_eval.specs.Views.{bindings_in};

use crate::evaluation::calls::judge;
use crate::evaluation::{make, make_list};
use crate::extending::{found_by, listed_bindings, matched, matched_each, unless_false};
use crate::frames::Next;
use crate::fresh::freshened_each;
use crate::host::Host;
use crate::kept::Memo;
use crate::scope::{Scope, Setting};
use crate::stop::Stop;
use rdx_lang::{Binding, CheckedLang, CheckedPat, Extra, HostExpr, Matcher, Premise, Template};
use rdx_term::Term;

// The bindings by which the pattern matches the term and that meet the extras.
#[cycle(evaluation)]
#[inline(never)]
pub(crate) fn survivors<M: Matcher, H: Host>(
    setting: &Setting<H>,
    matcher: &mut M,
    memo: &mut Memo,
    height: usize,
    language: &CheckedLang,
    pat: &CheckedPat,
    extras: &[Extra],
    t: &Term,
) -> Result<Vec<Binding>, Stop>
    requires kept { IsMemoIn setting.now memo.old }
    ensures answer { Tells bindings_in (Survivors (language_in language.now) (calls_in setting.now height)
        (tree_of t.now) (pattern_in pat.now) (extras_of extras.now)) result }
    ensures kept { IsMemoIn setting.now memo.new }
{
    let found = found_by(matcher, language, pat, t)?;
    extend(setting, matcher, memo, height, language, extras, found, t)
}

/// What the extras make of the bindings, one extra after the other, beside the whole term.
#[cycle(evaluation)]
#[inline(never)]
pub(crate) fn extend<M: Matcher, H: Host>(
    setting: &Setting<H>,
    matcher: &mut M,
    memo: &mut Memo,
    height: usize,
    language: &CheckedLang,
    extras: &[Extra],
    found: Vec<Binding>,
    whole: &Term,
) -> Result<Vec<Binding>, Stop>
    requires kept { IsMemoIn setting.now memo.old }
    ensures answer { Tells bindings_in (Extend (language_in language.now) (calls_in setting.now height)
        (avoiding (tree_of whole.now)) (extras_of extras.now) (bindings_in found)) result }
    ensures kept { IsMemoIn setting.now memo.new }
{
    let mut bs = found;
    for i in 0..extras.len() {
        let earlier = &extras[..i];
        let extra = &extras[i];
        bs = by_each(
            setting, matcher, memo, height, language, whole, earlier, extra, bs,
        )?;
    }
    Ok(bs)
}

// What an extra that stands behind the earlier ones makes of all bindings, ascending and each once.
#[cycle(evaluation)]
#[inline(never)]
fn by_each<M: Matcher, H: Host>(
    setting: &Setting<H>,
    matcher: &mut M,
    memo: &mut Memo,
    height: usize,
    language: &CheckedLang,
    whole: &Term,
    earlier: &[Extra],
    extra: &Extra,
    bs: Vec<Binding>,
) -> Result<Vec<Binding>, Stop>
    requires kept { IsMemoIn setting.now memo.old }
    ensures answer { Tells bindings_in (ByEach (language_in language.now) (calls_in setting.now height)
        (behind_all (avoiding (tree_of whole.now)) (extras_of earlier.now)) (extra_of extra.now)
        (bindings_in bs)) result }
    ensures kept { IsMemoIn setting.now memo.new }
{
    let found = match extra {
        Extra::Where(pat, template) => {
            where_each(setting, matcher, memo, height, language, pat, template, bs)?
        }
        Extra::Side(h) => side_each(setting, matcher, memo, height, h, bs)?,
        Extra::Holds(premise) => {
            premise_each(setting, matcher, memo, height, language, premise, bs)?
        }
        Extra::Fresh(name) => freshened_each(setting.alloc, whole, earlier, name, bs)?,
    };
    Ok(listed_bindings(setting.alloc, found)?)
}

// The joins of each binding with those by which the pattern matches what the template makes of it.
#[cycle(evaluation)]
#[inline(never)]
fn where_each<M: Matcher, H: Host>(
    setting: &Setting<H>,
    matcher: &mut M,
    memo: &mut Memo,
    height: usize,
    language: &CheckedLang,
    pat: &CheckedPat,
    template: &Template,
    bs: Vec<Binding>,
) -> Result<Vec<Binding>, Stop>
    requires kept { IsMemoIn setting.now memo.old }
    ensures answer { Tells bindings_in (Gather (WhereOne (language_in language.now)
        (calls_in setting.now height) (pattern_in pat.now) (template_of template.now))
        (bindings_in bs)) result }
    ensures kept { IsMemoIn setting.now memo.new }
{
    let mut found = Vec::new(setting.alloc);
    for binding in bs {
        let scope = Scope {
            setting: &*setting,
            height,
            b: &binding,
        };
        let t = make(&scope, matcher, memo, Next::Make(template))?;
        let mut more = matched(setting.alloc, language, matcher, pat, binding, t)?;
        found.append(&mut more)?;
    }
    Ok(found)
}

// The bindings of which the host expression does not make false.
#[cycle(evaluation)]
#[inline(never)]
fn side_each<M: Matcher, H: Host>(
    setting: &Setting<H>,
    matcher: &mut M,
    memo: &mut Memo,
    height: usize,
    h: &HostExpr,
    bs: Vec<Binding>,
) -> Result<Vec<Binding>, Stop>
    requires kept { IsMemoIn setting.now memo.old }
    ensures answer { Tells bindings_in (Gather (SideOne (calls_in setting.now height) (host_of h.now))
        (bindings_in bs)) result }
    ensures kept { IsMemoIn setting.now memo.new }
{
    let mut found = Vec::new(setting.alloc);
    for binding in bs {
        let scope = Scope {
            setting: &*setting,
            height,
            b: &binding,
        };
        let t = make(&scope, matcher, memo, Next::Host(h))?;
        let mut more = unless_false(setting.alloc, t, binding)?;
        found.append(&mut more)?;
    }
    Ok(found)
}

// What the premise makes of each binding.
#[cycle(evaluation)]
#[inline(never)]
fn premise_each<M: Matcher, H: Host>(
    setting: &Setting<H>,
    matcher: &mut M,
    memo: &mut Memo,
    height: usize,
    language: &CheckedLang,
    premise: &Premise,
    bs: Vec<Binding>,
) -> Result<Vec<Binding>, Stop>
    requires kept { IsMemoIn setting.now memo.old }
    ensures answer { Tells bindings_in (Gather (ByPremise (language_in language.now)
        (calls_in setting.now height) (premise_of premise.now)) (bindings_in bs)) result }
    ensures kept { IsMemoIn setting.now memo.new }
{
    let mut found = Vec::new(setting.alloc);
    for b in bs {
        let mut more = by_premise(setting, matcher, memo, height, language, premise, b)?;
        found.append(&mut more)?;
    }
    Ok(found)
}

/// What a premise makes of one binding.
#[cycle(evaluation)]
#[inline(never)]
pub(crate) fn by_premise<M: Matcher, H: Host>(
    setting: &Setting<H>,
    matcher: &mut M,
    memo: &mut Memo,
    height: usize,
    language: &CheckedLang,
    premise: &Premise,
    b: Binding,
) -> Result<Vec<Binding>, Stop>
    requires kept { IsMemoIn setting.now memo.old }
    ensures answer { Tells bindings_in (ByPremise (language_in language.now) (calls_in setting.now height)
        (premise_of premise.now) (binding_of b)) result }
    ensures kept { IsMemoIn setting.now memo.new }
{
    let scope = Scope {
        setting: &*setting,
        height,
        b: &b,
    };
    let ins = make_list(&scope, matcher, memo, &premise.ins)?;
    let found = judge(setting, matcher, memo, height, &premise.judgement, &ins)?;
    Ok(matched_each(setting.alloc, language, matcher, &premise.outs, b, &found)?)
}
