// Calls of metafunctions and of judgements: as they are kept, or by clauses and rules, one height lower.
ghost use Rattle.std.specs.Prelude.{◌≤◌, length, map};
ghost use Rattle.rdx_term.specs.View.{tree_of};
ghost use Rattle.rdx_lang.specs.Checked.{language_in};
ghost use Rattle.rdx_lang.specs.ProgramView.{clauses_of, judgement_rules_of};
ghost use Rattle.rdx_lang.specs.Shown.{bindings_of};
ghost use Rattle.rdx_lang.specs.TemplateView.{template_of};
ghost use Rattle.rdx_eval.specs.Inside.Asked.{pattern_found};
ghost use Rattle.rdx_eval.specs.Inside.Memos.{IsMemoIn};
ghost use Rattle.rdx_eval.specs.Inside.Scopes.{calls_in};
ghost use Rattle.rdx_eval.specs.Inside.Stops.{Tells};
ghost use Rattle.rdx_eval.specs.Judgements.{OutputLists, Rules};
ghost use Rattle.rdx_eval.specs.Metafunctions.{Clauses, Results};
ghost use Rattle.rdx_eval.specs.Views.{terms_in};

use crate::Side;
use crate::asking::{ask, in_pattern, out_pattern};
use crate::evaluation::extras::survivors;
use crate::evaluation::{make, make_list};
use crate::frames::Next;
use crate::host::Host;
use crate::kept::{Memo, Sought};
use crate::memo::{keep_outputs, keep_value, kept_outputs, kept_value};
use crate::scope::{Scope, Setting};
use crate::stop::Stop;
use crate::stopping::{spent, undefined};
use crate::values::{ascending, one_of};
use rdx_lang::{Binding, CheckedLang, CheckedPat, Clause, JRule, Matcher, Template};
use rdx_term::{Name, Term};

/// The value of the metafunction of this name for the list of arguments: as it is kept, or anew.
#[cycle(evaluation)]
#[inline(never)]
pub(crate) fn call<M: Matcher, H: Host>(
    setting: &Setting<H>,
    matcher: &mut M,
    memo: &mut Memo,
    height: usize,
    f: &Name,
    args: &Term,
) -> Result<Term, Stop>
    requires kept { IsMemoIn setting.now memo.old }
    ensures answer { Tells tree_of ((calls_in setting.now height).value_of f.now (tree_of args.now))
        result }
    ensures kept { IsMemoIn setting.now memo.new }
{
    let number = match kept_value(setting, memo, height, f, args)? {
        Sought::Kept(t) => return Ok(t),
        Sought::Under(number) => number,
    };
    let t = value(setting, matcher, memo, height, f, args)?;
    keep_value(setting, memo, number, height, f, args, &t)?;
    Ok(t)
}

// The value of the metafunction of this name for the list of arguments, which match its contract,
// where it has one.
#[cycle(evaluation)]
#[inline(never)]
fn value<M: Matcher, H: Host>(
    setting: &Setting<H>,
    matcher: &mut M,
    memo: &mut Memo,
    height: usize,
    f: &Name,
    args: &Term,
) -> Result<Term, Stop>
    requires kept { IsMemoIn setting.now memo.old }
    ensures answer { Tells tree_of ((calls_in setting.now height).value_of f.now (tree_of args.now))
        result }
    ensures kept { IsMemoIn setting.now memo.new }
{
    if height == 0 {
        return Err(spent(setting.alloc, f)?);
    }
    let Some(metafunction) = setting.names.metafunction_named(setting.program, f) else {
        return Err(undefined(setting.alloc, f, args)?);
    };
    let Some(language) = setting
        .names
        .language_named(setting.program, &metafunction.language)
    else {
        return Err(undefined(setting.alloc, f, args)?);
    };
    let ins = in_pattern(&metafunction.contract);
    ask(setting.alloc, matcher, language, ins, f, Side::In, args)?;
    let clauses = metafunction.clauses.as_slice();
    let t = by_clauses(
        setting,
        matcher,
        memo,
        height - 1,
        language,
        clauses,
        f,
        args,
    )?;
    let outs = out_pattern(&metafunction.contract);
    ask(setting.alloc, matcher, language, outs, f, Side::Out, &t)?;
    Ok(t)
}

// What the clauses of a metafunction make of the arguments: the first that takes them decides.
#[cycle(evaluation)]
#[inline(never)]
fn by_clauses<M: Matcher, H: Host>(
    setting: &Setting<H>,
    matcher: &mut M,
    memo: &mut Memo,
    height: usize,
    language: &CheckedLang,
    clauses: &[Clause],
    f: &Name,
    args: &Term,
) -> Result<Term, Stop>
    requires kept { IsMemoIn setting.now memo.old }
    ensures answer { Tells tree_of (Clauses (language_in language.now) (calls_in setting.now height)
        f.now (tree_of args.now) (clauses_of clauses.now)) result }
    ensures kept { IsMemoIn setting.now memo.new }
{
    for clause in clauses {
        let bs = survivors(
            setting,
            matcher,
            memo,
            height,
            language,
            &clause.args,
            &clause.extras,
            args,
        )?;
        if !bs.is_empty() {
            return result_of(setting, matcher, memo, height, f, args, &clause.result, &bs);
        }
    }
    Err(undefined(setting.alloc, f, args)?)
}

// The one value that the result of a clause has for all these bindings, which are some.
#[cycle(evaluation)]
#[inline(never)]
fn result_of<'x, 'n, M: Matcher, H: Host>(
    setting: &'x Setting<'x, 'n, H>,
    matcher: &mut M,
    memo: &mut Memo,
    height: usize,
    f: &Name,
    args: &Term,
    template: &Template,
    bs: &'x [Binding],
) -> Result<Term, Stop>
    requires kept { IsMemoIn setting.now memo.old }
    requires some { 1 ≤ length bs.now }
    ensures answer { Tells tree_of (Results (calls_in setting.now height) f.now (tree_of args.now)
        (template_of template.now) (bindings_of bs.now)) result }
    ensures kept { IsMemoIn setting.now memo.new }
{
    let mut found = Vec::new(setting.alloc);
    for b in bs {
        let scope = Scope { setting, height, b };
        let t = make(&scope, matcher, memo, Next::Make(template))?;
        found.push(t)?;
    }
    one_of(setting.alloc, f, args, found)
}

/// The lists of outputs of the judgement of this name for the list of inputs, ascending and each
/// once: as they are kept, or anew.
#[cycle(evaluation)]
#[inline(never)]
pub(crate) fn judge<M: Matcher, H: Host>(
    setting: &Setting<H>,
    matcher: &mut M,
    memo: &mut Memo,
    height: usize,
    j: &Name,
    ins: &Term,
) -> Result<Vec<Term>, Stop>
    requires kept { IsMemoIn setting.now memo.old }
    ensures answer { Tells terms_in ((calls_in setting.now height).outputs_of j.now (tree_of ins.now))
        result }
    ensures kept { IsMemoIn setting.now memo.new }
{
    let number = match kept_outputs(setting, memo, height, j, ins)? {
        Sought::Kept(ts) => return Ok(ts),
        Sought::Under(number) => number,
    };
    let ts = outputs(setting, matcher, memo, height, j, ins)?;
    keep_outputs(setting, memo, number, height, j, ins, &ts)?;
    Ok(ts)
}

// The lists of outputs of the judgement of this name for the list of inputs, ascending and each
// once.
#[cycle(evaluation)]
#[inline(never)]
fn outputs<M: Matcher, H: Host>(
    setting: &Setting<H>,
    matcher: &mut M,
    memo: &mut Memo,
    height: usize,
    j: &Name,
    ins: &Term,
) -> Result<Vec<Term>, Stop>
    requires kept { IsMemoIn setting.now memo.old }
    ensures answer { Tells terms_in ((calls_in setting.now height).outputs_of j.now (tree_of ins.now))
        result }
    ensures kept { IsMemoIn setting.now memo.new }
{
    if height == 0 {
        return Err(spent(setting.alloc, j)?);
    }
    let Some(judgement) = setting.names.judgement_named(setting.program, j) else {
        return Ok(Vec::new(setting.alloc));
    };
    let Some(language) = setting
        .names
        .language_named(setting.program, &judgement.language)
    else {
        return Ok(Vec::new(setting.alloc));
    };
    let asked = in_pattern(&judgement.contract);
    ask(setting.alloc, matcher, language, asked, j, Side::In, ins)?;
    let outs = out_pattern(&judgement.contract);
    let rules = judgement.rules.as_slice();
    let left = height - 1;
    by_rules(setting, matcher, memo, left, language, outs, rules, j, ins)
}

// The lists of outputs that the rules of a judgement make of the inputs, ascending and each once;
// each has to match the pattern, where there is one.
#[cycle(evaluation)]
#[inline(never)]
fn by_rules<M: Matcher, H: Host>(
    setting: &Setting<H>,
    matcher: &mut M,
    memo: &mut Memo,
    height: usize,
    language: &CheckedLang,
    asked: Option<&CheckedPat>,
    rules: &[JRule],
    j: &Name,
    ins: &Term,
) -> Result<Vec<Term>, Stop>
    requires kept { IsMemoIn setting.now memo.old }
    ensures answer { Tells terms_in (Rules (language_in language.now) (calls_in setting.now height)
        j.now (pattern_found asked.entry) (tree_of ins.now) (judgement_rules_of rules.now)) result }
    ensures kept { IsMemoIn setting.now memo.new }
{
    let mut found = Vec::new(setting.alloc);
    for rule in rules {
        let bs = survivors(
            setting,
            matcher,
            memo,
            height,
            language,
            &rule.ins,
            &rule.extras,
            ins,
        )?;
        let mut more = output_lists(
            setting, matcher, memo, height, language, asked, j, &rule.outs, &bs,
        )?;
        found.append(&mut more)?;
    }
    Ok(ascending(setting.alloc, found)?)
}

// The lists that the outputs of a rule make of all these bindings, in their order; each has to match
// the pattern, where there is one.
#[cycle(evaluation)]
#[inline(never)]
fn output_lists<'x, 'n, M: Matcher, H: Host>(
    setting: &'x Setting<'x, 'n, H>,
    matcher: &mut M,
    memo: &mut Memo,
    height: usize,
    language: &CheckedLang,
    asked: Option<&CheckedPat>,
    j: &Name,
    templates: &[Template],
    bs: &'x [Binding],
) -> Result<Vec<Term>, Stop>
    requires kept { IsMemoIn setting.now memo.old }
    ensures answer { Tells terms_in (OutputLists (language_in language.now)
        (calls_in setting.now height) j.now (pattern_found asked.entry)
        (map template_of templates.now) (bindings_of bs.now)) result }
    ensures kept { IsMemoIn setting.now memo.new }
{
    let mut found = Vec::new(setting.alloc);
    for binding in bs {
        let scope = Scope {
            setting,
            height,
            b: binding,
        };
        let t = make_list(&scope, matcher, memo, templates)?;
        ask(setting.alloc, matcher, language, asked, j, Side::Out, &t)?;
        found.push(t)?;
    }
    Ok(found)
}
