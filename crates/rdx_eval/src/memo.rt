// The memo of calls. What is found in it is a fact by itself, and is compared with what is wanted
// before it is used.
ghost use Rattle.std.specs.Prelude.{◌≡◌, ◌↔◌, ◌⊎◌, [], IfOk, IsTrue, map};
ghost use Rattle.std.specs.Option.{IfSome};
ghost use Rattle.rdx_term.specs.View.{tree_of};
ghost use Rattle.rdx_lang.specs.Members.{In};
ghost use Rattle.rdx_eval.specs.Answers.{value as answer};
ghost use Rattle.rdx_eval.specs.Inside.Memos.{IfKept, IsKept, IsMemoIn};
ghost use Rattle.rdx_eval.specs.Inside.Scopes.{calls_in};
ghost use Rattle.rdx_eval.specs.Views.{terms_in};
ghost use Rattle.rdx_eval.specs.declared.kept.Kept.{Kept as KeptAnswer};

use crate::digest::{Sight, digest};
use crate::kept::{Answers, Kept, Memo, Sought};
use crate::scope::Setting;
use rdx_term::{Name, NoMemory, Term};
use std::alloc::Global;
use std::collections::HashMap;

// So many nodes may the answers that are kept have together, with their calls.
const FULL: usize = 1 << 20;

// For so many nodes an entry counts besides, for the memory that it takes by itself.
const ENTRY: usize = 8;

// No answers.
fn none<T>(alloc: Global) -> Answers<T>
    ensures { result.kept.items ≡ [] }
{
    Answers {
        kept: Vec::new(alloc),
        places: HashMap::new(alloc),
        nodes: 0,
    }
}

/// A memo in which nothing is kept.
pub(crate) fn empty(alloc: Global) -> Memo
    ensures values { result.values.kept.items ≡ [] }
    ensures outputs { result.outputs.kept.items ≡ [] }
{
    Memo {
        values: none(alloc),
        outputs: none(alloc),
    }
}

// The same name.
fn same_name(a: &Name, b: &Name) -> bool
    ensures { IsTrue result ↔ (a.now ≡ b.now) }
{
    a.text() == b.text()
}

// The answer of the call with this number, if one is kept that holds at the height.
fn find<'m, T>(
    answers: &'m Answers<T>,
    number: u64,
    height: usize,
    name: &Name,
    args: &Term,
) -> Option<&'m T>
    ensures { IfSome result (λ x. IsKept answers.now.kept.items height name.now (tree_of args.now)
        x.now) }
{
    let Some(place) = answers.places.get(&number) else {
        return None;
    };
    let Some(entry) = answers.kept.get(*place) else {
        return None;
    };
    if entry.height <= height && same_name(&entry.name, name) && entry.args.same(args) {
        return Some(&entry.answer);
    }
    None
}

// The answer of the call, if one is kept that holds at the height, or else the number to keep one
// under. Mostly a look at the arguments and their items tells calls apart. Where another call is kept
// under such a number, the whole arguments are looked at.
fn seek<'m, T>(answers: &'m Answers<T>, height: usize, name: &Name, args: &Term) -> Sought<&'m T>
    ensures { IfKept result (λ x. IsKept answers.now.kept.items height name.now (tree_of args.now)
        x.now) }
{
    let near = digest(Sight::near(), name, args);
    if let Some(found) = find(answers, near, height, name, args) {
        return Sought::Kept(found);
    }
    if !answers.places.contains_key(&near) {
        return Sought::Under(near);
    }
    let number = digest(Sight::whole(), name, args);
    match find(answers, number, height, name, args) {
        Some(found) => Sought::Kept(found),
        None => Sought::Under(number),
    }
}

// Forgets all answers, where with so many nodes more they would be too large.
fn make_room<T: Drop>(alloc: Global, answers: &mut Answers<T>, more: usize)
    ensures { (e : KeptAnswer T) → In e answers.new.kept.items → In e answers.old.kept.items }
{
    let nodes = answers.nodes.saturating_add(more);
    if nodes > FULL {
        *answers = none(alloc);
    } else {
        answers.nodes = nodes;
    }
}

// Keeps the answer under this number, in place of one that has it.
fn put<T: Drop>(answers: &mut Answers<T>, number: u64, entry: Kept<T>) -> Result<(), NoMemory>
    ensures { (e : KeptAnswer T) → In e answers.new.kept.items
        → In e answers.old.kept.items ⊎ (e ≡ entry) }
{
    if let Some(place) = answers.places.get(&number).copied() {
        if place < answers.kept.len() {
            answers.kept[place] = entry;
            return Ok(());
        }
    }
    answers.places.insert(number, answers.kept.len())?;
    answers.kept.push(entry)?;
    Ok(())
}

// The answer with its call.
fn entry_of<T: Drop>(
    name: &Name,
    args: &Term,
    height: usize,
    answer: T,
) -> Result<Kept<T>, NoMemory>
    ensures name { IfOk result (λ e. e.name ≡ name.now) }
    ensures args { IfOk result (λ e. tree_of e.args ≡ tree_of args.now) }
    ensures height { IfOk result (λ e. e.height ≡ height) }
    ensures answer { IfOk result (λ e. e.answer ≡ answer) }
{
    Ok(Kept {
        name: name.share()?,
        args: args.share()?,
        height,
        answer,
    })
}

// The same terms.
fn shared(alloc: Global, ts: &[Term]) -> Result<Vec<Term>, NoMemory>
    ensures { IfOk result (λ v. terms_in v ≡ map tree_of ts.now) }
{
    let mut found = Vec::with_capacity(alloc, ts.len())?;
    for t in ts {
        found.push(t.share()?)?;
    }
    Ok(found)
}

// How many nodes the terms have together.
fn nodes_of(ts: &[Term]) -> usize {
    let mut nodes: usize = 0;
    for t in ts {
        nodes = nodes.saturating_add(t.nodes() as usize);
    }
    nodes
}

/// The value of the metafunction, if one is kept that it has at the height.
pub(crate) fn kept_value<H>(
    _setting: &Setting<H>,
    memo: &Memo,
    height: usize,
    f: &Name,
    args: &Term,
) -> Result<Sought<Term>, NoMemory>
    requires { IsMemoIn _setting.now memo.now }
    ensures { IfOk result (λ r. IfKept r (λ t. (calls_in _setting.now height).value_of f.now
        (tree_of args.now) (answer (tree_of t)))) }
{
    match seek(&memo.values, height, f, args) {
        Sought::Kept(t) => Ok(Sought::Kept(t.share()?)),
        Sought::Under(number) => Ok(Sought::Under(number)),
    }
}

/// Keeps the value that the metafunction has at the height.
pub(crate) fn keep_value<H>(
    setting: &Setting<H>,
    memo: &mut Memo,
    number: u64,
    height: usize,
    f: &Name,
    args: &Term,
    value: &Term,
) -> Result<(), NoMemory>
    requires kept { IsMemoIn setting.now memo.old }
    requires value { (calls_in setting.now height).value_of f.now (tree_of args.now)
        (answer (tree_of value.now)) }
    ensures { IsMemoIn setting.now memo.new }
{
    let nodes = ENTRY.saturating_add(
        (args.nodes() as usize).saturating_add(value.nodes() as usize),
    );
    make_room(setting.alloc, &mut memo.values, nodes);
    let entry = entry_of(f, args, height, value.share()?)?;
    put(&mut memo.values, number, entry)
}

/// The outputs of the judgement, if some are kept that it has at the height.
pub(crate) fn kept_outputs<H>(
    setting: &Setting<H>,
    memo: &Memo,
    height: usize,
    j: &Name,
    ins: &Term,
) -> Result<Sought<Vec<Term>>, NoMemory>
    requires { IsMemoIn setting.now memo.now }
    ensures { IfOk result (λ r. IfKept r (λ ts. (calls_in setting.now height).outputs_of j.now
        (tree_of ins.now) (answer (terms_in ts)))) }
{
    match seek(&memo.outputs, height, j, ins) {
        Sought::Kept(ts) => Ok(Sought::Kept(shared(setting.alloc, ts)?)),
        Sought::Under(number) => Ok(Sought::Under(number)),
    }
}

/// Keeps the outputs that the judgement has at the height.
pub(crate) fn keep_outputs<H>(
    setting: &Setting<H>,
    memo: &mut Memo,
    number: u64,
    height: usize,
    j: &Name,
    ins: &Term,
    outputs: &[Term],
) -> Result<(), NoMemory>
    requires kept { IsMemoIn setting.now memo.old }
    requires outputs { (calls_in setting.now height).outputs_of j.now (tree_of ins.now)
        (answer (map tree_of outputs.now)) }
    ensures { IsMemoIn setting.now memo.new }
{
    let nodes = ENTRY.saturating_add((ins.nodes() as usize).saturating_add(nodes_of(outputs)));
    make_room(setting.alloc, &mut memo.outputs, nodes);
    let entry = entry_of(j, ins, height, shared(setting.alloc, outputs)?)?;
    put(&mut memo.outputs, number, entry)
}
