// Single steps of generation. What waits for a term stands in a frame, and frames are kept in
// memory, so generation takes nothing of the machine's stack, however many nonterminals stand in
// one another.
ghost use Rattle.std.specs.Prelude.{◌≡◌, ◌<◌, ◌≤◌, ◌+◌, ◌*◌, ◌∷◌, IsTrue, [], ◌++◌, ℕ, IfOk, Ok};
ghost use Rattle.std.specs.Prelude.{Some, map, length};
ghost use Rattle.rdx_lang.specs.Lookup.{alternatives_of};
ghost use Rattle.rdx_lang.specs.PatternView.{pattern_of, patterns_of, slot_of, items_of, Slot};
ghost use Rattle.rdx_lang.specs.Patterns as patterns;
ghost use Rattle.rdx_term.specs.View.{tree_of};
ghost use Rattle.rdx_gen.specs.Heights.{term_height, place_heights};
ghost use Rattle.rdx_gen.specs.Inside.Frames.{IsStep, Leads, gives, item_then, list_gives, onward};
ghost use Rattle.rdx_gen.specs.Inside.Frames.{row_gives, spot_then, turns_then};
ghost use Rattle.rdx_gen.specs.Inside.Atoms as model;
ghost use Rattle.rdx_gen.specs.Inside.Scopes.{alternatives_there, known_here, pattern_there};
ghost use Rattle.rdx_gen.specs.Inside.Scopes.{term_here, context_here, inner_in, language_here};
ghost use Rattle.rdx_gen.specs.Inside.Scopes.{term_alternative, context_alternative};
ghost use Rattle.rdx_gen.specs.Inside.Weights.{frame_weight, items_weight, move_weight};
ghost use Rattle.rdx_gen.specs.Inside.Weights.{next_weight, patterns_weight, row_weight};
ghost use Rattle.rdx_gen.specs.Inside.Weights.{slot_weight, turns_weight, weight, weight_here};
ghost use Rattle.rdx_gen.specs.Inside.Weights.{weight_in};
ghost use Rattle.rdx_gen.specs.declared.frames.Frame.TheVariants.{Beside};
ghost use Rattle.rdx_gen.specs.Outcomes.{State as model_state};
ghost use Rattle.rdx_gen.specs.Views.{Says, state_of, terms_in};

use crate::atoms::{any_atom, any_of_kind, free_symbol};
use crate::choices::{chosen, one_of};
use crate::frames::{Frame, Move, Next, Row, Spot};
use crate::given::{had_term, keep_term};
use crate::known::Known;
use crate::made::{filled, listed, marked};
use crate::setting::{Scope, Setting};
use crate::state::State;
use crate::stop::Stop;
use rdx_lang::{Item, Pat, Ref};
use rdx_term::{Name, NoMemory, Term};

// ---- patterns

// Whether a term of the pattern needs no other.
fn is_atom(pat: &Pat) -> bool
    ensures { result ≡ model.is_atom (pattern_of pat.now) }
{
    match pat {
        Pat::Wild | Pat::Kind(_) | Pat::Except(_) | Pat::Prefix(_) | Pat::Hole | Pat::Lit(_) =>
            true,
        Pat::Nt(_)
        | Pat::Named(_, _)
        | Pat::Differ(_, _)
        | Pat::InHole(_, _)
        | Pat::HideHole(_)
        | Pat::Closed(_)
        | Pat::Seq(_) => false,
    }
}

// A term of a pattern that needs no other.
fn atom<'p>(
    setting: &'p Setting<'p>,
    _scope: Scope<'p>,
    pat: &Pat,
    state: &mut State,
) -> Result<Term, Stop>
    requires { IsTrue (model.is_atom (pattern_of pat.now)) }
    ensures { Says tree_of (term_here setting.now _scope.entry (pattern_of pat.now)
        (state_of state.old)) result (state_of state.new) }
{
    match pat {
        Pat::Wild => any_atom(setting.alloc, state, &setting.variables),
        Pat::Kind(kind) => {
            any_of_kind(
                setting.alloc,
                state,
                &setting.variables,
                &setting.unmentioned,
                *kind,
            )
        },
        Pat::Except(names) => free_symbol(setting.alloc, state, "", names),
        Pat::Prefix(prefix) => free_symbol(setting.alloc, state, prefix.text(), &[]),
        Pat::Hole => Ok(Term::Hole),
        Pat::Lit(t) => Ok(t.share()?),
        Pat::Nt(_)
        | Pat::Named(_, _)
        | Pat::Differ(_, _)
        | Pat::InHole(_, _)
        | Pat::HideHole(_)
        | Pat::Closed(_)
        | Pat::Seq(_) => unreachable!(),
    }
}

// The height of the pattern as a term.
fn height(setting: &Setting, pat: &Pat) -> Option<usize>
    ensures { result ≡ term_height (known_here setting.now) (pattern_of pat.now) }
{
    let known = Known {
        nonterminals: &setting.nonterminals,
        heights: &setting.heights,
    };
    known.term_height(pat)
}

// For each item of a list, the height of the list with the context at it.
fn heights_around(setting: &Setting, items: &[Item]) -> Result<Vec<Option<usize>>, NoMemory>
    ensures { IfOk result (λ v. v.items ≡ place_heights (known_here setting.now) (Some 0)
        (items_of (map slot_of items.now))) }
{
    let known = Known {
        nonterminals: &setting.nonterminals,
        heights: &setting.heights,
    };
    known.place_heights(setting.alloc, items)
}

// The pattern at this place among the alternatives of the nonterminal at that one.
fn alternative_at<'p>(setting: &'p Setting<'p>, place: usize, k: usize) -> Result<&'p Pat, NoMemory>
    requires { place < length (language_here setting.now).nonterminals }
    ensures there { IfOk result (λ p. pattern_of p.now ≡ pattern_there setting.now place k) }
    ensures less { (W : ℕ) → IfOk result (λ p. weight W (pattern_of p.now) ≤ patterns_weight W
        (alternatives_there setting.now place)) }
{
    let alternatives = &setting.nonterminals.language.language().nts[place].1;
    if k >= alternatives.len() {
        return Err(NoMemory);
    }
    Ok(&alternatives[k])
}

// An alternative of the nonterminal, for a term.
fn alternative<'p>(
    setting: &'p Setting<'p>,
    scope: Scope<'p>,
    name: &Ref,
    state: &mut State,
) -> Result<&'p Pat, Stop>
    ensures says { Says (λ p. pattern_of p.now)
        (term_alternative setting.now scope.entry name.now (state_of state.old)) result
        (state_of state.new) }
    ensures less { (W : ℕ) → IfOk result (λ p. weight W (pattern_of p.now)
        ≤ patterns_weight W (alternatives_of (language_here setting.now) name.now)) }
{
    let place = setting.nonterminals.place(name);
    if place >= setting.choices.len() {
        return Err(Stop::NoMemory);
    }
    let k = one_of(state, setting.choices[place].as_term.at(scope.size))?;
    Ok(alternative_at(setting, place, k)?)
}

// One for a context.
fn alternative_around<'p>(
    setting: &'p Setting<'p>,
    scope: Scope<'p>,
    name: &Ref,
    state: &mut State,
) -> Result<&'p Pat, Stop>
    ensures says { Says (λ p. pattern_of p.now)
        (context_alternative setting.now scope.entry name.now (state_of state.old)) result
        (state_of state.new) }
    ensures less { (W : ℕ) → IfOk result (λ p. weight W (pattern_of p.now)
        ≤ patterns_weight W (alternatives_of (language_here setting.now) name.now)) }
{
    let place = setting.nonterminals.place(name);
    if place >= setting.choices.len() {
        return Err(Stop::NoMemory);
    }
    let k = one_of(state, setting.choices[place].as_context.at(scope.size))?;
    Ok(alternative_at(setting, place, k)?)
}

// A term of an alternative of the nonterminal.
fn nonterminal<'p>(
    setting: &'p Setting<'p>,
    scope: Scope<'p>,
    name: &Ref,
    state: &mut State,
) -> Result<Move<'p>, Stop>
    ensures leads { Leads setting.now
        ((inner_in setting.now scope.entry).as_term name.now scope.entry.size
        (state_of state.old)) result (state_of state.new) }
    ensures less { IfOk result
        (λ m. move_weight setting.now m < weight_in setting.now scope.entry) }
{
    let inside = scope.inside()?;
    let pat = alternative(setting, scope, name, state)?;
    Ok(Move::Goes(Next::Term(inside, pat)))
}

// A context of one.
fn nonterminal_around<'p>(
    setting: &'p Setting<'p>,
    scope: Scope<'p>,
    name: &Ref,
    state: &mut State,
) -> Result<Move<'p>, Stop>
    ensures leads { Leads setting.now
        ((inner_in setting.now scope.entry).as_context name.now scope.entry.size
        (state_of state.old)) result (state_of state.new) }
    ensures less { IfOk result
        (λ m. move_weight setting.now m < weight_in setting.now scope.entry) }
{
    let inside = scope.inside()?;
    let pat = alternative_around(setting, scope, name, state)?;
    Ok(Move::Goes(Next::Context(inside, pat)))
}

// The term that a name has, or else one of its pattern.
fn named<'p>(
    _setting: &'p Setting<'p>,
    scope: Scope<'p>,
    name: &'p Name,
    inner: &'p Pat,
    state: &mut State,
) -> Result<Move<'p>, Stop>
    ensures leads { Leads _setting.now
        (term_here _setting.now scope.entry (patterns.named name.now (pattern_of inner.now))
        (state_of state.old)) result (state_of state.new) }
    ensures less { IfOk result
        (λ m. move_weight _setting.now m < weight_here _setting.now scope.entry
        (pattern_of inner.now) + 2) }
{
    if !scope.comes_again(name) {
        return Ok(Move::Goes(Next::Term(scope, inner)));
    }
    match had_term(state, name)? {
        Some(t) => Ok(Move::Goes(Next::Made(t))),
        None => Ok(Move::Waits(Frame::Keep(name), Next::Term(scope, inner))),
    }
}

// The first step of a term of a pattern that needs others.
fn begin<'p>(
    setting: &'p Setting<'p>,
    scope: Scope<'p>,
    pat: &'p Pat,
    state: &mut State,
) -> Result<Move<'p>, Stop>
    ensures leads { Leads setting.now (term_here setting.now scope.entry (pattern_of pat.now)
        (state_of state.old)) result (state_of state.new) }
    ensures less { IfOk result
        (λ m. move_weight setting.now m < weight_here setting.now scope.entry
        (pattern_of pat.now)) }
{
    match pat {
        Pat::Nt(name) => nonterminal(setting, scope, name, state),
        Pat::Named(name, inner) => named(setting, scope, name, inner, state),
        Pat::InHole(left, right) => {
            Ok(Move::Waits(Frame::Term(scope, right), Next::Context(scope, left)))
        }
        Pat::HideHole(inner) | Pat::Differ(_, inner) => Ok(Move::Goes(Next::Term(scope, inner))),
        Pat::Seq(items) => Ok(Move::Goes(Next::Row(Row {
            scope,
            spot: Spot::Nowhere,
            found: Vec::new(setting.alloc),
            rest: items,
        }))),
        Pat::Closed(_)
        | Pat::Wild
        | Pat::Kind(_)
        | Pat::Except(_)
        | Pat::Prefix(_)
        | Pat::Hole
        | Pat::Lit(_) => Err(Stop::NoMemory),
    }
}

// The first step of a term of a pattern.
fn term<'p>(
    setting: &'p Setting<'p>,
    scope: Scope<'p>,
    pat: &'p Pat,
    state: &mut State,
) -> Result<Move<'p>, Stop>
    ensures leads { Leads setting.now (term_here setting.now scope.entry (pattern_of pat.now)
        (state_of state.old)) result (state_of state.new) }
    ensures less { IfOk result
        (λ m. move_weight setting.now m < weight_here setting.now scope.entry
        (pattern_of pat.now)) }
{
    if is_atom(pat) {
        return Ok(Move::Goes(Next::Made(atom(setting, scope, pat, state)?)));
    }
    begin(setting, scope, pat, state)
}

// A list with a context of one of the items.
fn list_around<'p>(
    setting: &'p Setting<'p>,
    scope: Scope<'p>,
    items: &'p [Item],
    state: &mut State,
) -> Result<Move<'p>, Stop>
    ensures leads { Leads setting.now
        (context_here setting.now scope.entry (patterns.seq (items_of (map slot_of items.now)))
        (state_of state.old)) result (state_of state.new) }
    ensures less { IfOk result
        (λ m. move_weight setting.now m < items_weight (weight_in setting.now scope.entry)
        (items_of (map slot_of items.now)) + 2) }
{
    let heights = heights_around(setting, items)?;
    let k = chosen(setting.alloc, state, scope.size, &heights)?;
    Ok(Move::Goes(Next::Row(Row {
        scope,
        spot: Spot::Ahead(k),
        found: Vec::new(setting.alloc),
        rest: items,
    })))
}

// The first step of a context of a pattern.
fn context<'p>(
    setting: &'p Setting<'p>,
    scope: Scope<'p>,
    pat: &'p Pat,
    state: &mut State,
) -> Result<Move<'p>, Stop>
    ensures leads { Leads setting.now (context_here setting.now scope.entry (pattern_of pat.now)
        (state_of state.old)) result (state_of state.new) }
    ensures less { IfOk result
        (λ m. move_weight setting.now m < weight_here setting.now scope.entry
        (pattern_of pat.now)) }
{
    match pat {
        Pat::Wild
        | Pat::Kind(_)
        | Pat::Except(_)
        | Pat::Prefix(_)
        | Pat::Lit(_)
        | Pat::HideHole(_)
        | Pat::Closed(_) => Err(Stop::NoMemory),
        Pat::Hole => Ok(Move::Goes(Next::Made(Term::Hole))),
        Pat::Nt(name) => nonterminal_around(setting, scope, name, state),
        Pat::Named(_, inner) | Pat::Differ(_, inner) => {
            Ok(Move::Goes(Next::Context(scope, inner)))
        }
        Pat::InHole(left, right) => {
            Ok(Move::Waits(Frame::Context(scope, right), Next::Context(scope, left)))
        }
        Pat::Seq(items) => list_around(setting, scope, items, state),
    }
}

// ---- lists

// The row with one term more.
fn with_term<'p>(row: Row<'p>, t: Term) -> Result<Row<'p>, NoMemory>
    ensures scope { IfOk result (λ w. w.scope ≡ row.entry.scope) }
    ensures spot { IfOk result (λ w. w.spot ≡ row.entry.spot) }
    ensures found { IfOk result
        (λ w. terms_in w.found ≡ terms_in row.entry.found ++ tree_of t ∷ []) }
    ensures rest { IfOk result (λ w. w.rest ≡ row.entry.rest) }
{
    let mut found = row.found;
    found.push(t)?;
    Ok(Row {
        scope: row.scope,
        spot: row.spot,
        found,
        rest: row.rest,
    })
}

// So many terms of the pattern, before the rest of a list.
fn turns<'p>(_setting: &'p Setting<'p>, pat: &'p Pat, times: usize, row: Row<'p>) -> Move<'p>
    ensures leads { (s : model_state) → Leads _setting.now
        (turns_then _setting.now row.entry.scope (pattern_of pat.now) times
        (terms_in row.entry.found) s
        (λ more s'. row_gives _setting.now row.entry more s')) (Ok result) s }
    ensures less { move_weight _setting.now result
        < times * (weight_here _setting.now row.entry.scope (pattern_of pat.now) + 1) + row_weight
        _setting.now row.entry + 1 }
    ensures bound { move_weight _setting.now result
        < turns_weight (weight_here _setting.now row.entry.scope (pattern_of pat.now)) + row_weight
        _setting.now row.entry + 1 }
{
    if times == 0 {
        return Move::Goes(Next::Row(row));
    }
    let scope = row.scope;
    Move::Waits(Frame::Turn(pat, times - 1, row), Next::Term(scope, pat))
}

// A term of the item, or as many as it has, before the rest of a list.
fn item<'p>(
    setting: &'p Setting<'p>,
    item: &'p Item,
    row: Row<'p>,
    state: &mut State,
) -> Result<Move<'p>, Stop>
    ensures leads { Leads setting.now (item_then setting.now row.entry.scope row.entry.spot
        (items_of (map slot_of row.entry.rest.now))
        (slot_of item.now) (terms_in row.entry.found) (state_of state.old)) result
        (state_of state.new) }
    ensures less { IfOk result (λ m. move_weight setting.now m
        < slot_weight (weight_in setting.now row.entry.scope) (slot_of item.now) + row_weight
        setting.now row.entry) }
{
    let scope = row.scope;
    match item {
        Item::One(pat) => {
            if is_atom(pat) {
                let t = atom(setting, scope, pat, state)?;
                return Ok(Move::Goes(Next::Row(with_term(row, t)?)));
            }
            Ok(Move::Waits(Frame::Item(row), Next::Term(scope, pat)))
        }
        Item::Many(pat, length) => {
            let height = height(setting, pat);
            let times = scope.length_of(height, length, state)?;
            Ok(turns(setting, pat, times, row))
        }
    }
}

// A context of the item, and the terms beside it if that is a repetition, before the rest of a
// list.
fn spot<'p>(
    setting: &'p Setting<'p>,
    item: &'p Item,
    row: Row<'p>,
    state: &mut State,
) -> Result<Move<'p>, Stop>
    ensures leads { Leads setting.now
        (spot_then setting.now row.entry.scope (items_of (map slot_of row.entry.rest.now))
        (slot_of item.now)
        (terms_in row.entry.found) (state_of state.old)) result (state_of state.new) }
    ensures less { IfOk result
        (λ m. move_weight setting.now m < slot_weight (weight_in setting.now row.entry.scope)
        (slot_of item.now)
        + items_weight (weight_in setting.now row.entry.scope)
        (items_of (map slot_of row.entry.rest.now)) + 1) }
{
    let scope = row.scope;
    match item {
        Item::One(pat) => {
            let place = row.found.len();
            let row = Row {
                scope,
                spot: Spot::Behind(place),
                found: row.found,
                rest: row.rest,
            };
            Ok(Move::Waits(Frame::Item(row), Next::Context(scope, pat)))
        }
        Item::Many(pat, length) => {
            let height = height(setting, pat);
            let times = scope.new_length(height, length, state);
            let row = Row {
                scope,
                spot: Spot::Here(pat, length),
                found: row.found,
                rest: row.rest,
            };
            Ok(turns(setting, pat, times, row))
        }
    }
}

// The list of a row without items that are to come.
fn finish<'p>(setting: &'p Setting<'p>, row: Row<'p>, state: &mut State) -> Result<Move<'p>, Stop>
    ensures leads { Leads setting.now
        (list_gives setting.now row.entry.scope row.entry.spot patterns.nil
        (terms_in row.entry.found) (state_of state.old)) result (state_of state.new) }
    ensures less { IfOk result (λ m. move_weight setting.now m < 1) }
{
    match row.spot {
        Spot::Nowhere => Ok(Move::Goes(Next::Made(listed(setting.alloc, state, row.found)?))),
        Spot::Behind(k) => Ok(Move::Goes(Next::Made(marked(setting.alloc, state, row.found, k)?))),
        Spot::Ahead(_) | Spot::Here(_, _) => Err(Stop::NoMemory),
    }
}

// An item of a list, before the rest of it.
fn first_item<'p>(
    setting: &'p Setting<'p>,
    first: &'p Item,
    row: Row<'p>,
    state: &mut State,
) -> Result<Move<'p>, Stop>
    ensures leads { Leads setting.now (list_gives setting.now row.entry.scope row.entry.spot
        (items_of (slot_of first.now ∷ map slot_of row.entry.rest.now)) (terms_in row.entry.found)
        (state_of state.old))
        result (state_of state.new) }
    ensures less { IfOk result
        (λ m. move_weight setting.now m < items_weight (weight_in setting.now row.entry.scope)
        (items_of (slot_of first.now ∷ map slot_of row.entry.rest.now)) + 1) }
{
    match row.spot {
        Spot::Nowhere => item(setting, first, row, state),
        Spot::Behind(_) => item(setting, first, row, state),
        Spot::Ahead(k) => {
            if k == 0 {
                return spot(setting, first, row, state);
            }
            let row = Row {
                scope: row.scope,
                spot: Spot::Ahead(k - 1),
                found: row.found,
                rest: row.rest,
            };
            item(setting, first, row, state)
        }
        Spot::Here(_, _) => Err(Stop::NoMemory),
    }
}

// The rest of a list.
fn list<'p>(setting: &'p Setting<'p>, row: Row<'p>, state: &mut State) -> Result<Move<'p>, Stop>
    ensures leads { Leads setting.now (row_gives setting.now row.entry (terms_in row.entry.found)
        (state_of state.old)) result (state_of state.new) }
    ensures less { IfOk result (λ m. move_weight setting.now m < row_weight setting.now row.entry) }
{
    if let Spot::Here(pat, length) = row.spot {
        let scope = row.scope;
        return Ok(Move::Waits(Frame::Beside(pat, length, row), Next::Context(scope, pat)));
    }
    let Some((first, rest)) = row.rest.split_first() else {
        return finish(setting, row, state);
    };
    let row = Row {
        scope: row.scope,
        spot: row.spot,
        found: row.found,
        rest,
    };
    first_item(setting, first, row, state)
}

// ---- frames

// What comes behind the context of a list, which is one of the terms of a repetition.
fn beside<'p>(
    setting: &'p Setting<'p>,
    pat: &'p Pat,
    length: &'p Option<Name>,
    row: Row<'p>,
    t: Term,
    state: &mut State,
) -> Result<Move<'p>, Stop>
    ensures leads { Leads setting.now (onward setting.now (Beside pat.entry length.entry row.entry)
        (tree_of t) (state_of state.old)) result (state_of state.new) }
    ensures less { IfOk result (λ m. move_weight setting.now m < frame_weight setting.now
        (Beside pat.entry length.entry row.entry)) }
{
    let place = row.found.len();
    let height = height(setting, pat);
    let times = row.scope.new_length(height, length, state);
    let row = Row {
        scope: row.scope,
        spot: Spot::Behind(place),
        found: row.found,
        rest: row.rest,
    };
    let row = with_term(row, t)?;
    Ok(turns(setting, pat, times, row))
}

/// What the frame does with the term that was made for it.
pub(crate) fn resume<'p>(
    setting: &'p Setting<'p>,
    frame: Frame<'p>,
    t: Term,
    state: &mut State,
) -> Result<Move<'p>, Stop>
    ensures leads { Leads setting.now
        (onward setting.now frame.entry (tree_of t) (state_of state.old)) result
        (state_of state.new) }
    ensures less { IfOk result
        (λ m. move_weight setting.now m < frame_weight setting.now frame.entry) }
{
    match frame {
        Frame::Keep(name) => {
            keep_term(state, name, &t)?;
            Ok(Move::Goes(Next::Made(t)))
        }
        Frame::Term(scope, pat) => Ok(Move::Waits(Frame::Part(t), Next::Term(scope, pat))),
        Frame::Context(scope, pat) => Ok(Move::Waits(Frame::Part(t), Next::Context(scope, pat))),
        Frame::Part(context) => {
            Ok(Move::Goes(Next::Made(filled(setting.alloc, state, &context, &t)?)))
        }
        Frame::Item(row) => Ok(Move::Goes(Next::Row(with_term(row, t)?))),
        Frame::Turn(pat, left, row) => Ok(turns(setting, pat, left, with_term(row, t)?)),
        Frame::Beside(pat, length, row) => beside(setting, pat, length, row, t, state),
    }
}

/// The first step of what is done next, unless it was made.
pub(crate) fn step<'p>(
    setting: &'p Setting<'p>,
    next: Next<'p>,
    state: &mut State,
) -> Result<Move<'p>, Stop>
    requires { IsStep next }
    ensures leads { Leads setting.now (gives setting.now next.entry (state_of state.old)) result
        (state_of state.new) }
    ensures less { IfOk result
        (λ m. move_weight setting.now m < next_weight setting.now next.entry) }
{
    match next {
        Next::Term(scope, pat) => term(setting, scope, pat, state),
        Next::Context(scope, pat) => context(setting, scope, pat, state),
        Next::Row(row) => list(setting, row, state),
        Next::Made(_) => unreachable!(),
    }
}
