// Data with others in place of symbols.
ghost use Rattle.std.specs.Prelude.{◌≡◌, ◌+◌, ◌≤◌, false, IfNone, IfOk, IfSome, length, map};
ghost use Rattle.rdx_sexp.specs.Sexp.{sexps};
ghost use Rattle.rdx_sexp.specs.Size.{sexp_depth, sexps_depth};
ghost use Rattle.rdx_relations.specs.Inside.ShortcutViews.{shortcut_of, shortcuts_in};
ghost use Rattle.rdx_relations.specs.Inside.Filling as model;

use crate::shorthand::forms::Shortcut;
use crate::shorthand::room::{Room, Stock};
use rdx_patterns::shape::{is_word, text};
use rdx_sexp::{Datum, Form};
use rdx_term::NoMemory;
use std::alloc::Global;

/// Which part of a shortcut is filled.
#[derive(Clone, Copy)]
pub(crate) enum Side {
    OfPattern,
    OfResult,
}

// A part of the first of these shortcuts, in which its symbol stands for the second one, and so
// on; that of the last stands for the base.
#[derive(Clone, Copy)]
struct Spot<'a> {
    side: Side,
    layers: &'a [Shortcut<'a>],
    base: &'a Datum,
    datum: &'a Datum,
}

// The symbol that is replaced.
fn symbol_in<'a>(side: Side, shortcut: &Shortcut<'a>) -> &'a Datum
    ensures { result.now ≡ model.symbol_in side (shortcut_of shortcut.now) }
{
    match side {
        Side::OfPattern => shortcut.for_pattern,
        Side::OfResult => shortcut.for_result,
    }
}

// The datum in which it is.
fn whole_in<'a>(side: Side, shortcut: &Shortcut<'a>) -> &'a Datum
    ensures { result.now ≡ model.whole_in side (shortcut_of shortcut.now) }
{
    match side {
        Side::OfPattern => shortcut.pattern,
        Side::OfResult => shortcut.result,
    }
}

// Where the filling of these shortcuts begins.
fn outermost<'a>(side: Side, layers: &'a [Shortcut<'a>], base: &'a Datum) -> Spot<'a>
    ensures side { result.side ≡ side }
    ensures layers { result.layers.now ≡ layers.now }
    ensures base { result.base.now ≡ base.now }
    ensures datum { result.datum.now ≡ model.outermost side (shortcuts_in layers.now) base.now }
{
    let datum = match layers {
        [] => base,
        [shortcut, ..] => whole_in(side, shortcut),
    };
    Spot {
        side,
        layers,
        base,
        datum,
    }
}

// What is put in here, where the symbol stands here.
fn put_here<'a>(spot: Spot<'a>) -> Option<Spot<'a>>
    ensures less { IfSome result (λ next.
        length next.layers.now + 1 ≡ length spot.entry.layers.now) }
    ensures same { IfSome result (λ next. model.made_of next ≡ model.made_of spot.entry) }
    ensures none { IfNone result (model.is_replaced spot.entry.side
        (shortcuts_in spot.entry.layers.now) spot.entry.datum.now ≡ false) }
{
    let [shortcut, inner @ ..] = spot.layers else {
        return None;
    };
    if is_word(spot.datum, text(symbol_in(spot.side, shortcut))) {
        Some(outermost(spot.side, inner, spot.base))
    } else {
        None
    }
}

// The part that is put in here in the end, which is not replaced itself.
fn settled<'a>(stock: &mut Stock, spot: Spot<'a>) -> Result<Spot<'a>, NoMemory>
    ensures same { IfOk result (λ last. model.made_of last ≡ model.made_of spot.entry) }
    ensures settled { IfOk result (λ last. model.is_replaced last.side
        (shortcuts_in last.layers.now) last.datum.now ≡ false) }
{
    let mut spot = spot;
    while let Some(next) = put_here(spot) {
        stock.take()?;
        spot = next;
    }
    Ok(spot)
}

// A copy of the part, with what is put in for the symbol.
#[cycle(filling)]
#[inline(never)]
fn filled(alloc: Global, room: Room, stock: &mut Stock, spot: Spot<'_>) -> Result<Datum, NoMemory>
    ensures made { IfOk result (λ d. d ≡ model.made_of spot.entry) }
    ensures depth { IfOk result (λ d. sexp_depth d ≤ room.left) }
{
    stock.take()?;
    let spot = settled(stock, spot)?;
    let datum = spot.datum;
    let form = match &datum.form {
        Form::Int(n) => Form::Int(*n),
        Form::Bool(b) => Form::Bool(*b),
        Form::Str(text) => Form::Str(text.clone()?),
        Form::Sym(text) => Form::Sym(text.clone()?),
        Form::Key(text) => Form::Key(text.clone()?),
        Form::List(items) => Form::List(filled_items(alloc, room.inside()?, stock, spot, items)?),
    };
    Ok(Datum {
        form,
        span: datum.span,
    })
}

// Copies of these items of the part, in the same way.
#[cycle(filling)]
#[inline(never)]
fn filled_items(
    alloc: Global,
    room: Room,
    stock: &mut Stock,
    spot: Spot<'_>,
    items: &[Datum],
) -> Result<Vec<Datum>, NoMemory>
    ensures made { IfOk result (λ copies. copies.items ≡ map (model.filled spot.entry.side
        (shortcuts_in spot.entry.layers.now) spot.entry.base.now) items.now) }
    ensures depth { IfOk result (λ copies. sexps_depth (sexps copies.items) ≤ room.left) }
{
    let mut copies = Vec::new(alloc);
    for datum in items {
        copies.push(filled(alloc, room, stock, Spot { datum, ..spot })?)?;
    }
    Ok(copies)
}

/// A copy of the base, put into the last of these shortcuts, that into the one before it, and so
/// on.
pub(crate) fn put_into<'a>(
    alloc: Global,
    stock: &mut Stock,
    side: Side,
    layers: &'a [Shortcut<'a>],
    base: &'a Datum,
) -> Result<Datum, NoMemory>
    ensures made { IfOk result (λ d.
        d ≡ model.nested side (shortcuts_in layers.now) base.now) }
    ensures depth { IfOk result (λ d. sexp_depth d ≤ model.deepest) }
{
    filled(alloc, Room::whole(), stock, outermost(side, layers, base))
}

/// A copy of the datum.
pub(crate) fn copied(alloc: Global, stock: &mut Stock, d: &Datum) -> Result<Datum, NoMemory>
    ensures same { IfOk result (λ copy. copy ≡ d.now) }
    ensures depth { IfOk result (λ copy. sexp_depth copy ≤ model.deepest) }
{
    put_into(alloc, stock, Side::OfPattern, &[], d)
}
