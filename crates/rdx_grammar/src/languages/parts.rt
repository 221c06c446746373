// The parts of definitions.
ghost use Rattle.std.specs.Prelude.{◌≡◌, ◌<◌, IfSome, length, option_map};
ghost use Rattle.rdx_grammar.specs.Inside.PartViews.{definition_of, around};
ghost use Rattle.rdx_grammar.specs.Definitions as model;

use rdx_patterns::shape::{are_symbols, is_symbol, is_word, items};
use rdx_sexp::{Datum, Form};

/// A definition of nonterminals: their names, and the alternatives that each of them has.
#[derive(Clone, Copy)]
pub(crate) struct Definition<'a> {
    pub(crate) names: &'a [Datum],
    pub(crate) alternatives: &'a [Datum],
}

// Where the first `::=` stands, if only symbols stand before it.
fn sign(items: &[Datum]) -> Option<usize>
    ensures parts { option_map (around items.now) result ≡ model.at_sign items.now }
    ensures within { IfSome result (λ i. i < length items.now) }
{
    for i in 0..items.len() {
        if is_word(&items[i], "::=") {
            return Some(i);
        }
        if !is_symbol(&items[i]) {
            return None;
        }
    }
    None
}

// With one alternative at least.
fn with_alternatives<'a>(names: &'a [Datum], alternatives: &'a [Datum]) -> Option<Definition<'a>>
    ensures { option_map definition_of result ≡ model.definition names.now alternatives.now }
{
    if alternatives.is_empty() {
        None
    } else {
        Some(Definition {
            names,
            alternatives,
        })
    }
}

// The definition of several names, all of them symbols.
fn named_all<'a>(names: &'a [Datum], alternatives: &'a [Datum]) -> Option<Definition<'a>>
    ensures { option_map definition_of result ≡ model.named_all names.now alternatives.now }
{
    match names {
        [] => None,
        [_, ..] => {
            if are_symbols(names) {
                with_alternatives(names, alternatives)
            } else {
                None
            }
        }
    }
}

/// The definition that a datum is, if it has the shape of one.
pub(crate) fn definition_in(d: &Datum) -> Option<Definition<'_>>
    ensures { option_map definition_of result ≡ model.definition_in d.now }
{
    let items = items(d)?;
    let [first, rest @ ..] = items else {
        return None;
    };
    match &first.form {
        Form::Sym(_) => match sign(rest) {
            Some(i) => with_alternatives(&items[..i + 1], &rest[i + 1..]),
            None => with_alternatives(&items[..1], rest),
        },
        Form::List(names) => named_all(names, rest),
        _ => None,
    }
}
