// The nonterminals that stand in patterns.
ghost use Rattle.std.specs.Prelude.{◌≡◌, ◌++◌, OnOk, map};
ghost use Rattle.rdx_lang.specs.PatternView.{pattern_of, patterns_of, slot_of, items_of};
ghost use Rattle.rdx_gen.specs.NameRules as model;
ghost use Rattle.rdx_gen.specs.Inside.Refs.{refs_in};

use rdx_lang::{Item, Pat, Ref};
use rdx_term::NoMemory;

/// Puts the nonterminals that stand in the pattern behind the others.
#[cycle(mentions)]
pub(crate) fn add_mentioned<'a>(pat: &'a Pat, out: &mut Vec<&'a Ref>) -> Result<(), NoMemory>
    ensures { OnOk result (refs_in out.new
        ≡ refs_in out.old ++ model.mentioned (pattern_of pat.now)) }
{
    match pat {
        Pat::Wild | Pat::Kind(_) | Pat::Except(_) | Pat::Prefix(_) | Pat::Hole | Pat::Lit(_) => Ok(
            (),
        ),
        Pat::Nt(name) => {
            out.push(name)?;
            Ok(())
        }
        Pat::Named(_, inner) | Pat::Differ(_, inner) | Pat::HideHole(inner) | Pat::Closed(inner) =>
            add_mentioned(inner, out),
        Pat::InHole(left, right) => {
            add_mentioned(left, out)?;
            add_mentioned(right, out)
        }
        Pat::Seq(items) => add_items_mentioned(items, out),
    }
}

// Puts those in the items behind the others.
#[cycle(mentions)]
fn add_items_mentioned<'a>(items: &'a [Item], out: &mut Vec<&'a Ref>) -> Result<(), NoMemory>
    ensures { OnOk result (refs_in out.new
        ≡ refs_in out.old ++ model.items_mentioned (items_of (map slot_of items.now))) }
{
    for item in items {
        let (Item::One(pat) | Item::Many(pat, _)) = item;
        add_mentioned(pat, out)?;
    }
    Ok(())
}

/// Puts those in the patterns behind the others.
pub(crate) fn add_all_mentioned<'a>(pats: &'a [Pat], out: &mut Vec<&'a Ref>) -> Result<(), NoMemory>
    ensures { OnOk result (refs_in out.new
        ≡ refs_in out.old ++ model.all_mentioned (patterns_of pats.now)) }
{
    for pat in pats {
        add_mentioned(pat, out)?;
    }
    Ok(())
}
