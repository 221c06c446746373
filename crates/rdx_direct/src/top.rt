// What callers ask.
ghost use Rattle.std.specs.Prelude.{IfOk, IfSome};
ghost use Rattle.rdx_term.specs.View.{tree_of};
ghost use Rattle.rdx_lang.specs.Checked.{language_in, pattern_in};
ghost use Rattle.rdx_lang.specs.Listing.{Matches, Splits};
ghost use Rattle.rdx_lang.specs.Shown.{bindings_of, decompositions_of};

use crate::halt::Halt;
use crate::may::may;
use crate::room::{Fuel, Room};
use crate::splitting::listed;
use crate::walk::Walk;
use rdx_bind::combining::empty_where;
use rdx_bind::listing;
use rdx_bind::seen::all_visible;
use rdx_lang::{Binding, CheckedLang, CheckedPat, Split};
use rdx_term::{NoMemory, Term};
use std::alloc::Global;

/// The strictly ascending list of exactly the bindings by which the pattern matches the term; `None`
/// where the walk would go too deep, take too many steps, or meet what it leaves out. The places are
/// those of the language's nonterminals, for all that is known.
pub fn try_matches(
    alloc: Global,
    language: &CheckedLang,
    places: &[usize],
    pat: &CheckedPat,
    t: &Term,
) -> Result<Option<Vec<Binding>>, NoMemory>
    ensures { IfOk result (λ r. IfSome r (λ found. Matches (language_in language.now)
        (pattern_in pat.now) (tree_of t.now) (bindings_of found.items))) }
{
    if !may(language, pat.pat(), t) {
        return Ok(Some(Vec::new(alloc)));
    }
    let mut fuel = Fuel::new(t.nodes(), t.depth());
    let given = empty_where(alloc, true)?;
    let walk = Walk::new(alloc, language, places);
    match walk.go(pat.pat(), t, given, Room::whole(), &mut fuel) {
        Ok(found) => Ok(Some(listing(alloc, all_visible(alloc, found)?)?)),
        Err(Halt::Spent) => Ok(None),
        Err(Halt::NoMemory) => Err(NoMemory),
    }
}

/// The strictly ascending list of exactly the contexts and parts into which the pattern splits the
/// term, with their bindings; `None` where the walk would go too deep, take too many steps, or meet
/// what it leaves out.
pub fn try_splits(
    alloc: Global,
    language: &CheckedLang,
    places: &[usize],
    pat: &CheckedPat,
    t: &Term,
) -> Result<Option<Vec<Split>>, NoMemory>
    ensures { IfOk result (λ r. IfSome r (λ found. Splits (language_in language.now)
        (pattern_in pat.now) (tree_of t.now) (decompositions_of found.items))) }
{
    let mut fuel = Fuel::for_splits(t.nodes(), t.depth());
    let walk = Walk::new(alloc, language, places);
    let found = match walk.all_splits(pat.pat(), t, &mut fuel) {
        Ok(found) => found,
        Err(Halt::Spent) => return Ok(None),
        Err(Halt::NoMemory) => return Err(NoMemory),
    };
    Ok(Some(listed(alloc, found)?))
}
