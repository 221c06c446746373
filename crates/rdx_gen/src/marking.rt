// Marks of places, and lists of the places that were marked.
ghost use Rattle.std.specs.Prelude.{◌≡◌, ◌<◌, ℕ, false, IfOk, OnOk, length, replicate, slice_index_or, slice_set};
ghost use Rattle.rdx_lang.specs.Members.{In};
ghost use Rattle.rdx_gen.specs.Inside.Waiting.{AreListed, IsMarked, Marks};

use rdx_term::NoMemory;
use std::alloc::Global;

/// No marks, for so many places.
pub(crate) fn no_marks(alloc: Global, size: usize) -> Result<Vec<bool>, NoMemory>
    ensures { IfOk result (λ v. v.items ≡ replicate size false) }
{
    Ok(vec![in alloc; false; size]?)
}

/// Marks a place and lists it, unless it is marked.
pub(crate) fn mark(
    place: usize,
    marks: &mut Vec<bool>,
    listed: &mut Vec<usize>,
) -> Result<(), NoMemory>
    ensures { OnOk result (Marks (λ j. j ≡ place) marks.old.items marks.new.items
        listed.old.items listed.new.items) }
{
    if place < marks.len() && !marks[place] {
        marks[place] = true;
        listed.push(place)?;
    }
    Ok(())
}

/// Marks these places.
pub(crate) fn mark_all(
    places: &[usize],
    marks: &mut Vec<bool>,
    listed: &mut Vec<usize>,
) -> Result<(), NoMemory>
    ensures { OnOk result (Marks (λ j. In j places.now) marks.old.items marks.new.items
        listed.old.items listed.new.items) }
{
    for place in places {
        mark(*place, marks, listed)?;
    }
    Ok(())
}

// Takes the mark of this place away.
fn clear(place: usize, marks: &mut Vec<bool>)
    ensures { marks.new.items ≡ slice_set marks.old.items place false }
{
    if place < marks.len() {
        marks[place] = false;
    }
}

/// Takes the marks of these places away, which are all that there are.
pub(crate) fn unmark(places: &[usize], marks: &mut Vec<bool>)
    requires { AreListed marks.old.items places.now }
    ensures size { length marks.new.items ≡ length marks.old.items }
    ensures none { (j : ℕ) → slice_index_or marks.new.items j false ≡ false }
{
    for place in places {
        clear(*place, marks);
    }
}
