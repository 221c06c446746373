//! Choices of one binding of each of several rows.
ghost use Rattle.std.specs.Prelude.{◌≡◌, ◌++◌, ◌∷◌, [], IfOk, OnOk};
ghost use Rattle.rdx_lang.specs.Collecting.{Adds, Arises, HasExactly};
ghost use Rattle.rdx_lang.specs.Shown.{binding_of, bindings_of};
ghost use Rattle.rdx_bind.specs.Choices.{IsContinued, IsLonger};
ghost use Rattle.rdx_bind.specs.Combining.{rows_of};
ghost use Rattle.rdx_bind.specs.Rows.{all_matches, split_rows_of};

use crate::rows::Row;
use rdx_lang::Binding;
use rdx_term::NoMemory;
use std::alloc::Global;

/// The list with no binding, alone.
pub fn no_choice(alloc: Global) -> Result<Vec<Vec<Binding>>, NoMemory>
    ensures { IfOk result (λ lists. rows_of lists.items ≡ [] ∷ []) }
{
    let mut lists = Vec::with_capacity(alloc, 1)?;
    lists.push(Vec::new(alloc))?;
    Ok(lists)
}

// The list with the binding behind it.
fn with_last(alloc: Global, list: &[Binding], last: &Binding) -> Result<Vec<Binding>, NoMemory>
    ensures { IfOk result (λ longer. bindings_of longer.items
        ≡ bindings_of list.now ++ binding_of last.now ∷ []) }
{
    let mut longer = Vec::new(alloc);
    for binding in list {
        longer.push(binding.share()?)?;
    }
    longer.push(last.share()?)?;
    Ok(longer)
}

// Adds the list with one of the row's bindings behind it, for each of them.
fn add_copies(
    alloc: Global,
    list: &[Binding],
    row: &[Binding],
    found: &mut Vec<Vec<Binding>>,
) -> Result<(), NoMemory>
    ensures { OnOk result (Adds (IsLonger (bindings_of row.now) (bindings_of list.now))
        (rows_of found.old.items) (rows_of found.new.items)) }
{
    for last in row {
        let longer = with_last(alloc, list, last)?;
        found.push(longer)?;
    }
    Ok(())
}

// The same. The list is copied for all bindings but one.
fn add_longer(
    alloc: Global,
    list: Vec<Binding>,
    row: &[Binding],
    found: &mut Vec<Vec<Binding>>,
) -> Result<(), NoMemory>
    ensures { OnOk result (Adds (IsLonger (bindings_of row.now) (bindings_of list.items))
        (rows_of found.old.items) (rows_of found.new.items)) }
{
    let Some((first, others)) = row.split_first() else {
        return Ok(());
    };
    add_copies(alloc, &list, others, found)?;
    let mut longer = list;
    longer.push(first.share()?)?;
    found.push(longer)?;
    Ok(())
}

/// Each of the lists with each of the row's bindings behind it.
pub fn with_one_of(
    alloc: Global,
    lists: Vec<Vec<Binding>>,
    row: &[Binding],
) -> Result<Vec<Vec<Binding>>, NoMemory>
    ensures { IfOk result (λ found. HasExactly (rows_of found.items)
        (Arises (IsLonger (bindings_of row.now)) (rows_of lists.items))) }
{
    let mut rest = lists;
    let mut found = Vec::new(alloc);
    while let Some(list) = rest.pop() {
        add_longer(alloc, list, row, &mut found)?;
    }
    Ok(found)
}

/// Each of the lists with one match of each of the cells behind it, in all ways.
pub fn with_matches(
    alloc: Global,
    lists: Vec<Vec<Binding>>,
    cells: &[Row],
) -> Result<Vec<Vec<Binding>>, NoMemory>
    ensures { IfOk result (λ found. HasExactly (rows_of found.items)
        (Arises (IsContinued (all_matches (split_rows_of cells.now))) (rows_of lists.items))) }
{
    let mut found = lists;
    for cell in cells {
        found = with_one_of(alloc, found, &cell.matches)?;
    }
    Ok(found)
}
