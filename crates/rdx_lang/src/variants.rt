// Names that are made up.
ghost use Rattle.std.specs.Prelude.{◌≡◌, ◌++◌, IfOk};
ghost use Rattle.std.specs.Fmt.{decimal};
ghost use Rattle.std.specs.Rc.{rc_str_bytes};
ghost use Rattle.rdx_lang.specs.Variants as model;
ghost use Rattle.rdx_lang.specs.Inside.Texts.{texts_in, HaveSame};

use rdx_term::{Name, NoMemory};
use std::alloc::Global;
use std::collections::BTreeSet;
use std::rc::RcStr;

// The text with a number behind it, and something between.
fn numbered(alloc: Global, text: &str, between: &str, number: usize) -> Result<RcStr, NoMemory>
    ensures { IfOk result (λ r. rc_str_bytes r ≡ text.now ++ between.now ++ decimal number) }
{
    let made = format!(in alloc; "{text}{between}{number}")?;
    Ok(RcStr::from_string(made)?)
}

// What stands between the name and a number.
fn before_number(alloc: Global, name: &Name) -> Result<&'static str, NoMemory>
    ensures { IfOk result (λ between. between.now ≡ model.before_number name.now) }
{
    match Name::new(numbered(alloc, name.text(), "", 1)?) {
        Some(_) => Ok(""),
        None => Ok("!"),
    }
}

/// The name itself for 0, and else the name with this number behind it, or with `!` and the number
/// where the name with a 1 would be no name.
pub fn variant(alloc: Global, name: &Name, number: usize) -> Result<Name, NoMemory>
    ensures { IfOk result (λ y. y ≡ model.variant name.now number) }
{
    if number == 0 {
        return name.share();
    }
    let between = before_number(alloc, name)?;
    match Name::new(numbered(alloc, name.text(), between, number)?) {
        Some(made) => Ok(made),
        None => unreachable!(),
    }
}

// The texts of these names, for looking names up.
fn texts<'a>(alloc: Global, names: &'a [Name]) -> Result<BTreeSet<&'a str>, NoMemory>
    ensures { IfOk result (λ set. HaveSame (texts_in set) names.now) }
{
    let mut set = BTreeSet::new(alloc);
    for name in names {
        set.insert(name.text())?;
    }
    Ok(set)
}

/// The first variant of the name that is none of these.
pub fn first_variant(alloc: Global, name: &Name, taken: &[Name]) -> Result<Name, NoMemory>
    ensures { IfOk result (λ y. y ≡ model.first_variant name.now taken.now) }
{
    let taken_texts = texts(alloc, taken)?;
    for number in 0..taken.len() {
        let made = variant(alloc, name, number)?;
        if !taken_texts.contains(made.text()) {
            return Ok(made);
        }
    }
    variant(alloc, name, taken.len())
}
