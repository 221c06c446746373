// The check for left recursion.
ghost use Rattle.std.specs.Prelude.{◌≡◌, ◌<◌, IfOk, IfErr, length};
ghost use Rattle.rdx_lang.specs.Edges.{IsFree};
ghost use Rattle.rdx_lang.specs.Empty.{TellsEmpty};
ghost use Rattle.rdx_lang.specs.PatternView.{language_of, ranks_of};
ghost use Rattle.rdx_lang.specs.Ranks.{AreRanks};
ghost use Rattle.rdx_lang.specs.WellFormed.{IsWellFormed};
ghost use Rattle.rdx_leftrec.specs.Recursion.{IsRecursionOf, IsNamed};
ghost use Rattle.rdx_leftrec.specs.Inside.EmptyRules.{empty_by};
ghost use Rattle.rdx_leftrec.specs.Inside.Language.{language_at};
ghost use Rattle.rdx_leftrec.specs.Inside.Leads.{targets_of};
ghost use Rattle.rdx_leftrec.specs.Inside.Components.{IsFirst};

use crate::components::Found;
use crate::edges::targets;
use crate::empty::empty_nonterminals;
use crate::nonterminals::Nonterminals;
use crate::ranks::ranks;
use rdx_lang::laws::ranks_fall;
use rdx_lang::{Language, Ranks, Ref};
use rdx_term::NoMemory;
use std::alloc::Global;

/// Why there are no ranks.
#[derive(Drop)]
pub enum LeftRec {
    /// The language is left-recursive, and this is the first nonterminal that reaches itself.
    LeftRecursive(Ref),
    /// Memory ran out.
    NoMemory,
}

impl From<NoMemory> for LeftRec {
    ghost use Rattle.std.specs.Prelude.{◌≡◌};
    ghost use Rattle.rdx_leftrec.specs.declared.recursion.LeftRec.TheVariants.{NoMemory};

    ghost from_gives = { λ _ error. error ≡ NoMemory };

    fn from(_error: NoMemory) -> LeftRec {
        LeftRec::NoMemory
    }
}

// The refusal that names the nonterminal at this place, the first that reaches itself.
fn refusal(nonterminals: &Nonterminals<'_>, empty: &[bool], place: usize) -> LeftRec
    requires well_formed { IsWellFormed (language_at nonterminals.now) }
    requires empty { TellsEmpty (language_at nonterminals.now)
        (empty_by (language_at nonterminals.now) empty.now) }
    requires first { IsFirst (targets_of
        (empty_by (language_at nonterminals.now) empty.now) (language_at nonterminals.now)) place }
    ensures { IsRecursionOf (language_at nonterminals.now) result }
{
    match nonterminals.language.nts[place].0.share() {
        Ok(name) => LeftRec::LeftRecursive(name),
        Err(_) => LeftRec::NoMemory,
    }
}

// Ranks for the language of these nonterminals, or the first one that reaches itself.
fn check_all(alloc: Global, nonterminals: &Nonterminals<'_>) -> Result<Ranks, LeftRec>
    requires { IsWellFormed (language_at nonterminals.now) }
    ensures ranks { IfOk result (λ r. AreRanks (language_at nonterminals.now) (ranks_of r)) }
    ensures free { IfOk result (λ r. IsFree (language_at nonterminals.now)) }
    ensures recursive { IfErr result (IsRecursionOf (language_at nonterminals.now)) }
    ensures exact { IsNamed (language_at nonterminals.now) result }
{
    ranks_fall();
    let empty = empty_nonterminals(alloc, nonterminals)?;
    let targets = targets(alloc, nonterminals, &empty)?;
    match Found::of(alloc, &targets)? {
        Found::Recursive(place) => Err(refusal(nonterminals, &empty, place)),
        Found::Numbers(falling) => Ok(ranks(alloc, nonterminals, &empty, &falling)?),
    }
}

/// Ranks that fall along every left edge of a well-formed language, or the first nonterminal, in
/// the order of definition, that reaches itself.
pub fn check(alloc: Global, language: &Language) -> Result<Ranks, LeftRec>
    requires { IsWellFormed (language_of language.now) }
    ensures ranks { IfOk result (λ r. AreRanks (language_of language.now) (ranks_of r)) }
    ensures free { IfOk result (λ r. IsFree (language_of language.now)) }
    ensures recursive { IfErr result (IsRecursionOf (language_of language.now)) }
    ensures exact { IsNamed (language_of language.now) result }
{
    let nonterminals = Nonterminals::new(alloc, language)?;
    check_all(alloc, &nonterminals)
}
