// The names that a rule binds.
ghost use Rattle.std.specs.Prelude.{◌≡◌, ◌++◌, IfOk, OnOk, map};
ghost use Rattle.rdx_lang.specs.Closures.{rule_names};
ghost use Rattle.rdx_lang.specs.Inside.Capped.{capped_uses, uses_in};
ghost use Rattle.rdx_lang.specs.ProgramView.{extra_of, extras_of, rule_of};
ghost use Rattle.rdx_lang.specs.Scopes as model;

use crate::uses::{Use, add_uses};
use crate::{Extra, Rule};
use rdx_term::{Name, NoMemory};
use std::alloc::Global;

// Adds the uses in an extra.
fn add_extra_uses<'a>(extra: &'a Extra, out: &mut Vec<Use<'a>>) -> Result<(), NoMemory>
    ensures { OnOk result (uses_in out.new.items
        ≡ uses_in out.old.items ++ capped_uses (model.extra_uses (extra_of extra.now))) }
{
    match extra {
        Extra::Where(pat, _) => add_uses(pat.pat(), 0, out),
        Extra::Side(_) => Ok(()),
        Extra::Holds(premise) => add_uses(premise.outs.pat(), 0, out),
        Extra::Fresh(name) => {
            out.push(Use {
                name,
                depth: 0,
                is_length: false,
            })?;
            Ok(())
        }
    }
}

// Adds the uses in extras, one after the other.
fn add_extras_uses<'a>(extras: &'a [Extra], out: &mut Vec<Use<'a>>) -> Result<(), NoMemory>
    ensures { OnOk result (uses_in out.new.items
        ≡ uses_in out.old.items ++ capped_uses (model.extras_uses (extras_of extras.now))) }
{
    for extra in extras {
        add_extra_uses(extra, out)?;
    }
    Ok(())
}

// The names of the uses, in their order.
fn names_of(alloc: Global, uses: &[Use<'_>]) -> Result<Vec<Name>, NoMemory>
    ensures { IfOk result (λ names. names.items ≡ map (λ u. u.name) (uses_in uses.now)) }
{
    let mut names = Vec::new(alloc);
    for one in uses {
        names.push(one.name.share()?)?;
    }
    Ok(names)
}

impl Rule {
    /// The names that the rule binds, in its pattern and its extras, length names too, in the order
    /// of binding, each as often as it is bound.
    pub fn names(&self, alloc: Global) -> Result<Vec<Name>, NoMemory>
        ensures { IfOk result (λ names. names.items ≡ rule_names (rule_of self.now)) }
    {
        let mut uses = Vec::new(alloc);
        add_uses(self.pattern.pat(), 0, &mut uses)?;
        add_extras_uses(&self.extras, &mut uses)?;
        names_of(alloc, &uses)
    }
}
