// The names that are bound where a template stands.
ghost use Rattle.std.specs.Prelude.{◌≡◌, IfSome, IsTrue, option_to_list};
ghost use Rattle.rdx_term.specs.Spelling.{is_name};
ghost use Rattle.rdx_templates.specs.Bound as model;

use rdx_term::{Name, NoMemory};
use std::alloc::Global;
use std::collections::BTreeMap;
use std::marker::Model;

// So many names behind the first one are looked through one by one: mostly there are no more, and
// then no map is made.
const FEW: usize = 8;

/// Names with their depths, in the order of binding, which are found by their texts. In contracts
/// they are the list.
#[derive(Drop)]
pub struct Bound<'a> {
    // The first one, which is mostly the only one, so that no vector is made for it.
    first: Option<(Name, u32)>,
    more: Vec<(Name, u32)>,
    // The depth that each text has first among those behind the few.
    depths: BTreeMap<&'a str, u32>,
}

impl<'a> Model for Bound<'a> {
    ghost use Rattle.std.specs.Prelude.{◌++◌, List, ℕ, drop, option_to_list};
    ghost use Rattle.rdx_templates.specs.Model.Depths.{FindsDepths, few};

    ghost Value = { List (List ℕ × ℕ) };

    ghost view = { λ a. option_to_list a.first ++ a.more.items };

    ghost invariant = { λ a. FindsDepths (drop few a.more.items) a.depths };
}

// The depth of the one name that there may be, where the text is this name.
fn depth_at(pair: &Option<(Name, u32)>, text: &str) -> Option<u32>
    ensures depth { result ≡ model.depth_of (option_to_list pair.now) text.now }
    ensures name { IfSome result (λ _. IsTrue (is_name text.now)) }
{
    let Some((name, depth)) = pair else {
        return None;
    };
    if name.text() == text {
        Some(*depth)
    } else {
        None
    }
}

// The depth that a text has first among these, which then is a name.
fn depth_among(pairs: &[(Name, u32)], text: &str) -> Option<u32>
    ensures depth { result ≡ model.depth_of pairs.now text.now }
    ensures name { IfSome result (λ _. IsTrue (is_name text.now)) }
{
    for (name, depth) in pairs {
        if name.text() == text {
            return Some(*depth);
        }
    }
    None
}

impl<'a> Bound<'a> {
    ghost use Rattle.std.specs.Prelude.{◌++◌, ◌∷◌, [], IfOk};

    /// No names.
    pub fn new(alloc: Global) -> Bound<'a>
        ensures { result ≡ [] }
    {
        Bound {
            first: None,
            more: Vec::new(alloc),
            depths: BTreeMap::new(alloc),
        }
    }

    /// These names.
    pub fn of(alloc: Global, pairs: &'a [(Name, u32)]) -> Result<Bound<'a>, NoMemory>
        ensures { IfOk result (λ bound. bound ≡ pairs.now) }
    {
        let mut bound = Bound::new(alloc);
        for (name, depth) in pairs {
            bound.push(name.text(), (name.share()?, *depth))?;
        }
        Ok(bound)
    }

    /// Adds a name of this text with its depth, behind the others.
    pub fn push(&mut self, text: &'a str, entry: (Name, u32)) -> Result<(), NoMemory>
        requires { entry.0 ≡ text.now }
        ensures { IfOk result (λ _. self.new ≡ self.old ++ entry ∷ []) }
    {
        if self.first.is_none() && self.more.is_empty() {
            self.first = Some(entry);
            return Ok(());
        }
        if self.more.len() < FEW {
            self.more.push(entry)?;
            return Ok(());
        }
        let depth = entry.1;
        let is_known = self.depths.contains_key(entry.0.text());
        self.more.push(entry)?;
        if is_known {
            return Ok(());
        }
        if self.depths.insert(text, depth).is_err() {
            self.more.pop();
            return Err(NoMemory);
        }
        Ok(())
    }

    /// The depth with which a text is bound, which then is a name: the depth that it has first.
    pub fn depth_of(&self, text: &str) -> Option<u32>
        ensures depth { result ≡ model.depth_of self.now text.now }
        ensures name { IfSome result (λ _. IsTrue (is_name text.now)) }
    {
        if let Some(depth) = depth_at(&self.first, text) {
            return Some(depth);
        }
        let few = self.more.len().min(FEW);
        if let Some(depth) = depth_among(&self.more[..few], text) {
            return Some(depth);
        }
        self.depths.get(text).copied()
    }
}
