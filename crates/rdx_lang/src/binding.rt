// What names stand for.
ghost use Rattle.std.specs.Prelude.{◌≡◌, IfErr, IfNone, IfOk, IfSome, map};
ghost use Rattle.rdx_term.specs.View.{tree_of};
ghost use Rattle.rdx_lang.specs.Bindings.{HaveAscendingNames, AreSets};
ghost use Rattle.rdx_lang.specs.Model.AscendingProps.{HaveAscendingNames-prop, AreSets-prop};
ghost use Rattle.rdx_lang.specs.BindingView.{value_of, pairs_of, mismatches_of};

use rdx_term::{Name, NoMemory, Term};
use std::cmp::Ordering;

/// What a name stands for.
#[cycle(value)]
#[derive(Drop)]
pub enum Value {
    /// One term.
    One(Term),
    /// What it stands for in each turn of a repetition, in their order.
    Many(Vec<Value>),
    /// How many turns a repetition has.
    Len(usize),
}

impl Value {
    /// The same value.
    #[cycle(share_value)]
    pub fn share(&self) -> Result<Value, NoMemory>
        ensures { IfOk result (λ v. value_of v ≡ value_of self.now) }
    {
        match self {
            Value::One(t) => Ok(Value::One(t.share()?)),
            Value::Many(values) => Ok(Value::Many(share_values(values)?)),
            Value::Len(n) => Ok(Value::Len(*n)),
        }
    }
}

// The same values.
#[cycle(share_value)]
fn share_values(values: &Vec<Value>) -> Result<Vec<Value>, NoMemory>
    ensures { IfOk result (λ vs. map value_of vs.items ≡ map value_of values.now.items) }
{
    let mut shared = Vec::with_capacity(*values.allocator(), values.len())?;
    for value in values {
        shared.push(value.share()?)?;
    }
    Ok(shared)
}

// The same terms.
fn share_terms(terms: &Vec<Term>) -> Result<Vec<Term>, NoMemory>
    ensures { IfOk result (λ ts. map tree_of ts.items ≡ map tree_of terms.now.items) }
{
    let mut shared = Vec::with_capacity(*terms.allocator(), terms.len())?;
    for term in terms {
        shared.push(term.share()?)?;
    }
    Ok(shared)
}

// The same mismatch names with the same sets.
fn share_sets(differs: &Vec<(Name, Vec<Term>)>) -> Result<Vec<(Name, Vec<Term>)>, NoMemory>
    ensures { IfOk result (λ ms. mismatches_of ms.items ≡ mismatches_of differs.now.items) }
{
    let mut shared = Vec::with_capacity(*differs.allocator(), differs.len())?;
    for (name, terms) in differs {
        shared.push((name.share()?, share_terms(terms)?))?;
    }
    Ok(shared)
}

/// A finite map from names to values: pairs, strictly ascending by the bytes of the names. Beside it
/// one from mismatch names to sets of terms: the terms that were matched under each, strictly
/// ascending.
#[derive(Drop)]
pub struct Binding {
    pairs: Vec<(Name, Value)>,
    differs: Vec<(Name, Vec<Term>)>,
    pub ghost ascending: { HaveAscendingNames (pairs_of pairs.items) } by { HaveAscendingNames-prop _ },
    pub ghost sets: { AreSets (mismatches_of differs.items) } by { AreSets-prop _ },
}

impl Binding {
    ghost use Rattle.rdx_lang.specs.Bindings.{HasAscendingNames, of_pairs, name_cmp, one_name, value_at, IsValueAt};
    ghost use Rattle.rdx_lang.specs.BindingView.{found_value};
    ghost use Rattle.rdx_lang.specs.Inside.Places.{IsGapFor, IsNameAt};
    ghost use Rattle.rdx_lang.specs.Join.{IsJoin};
    ghost use Rattle.rdx_lang.specs.Shown.{binding_of};

    /// The binding of these pairs, without mismatch names.
    pub fn new(pairs: Vec<(Name, Value)>) -> Binding
        requires { HaveAscendingNames (pairs_of pairs.items) }
        ensures { binding_of result ≡ of_pairs (pairs_of pairs.items) }
    {
        let differs = Vec::new(*pairs.allocator());
        Binding { pairs, differs }
    }

    /// The binding of these pairs and of these mismatch names with their sets.
    pub fn with_differs(pairs: Vec<(Name, Value)>, differs: Vec<(Name, Vec<Term>)>) -> Binding
        requires pairs { HaveAscendingNames (pairs_of pairs.items) }
        requires differs { AreSets (mismatches_of differs.items) }
        ensures { binding_of result
            ≡ record { pairs = pairs_of pairs.items; differs = mismatches_of differs.items } }
    {
        Binding { pairs, differs }
    }

    /// The pairs, in the order of their names.
    pub fn pairs(&self) -> &[(Name, Value)]
        ensures value { pairs_of result.now ≡ (binding_of self.now).pairs }
        ensures ascending { HasAscendingNames (binding_of self.now) }
    {
        &self.pairs
    }

    /// The mismatch names, in their order, each with the set of the terms that were matched under it.
    pub fn differs(&self) -> &[(Name, Vec<Term>)]
        ensures value { mismatches_of result.now ≡ (binding_of self.now).differs }
        ensures sets { AreSets (mismatches_of result.now) }
    {
        &self.differs
    }

    // The place of the pair with this name; where there is none, the one that it would have.
    fn place(&self, name: &Name) -> Result<usize, usize>
        ensures there { IfOk result (IsNameAt self.now.pairs.items name.now) }
        ensures gap { IfErr result (IsGapFor self.now.pairs.items name.now) }
    {
        self.pairs.binary_search_by(
            |pair: &(Name, Value)| -> Ordering
                ensures { result ≡ name_cmp pair.now.0 name.entry.now }
            { pair.0.text().cmp(name.text()) },
        )
    }

    /// What the name stands for; `None` exactly where it isn't bound.
    pub fn get(&self, name: &Name) -> Option<&Value>
        ensures value { found_value result ≡ value_at (binding_of self.now) name.now }
        ensures bound { IsValueAt (binding_of self.now) name.now (found_value result) }
    {
        match self.place(name) {
            Ok(place) => Some(&self.pairs[place].1),
            Err(_) => None,
        }
    }

    /// The join of the binding with that of the name alone, bound to the value; `None` exactly where
    /// the name has another value, marks included.
    pub fn joined_with(self, name: &Name, value: &Value) -> Result<Option<Binding>, NoMemory>
        ensures some { IfOk result (λ r. IfSome r (λ joined. IsJoin (binding_of self)
            (one_name name.now (value_of value.now)) (binding_of joined))) }
        ensures none { IfOk result (λ r. IfNone r ((c : _) → ¬ IsJoin (binding_of self)
            (one_name name.now (value_of value.now)) c)) }
    {
        match self.place(name) {
            Ok(place) => match self.pairs[place].1.compare(value) {
                Ordering::Equal => Ok(Some(self)),
                Ordering::Less | Ordering::Greater => Ok(None),
            },
            Err(place) => {
                let mut pairs = self.pairs;
                pairs.insert(place, (name.share()?, value.share()?))?;
                Ok(Some(Binding {
                    pairs,
                    differs: self.differs,
                }))
            }
        }
    }

    // The same pairs.
    fn share_pairs(&self) -> Result<Vec<(Name, Value)>, NoMemory>
        ensures { IfOk result (λ ps. pairs_of ps.items ≡ (binding_of self.now).pairs) }
    {
        let mut pairs = Vec::with_capacity(*self.pairs.allocator(), self.pairs.len())?;
        for (name, value) in &self.pairs {
            pairs.push((name.share()?, value.share()?))?;
        }
        Ok(pairs)
    }

    /// The same binding.
    pub fn share(&self) -> Result<Binding, NoMemory>
        ensures { IfOk result (λ b. binding_of b ≡ binding_of self.now) }
    {
        let pairs = self.share_pairs()?;
        let differs = share_sets(&self.differs)?;
        Ok(Binding { pairs, differs })
    }
}
