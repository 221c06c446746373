// The binding forms of languages, found by the names of these.
ghost use Rattle.std.specs.Prelude.{IfOk};
ghost use Rattle.rdx_answer.specs.Model.Found.{AreFoundIn};

use rdx_alpha::BindingForm;
use rdx_term::{Name, NoMemory};
use std::alloc::Global;
use std::collections::BTreeMap;

/// The binding forms of languages, and for each name the place of the first language that has it.
#[derive(Drop)]
pub(crate) struct FormTable<'a> {
    forms: &'a [(Name, Vec<BindingForm>)],
    places: BTreeMap<&'a str, usize>,
    ghost found: { AreFoundIn places forms.now },
}

// For each name the place of the first of these languages that has it.
fn places_of<'a>(
    alloc: Global,
    forms: &'a [(Name, Vec<BindingForm>)],
) -> Result<BTreeMap<&'a str, usize>, NoMemory>
    ensures { IfOk result (λ places. AreFoundIn places forms.now) }
{
    let mut places = BTreeMap::new(alloc);
    for place in (0..forms.len()).rev() {
        places.insert(forms[place].0.text(), place)?;
    }
    Ok(places)
}

impl<'a> FormTable<'a> {
    ghost use Rattle.std.specs.Prelude.{◌≡◌};
    ghost use Rattle.rdx_alpha.specs.View.{forms_of};
    ghost use Rattle.rdx_answer.specs.Bound.{forms_named};
    ghost use Rattle.rdx_answer.specs.Inside.Tabled.{forms_in};
    ghost use Rattle.rdx_answer.specs.Views.{bound_of};

    /// Those of these languages.
    pub(crate) fn new(
        alloc: Global,
        forms: &'a [(Name, Vec<BindingForm>)],
    ) -> Result<FormTable<'a>, NoMemory>
        ensures { IfOk result (λ table. forms_in table ≡ bound_of forms.now) }
    {
        let places = places_of(alloc, forms)?;
        Ok(FormTable { forms, places })
    }

    /// The binding forms of the first language of this name; none where no language has it.
    pub(crate) fn named(&self, name: &Name) -> &'a [BindingForm]
        ensures { forms_of result.now ≡ forms_named (forms_in self.now) name.now }
    {
        match self.places.get(name.text()) {
            Some(place) => &self.forms[*place].1,
            None => &[],
        }
    }
}
