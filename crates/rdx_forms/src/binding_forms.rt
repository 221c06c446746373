// The binding forms of the languages of a file.
ghost use Rattle.std.specs.Prelude.{◌≡◌, ◌++◌, ◌∷◌, [], List, IfOk, OnOk, map};
ghost use Rattle.rdx_alpha.specs.Forms.{Form};
ghost use Rattle.rdx_alpha.specs.View as views;
ghost use Rattle.rdx_alpha.specs.View.{form_of, forms_of};
ghost use Rattle.rdx_answer.specs.Bound.{forms_named};
ghost use Rattle.rdx_answer.specs.Views.{bound_of};
ghost use Rattle.rdx_lang.specs.Inside.Texts.{HaveSame, texts_in};
ghost use Rattle.rdx_patterns.specs.Readable.{IsReadable};
ghost use Rattle.rdx_patterns.specs.Reading.{name_in};
ghost use Rattle.rdx_forms.specs.BindingParts as model;
ghost use Rattle.rdx_forms.specs.Fitting.{AreReadable};
ghost use Rattle.rdx_forms.specs.FormKinds as kinds;
ghost use Rattle.rdx_forms.specs.FormKinds.{defines, form_kind};
ghost use Rattle.rdx_forms.specs.Inside.Binding.{headed_otherwise, heads_among, is_headed, name_or_none, IsFound};

use crate::parts::{base_name, second_item};
use crate::tables::add_text;
use rdx_alpha::{BPlace, BindingForm, read_forms};
use rdx_patterns::DefFault;
use rdx_patterns::shape::{is_word, items, symbol, text};
use rdx_sexp::Datum;
use rdx_term::{Name, NoMemory};
use std::alloc::Global;
use std::collections::{BTreeMap, BTreeSet};

/// The binding forms of languages, in their order, and the first place of each name among them.
#[derive(Drop)]
struct Found {
    forms: Vec<(Name, Vec<BindingForm>)>,
    firsts: BTreeMap<String, usize>,
}

// The binding forms that a form writes, where they are not refused.
fn forms_written(alloc: Global, form: &Datum) -> Result<Vec<BindingForm>, NoMemory>
    requires { IsReadable form.now }
    ensures { IfOk result (λ fs. forms_of fs.items ≡ model.forms_written form.now) }
{
    match read_forms(alloc, form) {
        Ok(forms) => Ok(forms),
        Err(DefFault::Refused(_)) => Ok(Vec::new(alloc)),
        Err(DefFault::NoMemory) => Err(NoMemory),
    }
}

// The place once more.
fn copy_place(alloc: Global, place: &BPlace) -> Result<BPlace, NoMemory>
    ensures { IfOk result (λ p. views.place_of p ≡ views.place_of place.now) }
{
    Ok(match place {
        BPlace::Binder => BPlace::Binder,
        BPlace::Binders => BPlace::Binders,
        BPlace::Plain => BPlace::Plain,
        BPlace::Body(numbers) => {
            let mut copied = Vec::with_capacity(alloc, numbers.len())?;
            copied.extend_from_slice(numbers)?;
            BPlace::Body(copied)
        }
    })
}

// The form once more.
fn copy_form(alloc: Global, form: &BindingForm) -> Result<BindingForm, NoMemory>
    ensures { IfOk result (λ f. form_of f ≡ form_of form.now) }
{
    let mut places = Vec::with_capacity(alloc, form.places.len())?;
    for place in &form.places {
        places.push(copy_place(alloc, place)?)?;
    }
    Ok(BindingForm {
        head: form.head.share()?,
        places,
    })
}

// The heads of forms, for looking them up.
fn heads_of(alloc: Global, forms: &[BindingForm]) -> Result<BTreeSet<&str>, NoMemory>
    ensures { IfOk result (λ heads. HaveSame (texts_in heads) (heads_among (forms_of forms.now))) }
{
    let mut heads = BTreeSet::new(alloc);
    for form in forms {
        heads.insert(form.head.text())?;
    }
    Ok(heads)
}

// Adds the form once more.
fn push_copy(
    alloc: Global,
    found: &mut Vec<BindingForm>,
    form: &BindingForm,
) -> Result<(), NoMemory>
    ensures { OnOk result (forms_of found.new.items
        ≡ forms_of found.old.items ++ form_of form.now ∷ []) }
{
    let copied = copy_form(alloc, form)?;
    found.push(copied)?;
    Ok(())
}

// Adds the form, unless its head is one of these.
fn add_other(
    alloc: Global,
    found: &mut Vec<BindingForm>,
    form: &BindingForm,
    heads: &BTreeSet<&str>,
) -> Result<(), NoMemory>
    ensures { OnOk result (forms_of found.new.items ≡ forms_of found.old.items
        ++ headed_otherwise (texts_in heads.now) (form_of form.now ∷ [])) }
{
    if heads.contains(form.head.text()) {
        Ok(())
    } else {
        push_copy(alloc, found, form)
    }
}

// Those of these forms whose heads are others.
#[tactic(auto, using(crate::proofs::FileForms::otherwise_split))]
fn other_forms(
    alloc: Global,
    heads: &BTreeSet<&str>,
    forms: &[BindingForm],
) -> Result<Vec<BindingForm>, NoMemory>
    ensures { IfOk result (λ found. forms_of found.items
        ≡ headed_otherwise (texts_in heads.now) (forms_of forms.now)) }
{
    let mut found = Vec::new(alloc);
    for form in forms {
        add_other(alloc, &mut found, form, heads)?;
    }
    Ok(found)
}

// Those of a language whose heads none of the forms has that are written.
fn inherited(
    alloc: Global,
    written: &[BindingForm],
    base: &[BindingForm],
) -> Result<Vec<BindingForm>, NoMemory>
    ensures { IfOk result (λ found. forms_of found.items
        ≡ model.without_heads (forms_of written.now) (forms_of base.now)) }
{
    let heads = heads_of(alloc, written)?;
    let found = other_forms(alloc, &heads, base)?;
    Ok(found)
}

// The binding forms of an extension that writes these, over a language with the others.
fn inherited_with(
    alloc: Global,
    written: Vec<BindingForm>,
    base: &[BindingForm],
) -> Result<Vec<BindingForm>, NoMemory>
    ensures { IfOk result (λ fs. forms_of fs.items
        ≡ model.inherited_with (forms_of written.items) (forms_of base.now)) }
{
    let mut found = inherited(alloc, written.as_slice(), base)?;
    let mut written = written;
    found.append(&mut written)?;
    Ok(found)
}

// The binding forms of the first language of this name, where there is one.
fn forms_at<'a>(found: &'a Found, name: &str) -> &'a [BindingForm]
    requires { IsFound found.now }
    ensures { forms_of result.now ≡ forms_named (bound_of found.now.forms.items) name.now }
{
    match found.firsts.get(name).copied() {
        Some(place) => found.forms[place].1.as_slice(),
        None => &[],
    }
}

// The binding forms of the language that an extension names.
fn base_forms<'a>(found: &'a Found, form: &Datum) -> &'a [BindingForm]
    requires { IsFound found.now }
    ensures { forms_of result.now ≡ model.base_at (bound_of found.now.forms.items) form.now }
{
    match base_name(form) {
        Some(base) => forms_at(found, text(base)),
        None => &[],
    }
}

// The name that a symbol is, where it is one.
fn name_by(written: &Datum) -> Result<Option<Name>, NoMemory>
    ensures { IfOk result (λ name. name_or_none name ≡ name_in written.now) }
{
    match symbol(written) {
        Some(text) => match Name::new(text.clone()?) {
            Some(name) => Ok(Some(name)),
            None => Ok(None),
        },
        None => Ok(None),
    }
}

// The name of the language that a form defines, where it has one.
fn name_of(form: &Datum) -> Result<Option<Name>, NoMemory>
    ensures { IfOk result (λ name. name_or_none name ≡ model.name_at form.now) }
{
    match second_item(form) {
        Some(written) => name_by(written),
        None => Ok(None),
    }
}

// Puts a language of this name with such binding forms behind the others.
fn push_named(
    alloc: Global,
    found: &mut Found,
    name: Name,
    forms: Vec<BindingForm>,
) -> Result<(), NoMemory>
    requires { IsFound found.old }
    ensures added { OnOk result (bound_of found.new.forms.items
        ≡ bound_of found.old.forms.items ++ (name, forms_of forms.items) ∷ []) }
    ensures found { OnOk result (IsFound found.new) }
{
    let place = found.forms.len();
    add_text(alloc, &mut found.firsts, name.text(), place)?;
    found.forms.push((name, forms))?;
    Ok(())
}

// Adds the binding forms of the language that a form defines, where it has a name.
fn add_named(
    alloc: Global,
    found: &mut Found,
    form: &Datum,
    forms: Vec<BindingForm>,
) -> Result<(), NoMemory>
    requires { IsFound found.old }
    ensures added { OnOk result (bound_of found.new.forms.items
        ≡ model.with_forms (bound_of found.old.forms.items) (model.name_at form.now)
        (forms_of forms.items)) }
    ensures found { OnOk result (IsFound found.new) }
{
    let name = name_of(form)?;
    match name {
        Some(name) => push_named(alloc, found, name, forms),
        None => Ok(()),
    }
}

// Whether the form is a list with this word as its head.
fn is_headed(form: &Datum, word: &str) -> bool
    ensures { result ≡ is_headed word.now form.now }
{
    match items(form) {
        Some([head, ..]) => is_word(head, word),
        Some([]) | None => false,
    }
}

// Adds those of a form that defines a language by itself.
fn add_language(alloc: Global, found: &mut Found, form: &Datum) -> Result<(), NoMemory>
    requires readable { IsReadable form.now }
    requires kind { form_kind form.now ≡ defines kinds.language }
    requires found { IsFound found.old }
    ensures added { OnOk result (bound_of found.new.forms.items
        ≡ model.bound_behind (bound_of found.old.forms.items) form.now (form_kind form.now)) }
    ensures found { OnOk result (IsFound found.new) }
{
    let written = forms_written(alloc, form)?;
    add_named(alloc, found, form, written)
}

// Adds those of a form that extends one.
fn add_extension(alloc: Global, found: &mut Found, form: &Datum) -> Result<(), NoMemory>
    requires readable { IsReadable form.now }
    requires kind { form_kind form.now ≡ defines kinds.extension }
    requires found { IsFound found.old }
    ensures added { OnOk result (bound_of found.new.forms.items
        ≡ model.bound_behind (bound_of found.old.forms.items) form.now (form_kind form.now)) }
    ensures found { OnOk result (IsFound found.new) }
{
    let written = forms_written(alloc, form)?;
    let forms = inherited_with(alloc, written, base_forms(found, form))?;
    add_named(alloc, found, form, forms)
}

// Adds the binding forms of the language that a form defines, if it does.
#[tactic(auto, using(crate::proofs::FileForms::language_headed, crate::proofs::FileForms::extension_headed, crate::proofs::FileForms::stays_behind))]
fn add_forms(alloc: Global, found: &mut Found, form: &Datum) -> Result<(), NoMemory>
    requires readable { IsReadable form.now }
    requires found { IsFound found.old }
    ensures added { OnOk result (bound_of found.new.forms.items
        ≡ model.bound_behind (bound_of found.old.forms.items) form.now (form_kind form.now)) }
    ensures found { OnOk result (IsFound found.new) }
{
    if is_headed(form, "define-language") {
        return add_language(alloc, found, form);
    }
    if is_headed(form, "define-extended-language") {
        return add_extension(alloc, found, form);
    }
    Ok(())
}

/// The binding forms of the languages that the forms of a file define, in their order; of a form that
/// is refused what it would mean does not matter.
pub(crate) fn file_forms(
    alloc: Global,
    forms: &[Datum],
) -> Result<Vec<(Name, Vec<BindingForm>)>, NoMemory>
    requires { AreReadable forms.now }
    ensures { IfOk result (λ found. bound_of found.items ≡ model.file_forms forms.now) }
{
    let mut found = Found {
        forms: Vec::new(alloc),
        firsts: BTreeMap::new(alloc),
    };
    for form in forms {
        add_forms(alloc, &mut found, form)?;
    }
    Ok(found.forms)
}
