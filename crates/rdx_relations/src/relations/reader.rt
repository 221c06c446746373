// Relations over languages.
ghost use Rattle.std.specs.Prelude.{◌≡◌, None, Some, false, codes, IfErr, IfOk, IsTrue, option_map};
ghost use Rattle.rdx_lang.specs.Checked.{language_in};
ghost use Rattle.rdx_lang.specs.ProgramView.{relation_of};
ghost use Rattle.rdx_lang.specs.Valid.{is_valid_over};
ghost use Rattle.rdx_patterns.specs.Ends.{Gained};
ghost use Rattle.rdx_patterns.specs.Nonterminals.{names_of};
ghost use Rattle.rdx_patterns.specs.Parts.{is_word, text_of};
ghost use Rattle.rdx_patterns.specs.Readable.{IsReadable};
ghost use Rattle.rdx_term.specs.Spelling.{is_name};
ghost use Rattle.rdx_relations.specs.Answers.{ReadsRelation};
ghost use Rattle.rdx_relations.specs.Inside.FormOutlines.{domain_patterns, relation_outline};
ghost use Rattle.rdx_relations.specs.Inside.ExpandedAnswers.{IsExpandedFault, ReadsExpanded, expanded_refusal};
ghost use Rattle.rdx_relations.specs.Inside.FormViews.{relation_form_of};
ghost use Rattle.rdx_parts.specs.PartViews.{outline_of};
ghost use Rattle.rdx_parts.specs.PartsHave.{AreReadable};
ghost use Rattle.rdx_relations.specs.RelationEnds.{expanded_ends, relation_ends};
ghost use Rattle.rdx_templates.specs.Scope.{callable, scope_of};

use crate::relations::ends::add_ends_of;
use crate::relations::forms::{RelationForm, relation_form};
use crate::relations::language::refuse_over;
use crate::relations::readings::read_parts;
use crate::relations::stands::{relation_outline, relation_stands};
use crate::shorthand::expanding::expanded_cases;
use crate::shorthand::forms::cut_at_with;
use rdx_lang::{CheckedLang, Relation};
use rdx_parts::branches::Outline;
use rdx_parts::stands::refusals::refuse_parts;
use rdx_patterns::refusal::unnamed;
use rdx_patterns::{DefFault, DefKind, Names};
use rdx_sexp::Datum;
use rdx_templates::Scope;
use rdx_term::Name;
use std::alloc::Global;

// The outline of a form without shorthand with these parts, which was written with these shortcuts,
// where no check refuses it.
fn passed_outline<'a>(
    alloc: Global,
    scope: &Scope,
    names: &Names,
    form: RelationForm<'a>,
    shortcuts: &'a [Datum],
) -> Result<Outline<'a, 'a>, DefFault>
    requires domain { AreReadable (domain_patterns (option_map (λ d. d.now) form.domain)) }
    requires cases { AreReadable form.cases.now }
    requires named { is_word (codes "hole") form.language.now ≡ false
        → IsTrue (is_name (text_of form.language.now)) }
    ensures passes { IfOk result (λ _.
        expanded_refusal (scope_of scope.now) names.now (relation_form_of form.entry)
        shortcuts.now ≡ None) }
    ensures outline { IfOk result (λ outline.
        outline_of outline ≡ relation_outline (relation_form_of form.entry)) }
    ensures refused { IfErr result (λ fault.
        IsExpandedFault (scope_of scope.now) names.now (relation_form_of form.entry)
        shortcuts.now fault) }
{
    let found = relation_stands(alloc, scope, form, shortcuts)?;
    let outline = relation_outline(alloc, form)?;
    let refusal = refuse_parts(alloc, scope, names, &found, &outline)?;
    if let Some(refusal) = refuse_over(alloc, form.language, refusal)? {
        return Err(DefFault::Refused(refusal));
    }
    Ok(outline)
}

// The relation of this name that a form without shorthand with these parts stands for, which was
// written with these shortcuts.
fn read_expanded<'a>(
    alloc: Global,
    scope: &Scope,
    language: &mut CheckedLang,
    names: &Names,
    name: &Name,
    form: RelationForm<'a>,
    shortcuts: &'a [Datum],
) -> Result<Relation, DefFault>
    requires domain { AreReadable (domain_patterns (option_map (λ d. d.now) form.domain)) }
    requires cases { AreReadable form.cases.now }
    requires names { names.now ≡ names_of (language_in language.old) }
    requires named { is_word (codes "hole") form.language.now ≡ false
        → IsTrue (is_name (text_of form.language.now)) }
    ensures reads { ReadsExpanded (scope_of scope.now) (names_of (language_in language.old))
        name.now (relation_form_of form.entry) shortcuts.now result }
    ensures gains { Gained (language_in language.old)
        (expanded_ends (relation_form_of form.entry)) result (language_in language.new) }
    ensures valid { IfOk result (λ r.
        IsTrue (is_valid_over (callable (scope_of scope.now))
        (Some (language_in language.new)) (relation_of r))) }
{
    let outline = passed_outline(alloc, scope, names, form, shortcuts)?;
    add_ends_of(alloc, language, form)?;
    Ok(read_parts(alloc, scope, language, names, name, form, &outline)?)
}

/// As [`read_relation`], over a language with nonterminals of these names.
pub fn read_relation_over(
    alloc: Global,
    scope: &Scope,
    language: &mut CheckedLang,
    names: &Names,
    name: &Name,
    form: &Datum,
) -> Result<Relation, DefFault>
    requires readable { IsReadable form.now }
    requires names { names.now ≡ names_of (language_in language.old) }
    ensures reads { ReadsRelation (scope_of scope.now) (names_of (language_in language.old))
        name.now form.now result }
    ensures gains { Gained (language_in language.old) (relation_ends form.now) result
        (language_in language.new) }
    ensures valid { IfOk result (λ r.
        IsTrue (is_valid_over (callable (scope_of scope.now))
        (Some (language_in language.new)) (relation_of r))) }
{
    let Some(parts) = relation_form(form) else {
        return Err(DefFault::Refused(unnamed(DefKind::Shape, form)));
    };
    let cut = cut_at_with(parts.cases);
    if cut.shortcuts.is_empty() {
        let cases = cut.cases;
        let plain = RelationForm { cases, ..parts };
        return read_expanded(alloc, scope, language, names, name, plain, cut.shortcuts);
    }
    let expanded = expanded_cases(alloc, cut)?;
    let cases = &expanded;
    let plain = RelationForm { cases, ..parts };
    read_expanded(alloc, scope, language, names, name, plain, cut.shortcuts)
}

/// The relation of this name that a `reduction-relation` form stands for over a language, whatever
/// the name of that is. Cases whose arrows shortcuts define are read as what they stand for.
pub fn read_relation(
    alloc: Global,
    scope: &Scope,
    language: &mut CheckedLang,
    name: &Name,
    form: &Datum,
) -> Result<Relation, DefFault>
    requires { IsReadable form.now }
    ensures reads { ReadsRelation (scope_of scope.now) (names_of (language_in language.old))
        name.now form.now result }
    ensures gains { Gained (language_in language.old) (relation_ends form.now) result
        (language_in language.new) }
    ensures valid { IfOk result (λ r.
        IsTrue (is_valid_over (callable (scope_of scope.now))
        (Some (language_in language.new)) (relation_of r))) }
{
    let names = Names::of_language(alloc, language)?;
    read_relation_over(alloc, scope, language, &names, name, form)
}
