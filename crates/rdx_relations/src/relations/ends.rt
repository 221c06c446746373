// The cross nonterminals that relations ask for.
ghost use Rattle.std.specs.Prelude.{◌≡◌, IfOk, OnErr, OnOk};
ghost use Rattle.rdx_lang.specs.Checked.{language_in};
ghost use Rattle.rdx_patterns.specs.Ends.{crossed_for};
ghost use Rattle.rdx_relations.specs.Inside.FormViews.{relation_form_of};
ghost use Rattle.rdx_relations.specs.RelationEnds as model;

use crate::relations::forms::{RelationForm, relation_form};
use crate::shorthand::expanding::expanded_cases;
use crate::shorthand::forms::cut_at_with;
use rdx_lang::CheckedLang;
use rdx_patterns::{add_crosses_for, add_ends};
use rdx_sexp::Datum;
use rdx_term::{Name, NoMemory};
use std::alloc::Global;

// Those for which a relation without shorthand with these parts asks.
fn expanded_ends(alloc: Global, form: RelationForm<'_>) -> Result<Vec<Name>, NoMemory>
    ensures { IfOk result (λ ends.
        ends.items ≡ model.expanded_ends (relation_form_of form.entry)) }
{
    let mut ends = Vec::new(alloc);
    if let Some(domain) = form.domain {
        add_ends(domain, &mut ends)?;
    }
    for d in form.cases {
        add_ends(d, &mut ends)?;
    }
    Ok(ends)
}

/// Gives the language the cross nonterminals for which a relation without shorthand with these parts
/// asks. Where there is no memory, it stays.
pub(crate) fn add_ends_of(
    alloc: Global,
    language: &mut CheckedLang,
    form: RelationForm<'_>,
) -> Result<(), NoMemory>
    ensures added { OnOk result (language_in language.new
        ≡ crossed_for (model.expanded_ends (relation_form_of form.entry))
        (language_in language.old)) }
    ensures same { OnErr result (language_in language.new ≡ language_in language.old) }
{
    let ends = expanded_ends(alloc, form)?;
    add_crosses_for(alloc, language, &ends)
}

/// The nonterminals to which a `reduction-relation` form asks for cross nonterminals, as they stand
/// in it without its shorthand.
pub fn relation_ends(alloc: Global, form: &Datum) -> Result<Vec<Name>, NoMemory>
    ensures { IfOk result (λ ends. ends.items ≡ model.relation_ends form.now) }
{
    let Some(parts) = relation_form(form) else {
        return Ok(Vec::new(alloc));
    };
    let cut = cut_at_with(parts.cases);
    if cut.shortcuts.is_empty() {
        let cases = cut.cases;
        return expanded_ends(alloc, RelationForm { cases, ..parts });
    }
    let expanded = expanded_cases(alloc, cut)?;
    let cases = &expanded;
    expanded_ends(alloc, RelationForm { cases, ..parts })
}
