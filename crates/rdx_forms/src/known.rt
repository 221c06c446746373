// What is known where a form stands.
ghost use Rattle.std.specs.Prelude.{map};
ghost use Rattle.rdx_lang.specs.ProgramView.{program_of};
ghost use Rattle.rdx_forms.specs.Model.Tabled.{AreTabled, FindsFirsts};

use crate::tables::Tables;
use rdx_alpha::BindingForm;
use rdx_lang::Program;
use rdx_templates::Scope;
use rdx_term::Name;
use std::rc::RcStr;

/// What the whole file defines, and what the forms before a form define, with tables by which it is
/// found by name.
#[derive(Drop)]
pub struct Known {
    pub scope: Scope,
    /// The names of judgements with those of their languages, in the order of their forms. Of several
    /// with one name the first counts.
    pub languages: Vec<(Name, RcStr)>,
    /// The nonterminals to which the file asks for cross nonterminals.
    pub ends: Vec<Name>,
    pub program: Program,
    /// The binding forms of the languages of the whole file, under their names.
    pub forms: Vec<(Name, Vec<BindingForm>)>,
    pub(crate) tables: Tables,
    ghost tabled: { AreTabled tables (program_of program) },
    ghost asked: { FindsFirsts tables.asked (map (λ p. p.0) languages.items) },
}
