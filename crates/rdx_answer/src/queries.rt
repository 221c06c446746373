// What a file that was accepted defines and asks.
use rdx_alpha::BindingForm;
use rdx_lang::{CheckedPat, HostExpr, Premise, Program, Template};
use rdx_term::Name;

/// What a file asks.
#[derive(Drop)]
pub enum Query {
    /// The bindings by which the pattern matches a term, in the language of this name.
    Match(Name, CheckedPat, HostExpr),
    /// Whether there are some.
    Whether(Name, CheckedPat, HostExpr),
    /// What the pattern splits the term into.
    Decompose(Name, CheckedPat, HostExpr),
    /// The term itself.
    Value(HostExpr),
    /// Whether the premise is met, or what the template makes of each binding that meets it.
    Holds(Premise, Option<Template>),
    /// The terms to which the relation of this name leads from the term.
    Reducts(Name, HostExpr),
    /// The steps that it takes from the term, each with the name of its rule.
    Tagged(Name, HostExpr),
    /// The terms at which one comes from the term by the choices with which the file is run.
    Stepper(Name, HostExpr),
    /// A term generated of the pattern with this size, in the language of this name, from the words of
    /// the seed.
    Generate(Name, CheckedPat, u32, u64),
    /// Whether the host expression makes `#f` for a binding by which the pattern matches one of so many
    /// terms generated of it, in the language of this name, from the words of the seed.
    Check(Name, CheckedPat, HostExpr, u32, u64),
    /// Whether two terms are alpha equivalent under the binding forms of the language of this name.
    Alpha(Name, HostExpr, HostExpr),
    /// The first term with the third put for the symbol that is the second, under the binding forms of
    /// the language of this name.
    Substitute(Name, HostExpr, HostExpr, HostExpr),
    /// A test that two host expressions make the same, marks forgotten.
    TestEqual(HostExpr, HostExpr),
    /// A test that the terms to which the relation of this name leads from the term are those that
    /// the others make.
    TestStep(Name, HostExpr, Vec<HostExpr>),
    /// A test that the run from the term ends in the one that the others make.
    TestRun(Name, HostExpr, Vec<HostExpr>),
    /// A test that the pattern matches the term, or that it does not, in the language of this name.
    TestMatch(Name, CheckedPat, HostExpr, bool),
    /// A test that the premise is met.
    TestHolds(Premise),
    /// How many tests passed and failed since this was asked last.
    TestResults,
}

/// A file that was accepted.
#[derive(Drop)]
pub struct CheckedFile {
    pub program: Program,
    /// The queries, in the file's order.
    pub queries: Vec<Query>,
    /// The binding forms of each language, under its name.
    pub forms: Vec<(Name, Vec<BindingForm>)>,
}
