// What a form does, by its head.
ghost use Rattle.std.specs.Prelude.{◌≡◌};
ghost use Rattle.rdx_forms.specs.FormKinds as forms;
ghost use Rattle.rdx_query.specs.Inside.KindViews.{kind_of};

use rdx_patterns::shape::items;
use rdx_sexp::{Datum, Form};

/// What a form defines.
#[derive(Clone, Copy, Debug, PartialEq, Eq)]
pub enum DefinitionKind {
    /// A language by itself: `define-language`.
    Language,
    /// A language that extends another: `define-extended-language`.
    Extension,
    /// A metafunction: `define-metafunction`.
    Metafunction,
    /// A judgement: `define-judgment-form`.
    Judgement,
    /// A relation: `define`.
    Relation,
}

/// What a form asks.
#[derive(Clone, Copy, Debug, PartialEq, Eq)]
pub enum QueryKind {
    /// The bindings by which a pattern matches a term: `redex-match`.
    Match,
    /// Whether there are some: `redex-match?`.
    Whether,
    /// What the pattern splits a term into: `redex-decompose`.
    Decompose,
    /// What a host expression makes: the form itself.
    Value,
    /// Whether a premise is met, or what a template makes of the bindings that meet it:
    /// `judgment-holds`.
    Holds,
    /// The terms to which a relation leads from a term: `apply-reduction-relation`.
    Reducts,
    /// The steps, with the names of their rules: `apply-reduction-relation/tag-with-names`.
    Tagged,
    /// A walk of steps: `stepper`.
    Stepper,
    /// A term generated of a pattern: `generate-term`.
    Generate,
    /// Whether a host expression makes `#f` for one of many: `redex-check`.
    Check,
    /// Whether two terms are alpha equivalent: `alpha-equivalent?`.
    Alike,
    /// A term with another put for a symbol in it: `substitute`.
    Put,
    /// Whether a test passes, or how many did.
    Test(TestKind),
}

/// What a test asks.
#[derive(Clone, Copy, Debug, PartialEq, Eq)]
pub enum TestKind {
    /// That two host expressions make the same: `test-equal`.
    Equal,
    /// The terms to which a relation leads in one step: `test-->`.
    Step,
    /// The term in which a run rests: `test-->>`.
    Run,
    /// That a pattern matches a term: `test-match`.
    Match,
    /// That it does not: `test-no-match`.
    NoMatch,
    /// That a premise is met: `test-judgment-holds`.
    Holds,
    /// How many tests passed and failed: `test-results`.
    Results,
}

/// What is passed over.
#[derive(Clone, Copy, Debug, PartialEq, Eq)]
pub enum PassedKind {
    /// The modules that a file wants: `require`.
    Wants,
    /// What it offers: `provide`.
    Offers,
}

/// What a form does.
#[derive(Clone, Copy, Debug, PartialEq, Eq)]
pub enum FormKind {
    /// It defines something.
    Defines(DefinitionKind),
    /// It asks something.
    Asks(QueryKind),
    /// It is passed over.
    Passes(PassedKind),
}

// The table of heads; what has another one is a host expression.
fn kind_by_text(head: &str) -> FormKind
    ensures { kind_of result ≡ forms.kind_in forms.heads head.now }
{
    match head {
        "define-language" => FormKind::Defines(DefinitionKind::Language),
        "define-extended-language" => FormKind::Defines(DefinitionKind::Extension),
        "define-metafunction" => FormKind::Defines(DefinitionKind::Metafunction),
        "define-judgment-form" => FormKind::Defines(DefinitionKind::Judgement),
        "define" => FormKind::Defines(DefinitionKind::Relation),
        "redex-match" => FormKind::Asks(QueryKind::Match),
        "redex-match?" => FormKind::Asks(QueryKind::Whether),
        "redex-decompose" => FormKind::Asks(QueryKind::Decompose),
        "judgment-holds" => FormKind::Asks(QueryKind::Holds),
        "apply-reduction-relation" => FormKind::Asks(QueryKind::Reducts),
        "apply-reduction-relation/tag-with-names" => FormKind::Asks(QueryKind::Tagged),
        "stepper" => FormKind::Asks(QueryKind::Stepper),
        "generate-term" => FormKind::Asks(QueryKind::Generate),
        "redex-check" => FormKind::Asks(QueryKind::Check),
        "alpha-equivalent?" => FormKind::Asks(QueryKind::Alike),
        "substitute" => FormKind::Asks(QueryKind::Put),
        "test-equal" => FormKind::Asks(QueryKind::Test(TestKind::Equal)),
        "test-->" => FormKind::Asks(QueryKind::Test(TestKind::Step)),
        "test-->>" => FormKind::Asks(QueryKind::Test(TestKind::Run)),
        "test-match" => FormKind::Asks(QueryKind::Test(TestKind::Match)),
        "test-no-match" => FormKind::Asks(QueryKind::Test(TestKind::NoMatch)),
        "test-judgment-holds" => FormKind::Asks(QueryKind::Test(TestKind::Holds)),
        "test-results" => FormKind::Asks(QueryKind::Test(TestKind::Results)),
        "require" => FormKind::Passes(PassedKind::Wants),
        "provide" => FormKind::Passes(PassedKind::Offers),
        _ => FormKind::Asks(QueryKind::Value),
    }
}

// What a form with this head does.
fn kind_by_head(head: &Datum) -> FormKind
    ensures { kind_of result ≡ forms.kind_by_head head.now }
{
    match &head.form {
        Form::Int(_) | Form::Bool(_) | Form::Str(_) | Form::Key(_) | Form::List(_) => {
            FormKind::Asks(QueryKind::Value)
        }
        Form::Sym(text) => kind_by_text(text.as_str()),
    }
}

/// What the form does.
pub(crate) fn form_kind(form: &Datum) -> FormKind
    ensures { kind_of result ≡ forms.form_kind form.now }
{
    match items(form) {
        Some([head, ..]) => kind_by_head(head),
        Some([]) | None => FormKind::Asks(QueryKind::Value),
    }
}
