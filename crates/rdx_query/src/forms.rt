// One form of a file.
ghost use Rattle.std.specs.Prelude.{◌≡◌, OnOk, map};
ghost use Rattle.rdx_patterns.specs.Among.{AreAmong};
ghost use Rattle.rdx_patterns.specs.Readable.{IsReadable};
ghost use Rattle.rdx_forms.specs.Ends.{form_ends};
ghost use Rattle.rdx_forms.specs.FormKinds as forms;
ghost use Rattle.rdx_forms.specs.Fitting.{AreCrossed, IsFitting};
ghost use Rattle.rdx_query.specs.Inside.KindViews.{definition_kind_of, passed_kind_of, query_kind_of, test_kind_of};
ghost use Rattle.rdx_forms.specs.KnownView.{known_of};
ghost use Rattle.rdx_query.specs.Inside.Steps.{AddsBy, AsksQuery, PassesBy, StepsBy};
ghost use Rattle.rdx_answer.specs.Views.{query_of};

use crate::Query;
use crate::kind::{DefinitionKind, FormKind, PassedKind, QueryKind, TestKind, form_kind};
use rdx_defs::ReadPremise;
use rdx_forms::{
    Alike, Asked, Checking, Generating, Known, Leading, Putting, Same, Stepping, add_judgement,
    add_language, add_metafunction, add_relation, check_results, check_wants, define_extension,
    define_judgement, define_language, define_metafunction, define_relation, read_alike,
    read_check, read_equal, read_generate, read_holds, read_holds_test, read_leading, read_put,
    read_query, read_steps, read_unbound,
};
use rdx_patterns::DefFault;
use rdx_sexp::Datum;
use std::alloc::Global;

// Adds what a form of this kind defines.
fn define(
    alloc: Global,
    known: &mut Known,
    kind: DefinitionKind,
    form: &Datum,
) -> Result<(), DefFault>
    requires readable { IsReadable form.now }
    requires kind { forms.form_kind form.now ≡ forms.defines (definition_kind_of kind) }
    requires fitting { IsFitting (known_of known.old) }
    requires ends { AreAmong (form_ends form.now) (known_of known.old).ends }
    ensures adds { AddsBy (known_of known.old) form.now result (known_of known.new) }
    ensures fitting { OnOk result (IsFitting (known_of known.new)) }
{
    match kind {
        DefinitionKind::Language => {
            let language = define_language(alloc, known, form)?;
            Ok(add_language(alloc, known, language)?)
        }
        DefinitionKind::Extension => {
            let language = define_extension(alloc, known, form)?;
            Ok(add_language(alloc, known, language)?)
        }
        DefinitionKind::Metafunction => {
            let metafunction = define_metafunction(alloc, known, form)?;
            Ok(add_metafunction(alloc, known, metafunction)?)
        }
        DefinitionKind::Judgement => {
            let judgement = define_judgement(alloc, known, form)?;
            Ok(add_judgement(alloc, known, judgement)?)
        }
        DefinitionKind::Relation => {
            let relation = define_relation(alloc, known, form)?;
            Ok(add_relation(alloc, known, relation)?)
        }
    }
}

// The test that a form of this kind is, or the question how many passed.
fn test(alloc: Global, known: &mut Known, kind: TestKind, form: &Datum) -> Result<Query, DefFault>
    requires readable { IsReadable form.now }
    requires kind { forms.form_kind form.now ≡ forms.asks (test_kind_of kind) }
    requires crossed { AreCrossed (known_of known.old).program.languages
        (known_of known.old).ends }
    requires ends { AreAmong (form_ends form.now) (known_of known.old).ends }
    ensures asks { AsksQuery (known_of known.old) form.now result }
    ensures same { known_of known.new ≡ known_of known.old }
{
    match kind {
        TestKind::Equal => {
            let Same { found, wanted } = read_equal(alloc, known, form)?;
            Ok(Query::TestEqual(found, wanted))
        }
        TestKind::Step => {
            let Leading {
                relation,
                from,
                wanted,
            } = read_leading(alloc, known, form)?;
            Ok(Query::TestStep(relation, from, wanted))
        }
        TestKind::Run => {
            let Leading {
                relation,
                from,
                wanted,
            } = read_leading(alloc, known, form)?;
            Ok(Query::TestRun(relation, from, wanted))
        }
        TestKind::Match => {
            let Asked { name, pat, host } = read_query(alloc, known, form)?;
            Ok(Query::TestMatch(name, pat, host, true))
        }
        TestKind::NoMatch => {
            let Asked { name, pat, host } = read_query(alloc, known, form)?;
            Ok(Query::TestMatch(name, pat, host, false))
        }
        TestKind::Holds => Ok(Query::TestHolds(read_holds_test(alloc, known, form)?)),
        TestKind::Results => {
            check_results(form)?;
            Ok(Query::TestResults)
        }
    }
}

// The query that a form of this kind asks.
fn question(
    alloc: Global,
    known: &mut Known,
    kind: QueryKind,
    form: &Datum,
) -> Result<Query, DefFault>
    requires readable { IsReadable form.now }
    requires kind { forms.form_kind form.now ≡ forms.asks (query_kind_of kind) }
    requires crossed { AreCrossed (known_of known.old).program.languages
        (known_of known.old).ends }
    requires ends { AreAmong (form_ends form.now) (known_of known.old).ends }
    ensures asks { AsksQuery (known_of known.old) form.now result }
    ensures same { known_of known.new ≡ known_of known.old }
{
    match kind {
        QueryKind::Match => {
            let Asked { name, pat, host } = read_query(alloc, known, form)?;
            Ok(Query::Match(name, pat, host))
        }
        QueryKind::Whether => {
            let Asked { name, pat, host } = read_query(alloc, known, form)?;
            Ok(Query::Whether(name, pat, host))
        }
        QueryKind::Decompose => {
            let Asked { name, pat, host } = read_query(alloc, known, form)?;
            Ok(Query::Decompose(name, pat, host))
        }
        QueryKind::Value => Ok(Query::Value(read_unbound(alloc, &known.scope, form)?)),
        QueryKind::Holds => {
            let ReadPremise { premise, result } = read_holds(alloc, known, form)?;
            Ok(Query::Holds(premise, result))
        }
        QueryKind::Reducts => {
            let Stepping { relation, host } = read_steps(alloc, known, form)?;
            Ok(Query::Reducts(relation, host))
        }
        QueryKind::Tagged => {
            let Stepping { relation, host } = read_steps(alloc, known, form)?;
            Ok(Query::Tagged(relation, host))
        }
        QueryKind::Stepper => {
            let Stepping { relation, host } = read_steps(alloc, known, form)?;
            Ok(Query::Stepper(relation, host))
        }
        QueryKind::Generate => {
            let Generating {
                name,
                pat,
                size,
                seed,
            } = read_generate(alloc, known, form)?;
            Ok(Query::Generate(name, pat, size, seed))
        }
        QueryKind::Check => {
            let Checking {
                name,
                pat,
                host,
                attempts,
                seed,
            } = read_check(alloc, known, form)?;
            Ok(Query::Check(name, pat, host, attempts, seed))
        }
        QueryKind::Alike => {
            let Alike { name, one, other } = read_alike(alloc, known, form)?;
            Ok(Query::Alpha(name, one, other))
        }
        QueryKind::Put => {
            let Putting {
                name,
                whole,
                symbol,
                value,
            } = read_put(alloc, known, form)?;
            Ok(Query::Substitute(name, whole, symbol, value))
        }
        QueryKind::Test(kind) => test(alloc, known, kind, form),
    }
}

// Lets a form of this kind pass.
fn pass(kind: PassedKind, form: &Datum) -> Result<(), DefFault>
    requires { forms.form_kind form.now ≡ forms.passes (passed_kind_of kind) }
    ensures { PassesBy form.now result }
{
    match kind {
        PassedKind::Wants => check_wants(form),
        PassedKind::Offers => Ok(()),
    }
}

/// Adds what the form defines, or the query that it asks.
pub(crate) fn read_form(
    alloc: Global,
    known: &mut Known,
    queries: &mut Vec<Query>,
    form: &Datum,
) -> Result<(), DefFault>
    requires readable { IsReadable form.now }
    requires fitting { IsFitting (known_of known.old) }
    requires ends { AreAmong (form_ends form.now) (known_of known.old).ends }
    ensures steps { StepsBy (known_of known.old)
        (map (query_of (known_of known.old).forms) queries.old.items) form.now result
        (known_of known.new) (map (query_of (known_of known.old).forms) queries.new.items) }
    ensures forms { OnOk result ((known_of known.new).forms ≡ (known_of known.old).forms) }
    ensures fitting { OnOk result (IsFitting (known_of known.new)) }
{
    match form_kind(form) {
        FormKind::Defines(kind) => define(alloc, known, kind, form),
        FormKind::Asks(kind) => {
            let query = question(alloc, known, kind, form)?;
            Ok(queries.push(query)?)
        }
        FormKind::Passes(kind) => pass(kind, form),
    }
}
