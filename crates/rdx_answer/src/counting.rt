// How tests are counted.
ghost use Rattle.std.specs.Prelude.{◌≡◌, ◌++◌, ◌+◌, ◌^◌, ◌<◌, List, OnOk};
ghost use Rattle.rdx_answer.specs.Answering as model;
ghost use Rattle.rdx_answer.specs.Bound.{Bound};
ghost use Rattle.rdx_answer.specs.Inside.Counting.{counts_of};
ghost use Rattle.rdx_answer.specs.Tests.{no_tests, one_more, results_line};
ghost use Rattle.rdx_answer.specs.Views.{query_of};

use crate::Query;
use crate::texts::write_number;
use rdx_term::NoMemory;

/// How many tests passed, and how many did not, since they were counted last.
#[derive(Clone, Copy)]
pub(crate) struct Counts {
    pub(crate) passed: usize,
    pub(crate) failed: usize,
}

/// No test.
pub(crate) fn no_counts() -> Counts
    ensures { counts_of result ≡ no_tests }
{
    Counts {
        passed: 0,
        failed: 0,
    }
}

// One test more, which passed or did not.
fn one_more(passed: bool, counts: Counts) -> Counts
    requires { counts.passed + counts.failed < 2 ^ 63 }
    ensures { counts_of result ≡ one_more passed (counts_of counts) }
{
    if passed {
        Counts {
            passed: counts.passed + 1,
            failed: counts.failed,
        }
    } else {
        Counts {
            passed: counts.passed,
            failed: counts.failed + 1,
        }
    }
}

/// How tests are counted behind a query, by whether what it states is met.
pub(crate) fn counts_behind(query: &Query, is_met: bool, counts: Counts) -> Counts
    requires { counts.passed + counts.failed < 2 ^ 63 }
    ensures { (bs : List Bound) → counts_of result
        ≡ model.counts_behind (query_of bs query.now) is_met (counts_of counts) }
{
    match query {
        Query::Match(_, _, _)
        | Query::Whether(_, _, _)
        | Query::Decompose(_, _, _)
        | Query::Value(_)
        | Query::Holds(_, _)
        | Query::Reducts(_, _)
        | Query::Tagged(_, _)
        | Query::Stepper(_, _)
        | Query::Generate(_, _, _, _)
        | Query::Check(_, _, _, _, _)
        | Query::Alpha(_, _, _)
        | Query::Substitute(_, _, _, _) => counts,
        Query::TestEqual(_, _)
        | Query::TestStep(_, _, _)
        | Query::TestRun(_, _, _)
        | Query::TestMatch(_, _, _, _)
        | Query::TestHolds(_) => one_more(is_met, counts),
        Query::TestResults => no_counts(),
    }
}

/// How many tests passed and failed.
pub(crate) fn write_results(counts: Counts, out: &mut Vec<u8>) -> Result<(), NoMemory>
    requires { counts.passed + counts.failed < 2 ^ 63 }
    ensures { OnOk result (out.new.items ≡ out.old.items ++ results_line (counts_of counts)) }
{
    out.extend_from_slice(b"tests ")?;
    write_number(counts.passed + counts.failed, out)?;
    out.extend_from_slice(b" passed ")?;
    write_number(counts.passed, out)?;
    out.extend_from_slice(b" failed ")?;
    write_number(counts.failed, out)?;
    out.push(b'\n')?;
    Ok(())
}
