//! Laws of the definitions: functions that do nothing, whose contracts are the laws.
ghost use Rattle.rdx_cli.specs.Examples as example;
ghost use Rattle.rdx_cli.specs.Laws.{OneFile, OneOutcome, OneRow, OneTranscript, SomeTranscript, WhyIsRun};

/// Words are one row of the table at most.
pub fn one_row()
    ensures { OneRow }
{}

/// Where a source tells what it has left, one file may be read from it, and that leaves one rest.
pub fn one_file()
    ensures { OneFile }
{}

/// For each row of the table but `why` a file has one transcript and one verdict at most.
pub fn one_transcript()
    ensures { OneTranscript }
{
    rdx_sexp::laws::one_reading();
    rdx_sexp::laws::one_fault();
    rdx_sexp::laws::data_or_fault();
    rdx_query::laws::one_text();
    rdx_query::laws::one_refusal();
    rdx_query::laws::never_both_text_and_refusal();
    rdx_query::laws::never_both_accepted_and_refused();
    rdx_query::laws::one_meaning();
    rdx_enum::laws::one_terms();
}

/// Where a source tells what it has left, words other than `why` ask for one text and one verdict at
/// most, and leave one rest of the source.
pub fn one_outcome()
    ensures { OneOutcome }
{
    one_row();
    one_file();
    one_transcript();
}

/// For each row of the table each file has a transcript.
pub fn some_transcript()
    ensures { SomeTranscript }
{
    rdx_sexp::laws::never_neither();
    rdx_query::laws::never_neither();
    rdx_query::laws::some_text_or_refusal();
    rdx_query::laws::each_text_is_explained();
    rdx_query::laws::accepted_is_valid();
    rdx_enum::laws::some_terms();
}

/// What is written for `why` is what a run writes, with derivations behind its lines, and the verdict
/// is that of the run.
pub fn why_is_run()
    ensures { WhyIsRun }
{}

/// What some files write, and what some words ask for, as the definitions have it.
pub fn worked_examples()
    ensures queries_are_answered { example.QueriesAreAnswered }
    ensures comments_are_answered { example.CommentsAreAnswered }
    ensures form_is_refused { example.FormIsRefused }
    ensures bracket_is_refused { example.BracketIsRefused }
    ensures no_text_is_refused { example.NoTextIsRefused }
    ensures long_file_is_refused { example.LongFileIsRefused }
    ensures step_alone { example.StepAlone }
    ensures most_tests { example.MostTests }
    ensures largest_size { example.LargestSize }
    ensures no_words { example.NoWords }
    ensures words_behind_run { example.WordsBehindRun }
    ensures zero_in_front { example.ZeroInFront }
    ensures no_tests { example.NoTests }
    ensures too_many_tests { example.TooManyTests }
    ensures hole_is_no_name { example.HoleIsNoName }
    ensures too_large { example.TooLarge }
    ensures zero_before_size { example.ZeroBeforeSize }
    ensures no_size { example.NoSize }
{
    rdx_sexp::laws::worked_examples();
    rdx_query::laws::worked_examples();
}
