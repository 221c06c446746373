//! Laws of the definitions: functions that do nothing, whose contracts are the laws.
ghost use Rattle.rdx_query.specs.Laws.{EachTextIsExplained, OneMeaning, AcceptedIsValid, AcceptedLanguagesAreWellFormed, AcceptedLanguagesAreFree, AcceptedQueriesAreValid, AcceptedLeaveNames, OneText, OneRefusal, NeverBothAcceptedAndRefused, NeverBothTextAndRefusal, NeverNeither, SomeTextOrRefusal};
ghost use Rattle.rdx_query.specs.Examples as example;

/// The data of a file define one program and ask one list of queries at most.
pub fn one_meaning()
    ensures { OneMeaning }
{}

/// The program of a file is valid, where its data are accepted, and so are its queries; each of its
/// languages is well formed and free of left recursion; and each rule of a relation leaves the name of
/// a context free.
pub fn accepted_is_valid()
    ensures program { AcceptedIsValid }
    ensures languages { AcceptedLanguagesAreWellFormed }
    ensures free { AcceptedLanguagesAreFree }
    ensures queries { AcceptedQueriesAreValid }
    ensures contexts { AcceptedLeaveNames }
{}

/// The data of a file write one text at most, by the same choices.
pub fn one_text()
    ensures { OneText }
{
    rdx_lang::laws::one_listing();
    rdx_eval::laws::one_term();
    rdx_eval::laws::one_meeting();
    rdx_reduce::laws::one_stepping();
    rdx_run::laws::one_walk();
    rdx_gen::laws::one_answer();
}

/// The data of a file have one refusal at most.
pub fn one_refusal()
    ensures { OneRefusal }
{}

/// Data that are accepted are not refused.
pub fn never_both_accepted_and_refused()
    ensures { NeverBothAcceptedAndRefused }
{}

/// Data that are refused write nothing.
pub fn never_both_text_and_refusal()
    ensures { NeverBothTextAndRefusal }
{}

/// Data are accepted or refused.
pub fn never_neither()
    ensures { NeverNeither }
{
    rdx_lang::laws::free_or_recursive();
}

/// Data write some text or are refused, whatever the choices.
pub fn some_text_or_refusal()
    ensures { SomeTextOrRefusal }
{
    rdx_lang::laws::free_or_recursive();
    rdx_lang::laws::some_listing();
    rdx_eval::laws::one_term();
    rdx_eval::laws::one_meeting();
    rdx_reduce::laws::one_stepping();
    rdx_run::laws::some_walk();
    rdx_gen::laws::some_answer();
}

/// Each text that data write as they are run they write with derivations too.
pub fn each_text_is_explained()
    ensures { EachTextIsExplained }
{
    rdx_answer::laws::each_answer_is_explained();
}

/// The examples of `specs/Examples.antt` hold.
pub fn worked_examples()
    ensures answers_in_order { example.AnswersInOrder }
    ensures whole_answer { example.WholeAnswer }
    ensures inherited { example.Inherited }
    ensures one_split { example.OneSplit }
    ensures filled_term { example.FilledTerm }
    ensures fault_answered { example.FaultAnswered }
    ensures one_reduct_two_steps { example.OneReductTwoSteps }
    ensures premise_met { example.PremiseMet }
    ensures outputs_listed { example.OutputsListed }
    ensures first_refused_form { example.FirstRefusedForm }
    ensures earlier_languages_only { example.EarlierLanguagesOnly }
    ensures taken_name { example.TakenName }
    ensures host_expression { example.HostExpression }
    ensures other_form { example.OtherForm }
    ensures sum { example.Sum }
    ensures wanted { example.Wanted }
    ensures other_module { example.OtherModule }
    ensures known_before { example.KnownBefore }
    ensures few_items { example.FewItems }
    ensures left_recursion { example.LeftRecursion }
{}
