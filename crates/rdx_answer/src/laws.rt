//! Laws of the definitions: functions that do nothing, whose contracts are the laws.
ghost use Rattle.rdx_answer.specs.Examples as example;
ghost use Rattle.rdx_answer.specs.Laws.{WhatIsExplainedIsAnswered, EachAnswerIsExplained};

/// Without its derivations, what is written where a file is asked why is the text of a run.
pub fn what_is_explained_is_answered()
    ensures { WhatIsExplainedIsAnswered }
{}

/// Each text of a run can be written with derivations, where each query can be explained.
pub fn each_answer_is_explained()
    ensures { EachAnswerIsExplained }
{
    rdx_deriv::laws::what_follows_has_derivation();
    rdx_deriv::laws::outputs_are_judged();
}

/// The examples of `specs/Examples.antt` hold.
pub fn worked_examples()
    ensures own_hole { example.OwnHole }
    ensures one_hole { example.OneHole }
    ensures no_own_hole { example.NoOwnHole }
    ensures nested_sequences { example.NestedSequences }
    ensures own_hole_in_sequence { example.OwnHoleInSequence }
    ensures length_in_decimal { example.LengthInDecimal }
    ensures values_written { example.ValuesWritten }
    ensures failed_test { example.FailedTest }
    ensures marks_forgotten { example.MarksForgotten }
    ensures counts_set_back { example.CountsSetBack }
    ensures fault_in_test { example.FaultInTest }
    ensures first_fault { example.FirstFault }
{}
