//! Laws of the definitions: functions that do nothing, whose contracts are the laws.
ghost use Rattle.rdx_defs.specs.JudgementExamples as judgements;
ghost use Rattle.rdx_defs.specs.JudgementExamples.{AheadMeans, BehindMeans, SeesNoOutput, ConfirmsTerm, DividesContract, ConclusionRefused, NoModeRefused, UnknownRefused};
ghost use Rattle.rdx_defs.specs.JudgementLaws.{NeverBothJudgement, NeverNeitherJudgement, OneJudgement, OneJudgementRefusal};
ghost use Rattle.rdx_defs.specs.MetafunctionExamples as metafunctions;
ghost use Rattle.rdx_defs.specs.MetafunctionExamples.{CallsAnother, ClosesContract, NamedClauseRefused, OtherNameRefused};
ghost use Rattle.rdx_defs.specs.MetafunctionLaws.{NeverBothMetafunction, NeverNeitherMetafunction, OneMetafunction, OneMetafunctionRefusal};

/// Over given nonterminals, a datum is one metafunction at most, or has one refusal at most, and
/// always one of both.
pub fn one_metafunction()
    ensures metafunction { OneMetafunction }
    ensures refusal { OneMetafunctionRefusal }
    ensures never_both { NeverBothMetafunction }
    ensures never_neither { NeverNeitherMetafunction }
{}

/// Over given nonterminals, a datum is one judgement at most, or has one refusal at most, and always
/// one of both.
pub fn one_judgement()
    ensures one { OneJudgement }
    ensures one_refusal { OneJudgementRefusal }
    ensures never_both { NeverBothJudgement }
    ensures never_neither { NeverNeitherJudgement }
{}

/// Worked examples: what data are as metafunctions, and where others are refused as ones.
pub fn worked_metafunctions()
    ensures contract { ClosesContract }
    ensures calls { CallsAnother }
    ensures other_name { OtherNameRefused }
    ensures named_clause { NamedClauseRefused }
    ensures head { metafunctions.HeadRefused }
    ensures shape { metafunctions.ShapeRefused }
    ensures language { metafunctions.LanguageRefused }
{}

/// Worked examples: what data are as judgements, and where others are refused as ones.
pub fn worked_judgements()
    ensures ahead { AheadMeans }
    ensures behind { BehindMeans }
    ensures own_output { SeesNoOutput }
    ensures side_condition { ConfirmsTerm }
    ensures contract { DividesContract }
    ensures conclusion { ConclusionRefused }
    ensures no_mode { NoModeRefused }
    ensures unknown_first { UnknownRefused }
    ensures head { judgements.HeadRefused }
    ensures language { judgements.LanguageRefused }
    ensures shape { judgements.ShapeRefused }
{}
