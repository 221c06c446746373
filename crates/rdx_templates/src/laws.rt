//! Laws of the definitions: functions that do nothing, whose contracts are the laws.
ghost use Rattle.rdx_templates.specs.Examples.{BareEllipsisRefused, Calls, CountRefused, DepthRefused, EscapeRefused, Evaluates, Fills, KeywordFirst, KeywordRefused, ListsBehind, Repeats, ShapeRefused, StandsForItself, UndrivenRefused};
ghost use Rattle.rdx_templates.specs.Laws.{NeverBothHost, NeverBothTemplate, NeverNeitherHost, NeverNeitherTemplate, OneHost, OneHostRefusal, OneTemplate, OneTemplateRefusal};

/// Where given names are bound, a datum is one template at most, or has one refusal at most, and
/// always one of both.
pub fn one_template()
    ensures template { OneTemplate }
    ensures refusal { OneTemplateRefusal }
    ensures never_both { NeverBothTemplate }
    ensures never_neither { NeverNeitherTemplate }
{}

/// Where given names are bound, a datum is one host expression at most, or has one refusal at most,
/// and always one of both.
pub fn one_host()
    ensures host { OneHost }
    ensures refusal { OneHostRefusal }
    ensures never_both { NeverBothHost }
    ensures never_neither { NeverNeitherHost }
{}

/// Worked examples: what some data are as templates, and where others are refused as ones.
pub fn worked_examples()
    ensures repeats { Repeats }
    ensures fills { Fills }
    ensures stands_for_itself { StandsForItself }
    ensures keyword { KeywordRefused }
    ensures keyword_first { KeywordFirst }
    ensures shape { ShapeRefused }
    ensures depth { DepthRefused }
    ensures undriven { UndrivenRefused }
    ensures calls { Calls }
    ensures lists_behind { ListsBehind }
    ensures evaluates { Evaluates }
    ensures escape { EscapeRefused }
    ensures count { CountRefused }
    ensures bare_ellipsis { BareEllipsisRefused }
{}
