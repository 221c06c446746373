//! Laws of the definitions: functions that do nothing, whose contracts are the laws.
ghost use Rattle.rdx_relations.specs.RelationExamples.{ArrowRefused, BindsBehind, ClashRefused, ExtraRefused, FreshRefused, HeadRefused, LanguageRefused, MakesFresh, NameRefused, ResultRefused, ShapeRefused};
ghost use Rattle.rdx_relations.specs.ShorthandExamples.{AgainRefused, GoesOn, LaterRefused, OneEach, OtherHeadRefused, PlainStays, PutInStays, SameRefused};
ghost use Rattle.rdx_relations.specs.RelationLaws.{NeverBothRelation, NeverNeitherRelation, OneRelation, OneRelationRefusal};

/// With a given name, over given nonterminals, a datum is one relation at most, or has one refusal
/// at most, and always one of both.
pub fn one_relation()
    ensures relation { OneRelation }
    ensures refusal { OneRelationRefusal }
    ensures never_both { NeverBothRelation }
    ensures never_neither { NeverNeitherRelation }
{}

/// Worked examples: what a datum is as a relation, and where others are refused as ones.
pub fn worked_relations()
    ensures binds_behind { BindsBehind }
    ensures makes { MakesFresh }
    ensures head { HeadRefused }
    ensures language { LanguageRefused }
    ensures shape { ShapeRefused }
    ensures name { NameRefused }
    ensures arrow { ArrowRefused }
    ensures extra { ExtraRefused }
    ensures shallow { ResultRefused }
    ensures clash { ClashRefused }
    ensures bound_before { FreshRefused }
{}

/// Worked examples: what forms of relations are without their shorthand, and where others are
/// refused.
pub fn worked_shorthand()
    ensures goes_on { GoesOn }
    ensures one_each { OneEach }
    ensures put_in { PutInStays }
    ensures plain { PlainStays }
    ensures head { OtherHeadRefused }
    ensures same_symbol { SameRefused }
    ensures again { AgainRefused }
    ensures later { LaterRefused }
{}
