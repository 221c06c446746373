//! Laws of the definitions: functions that do nothing, whose contracts are the laws.
ghost use Rattle.rdx_sexp.specs.Examples as example;
ghost use Rattle.rdx_sexp.specs.Laws.{OneReading, OneFault, DataOrFault, NeverNeither, FaultsEndFronts, SymbolsRead, TermsReadBack, DataReadBack};

/// Bytes are one list of data at most.
pub fn one_reading()
    ensures { OneReading }
{}

/// Bytes have one first fault at most.
pub fn one_fault()
    ensures { OneFault }
{}

/// Bytes that are data have no fault.
pub fn data_or_fault()
    ensures { DataOrFault }
{}

/// Bytes are data, or have a first fault.
pub fn never_neither()
    ensures { NeverNeither }
{}

/// The lexemes before the one at fault are a front of lexemes that spell data, and with it they are a front of none. The lexeme alone says
/// the kind and the place; at the end of the text, which is a front too and no data, the fault is what has no end.
pub fn faults_end_fronts()
    ensures { FaultsEndFronts }
{}

/// Text is spelled as the symbols of terms are exactly where it is read as that one symbol, and so is `hole`.
pub fn symbols_read()
    ensures { SymbolsRead }
{}

/// The printed spelling of a term is read as one datum, which stands for that term with its marks forgotten.
pub fn terms_read_back()
    ensures { TermsReadBack }
{}

/// The canonical text of the data of a text, each printed on a line of its own, is read as the same data, spans aside.
pub fn data_read_back()
    ensures { DataReadBack }
{}

/// What some short texts are, as the definitions have it.
pub fn worked_examples()
    ensures nested_comment { example.NestedComment }
    ensures two_dropped { example.TwoDropped }
    ensures comments_alone { example.CommentsAlone }
    ensures quote_mark { example.QuoteMark }
    ensures lang_line { example.LangLine }
    ensures other_lang { example.OtherLang }
    ensures small_integers { example.SmallIntegers }
    ensures largest_integer { example.LargestInteger }
    ensures smallest_integer { example.SmallestInteger }
    ensures tokens { example.Tokens }
    ensures string_behind_token { example.StringBehindToken }
    ensures no_text { example.NoText }
    ensures innermost_open { example.InnermostOpen }
    ensures wrong_bracket { example.WrongBracket }
    ensures single_point { example.SinglePoint }
    ensures fraction { example.Fraction }
    ensures out_of_range { example.OutOfRange }
    ensures unknown_escape { example.UnknownEscape }
    ensures open_string { example.OpenString }
    ensures too_many_open { example.TooManyOpen }
{}
