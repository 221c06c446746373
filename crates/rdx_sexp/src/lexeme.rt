// What a text is cut into.
use rdx_base::Span;
use std::rc::RcStr;

// The kinds of brackets.
#[derive(Clone, Copy, Debug, PartialEq, Eq)]
pub(crate) enum Bracket {
    Round,
    Square,
    Curly,
}

// The quote marks.
#[derive(Clone, Copy, Debug, PartialEq, Eq)]
pub(crate) enum QuoteMark {
    Quote,
    Quasiquote,
    Unquote,
    UnquoteSplicing,
}

// A datum without parts.
#[derive(Drop)]
pub(crate) enum Atom {
    Int(i128),
    Bool(bool),
    Str(RcStr),
    Sym(RcStr),
    Key(RcStr),
}

// A bracket, a quote mark, the mark `#;` of a comment on one datum, or a datum without parts.
#[derive(Drop)]
pub(crate) enum Lexeme {
    Open(Bracket, Span),
    Close(Bracket, Span),
    Marked(QuoteMark, Span),
    Skip(Span),
    Word(Atom, Span),
}
