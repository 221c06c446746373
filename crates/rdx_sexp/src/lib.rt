//! The reader: from the bytes of a file to data with spans.
//!
//! A file is UTF-8 text. A first line `#lang racket` or `#lang racket/base` is skipped. Data stand between white space and comments: a
//! comment goes from `;` to the end of the line, or from `#|` to its `|#`, nested, or it is `#;` with the datum behind it. Lists stand
//! between round, square or curly brackets, which are alike, and `'d`, `` `d ``, `,d` and `,@d` are short for lists headed by `quote`,
//! `quasiquote`, `unquote` and `unquote-splicing`. Strings stand between quotation marks, and every other datum is a token: an integer of
//! 128 bits, `#t`, `#true`, `#f`, `#false`, a keyword `#:k`, or a symbol. At most 500 brackets, quote marks and `#;` are open at once.
//!
//! [`read_all`] says exactly which data a text is, and else its first fault: its characters are cut into lexemes (`specs/Lex.antt`), and
//! these spell the data (`specs/Grammar.antt`) or have a first fault (`specs/Fault.antt`), as `specs/Reads.antt` puts together. Clauses see
//! a [`Datum`] as the tree of `specs/Sexp.antt`.
#![tactic(auto)]

mod begin;
mod blanks;
mod cursor;
mod datum;
mod fault;
pub mod laws;
mod lexeme;
mod lexer;
mod opener;
mod print;
mod read;
mod reader;
mod strings;
mod words;

pub use datum::{Datum, Form};
pub use fault::{ReadFault, ReadKind, ReadRefusal};
pub use print::datum_text;
pub use read::read_all;
