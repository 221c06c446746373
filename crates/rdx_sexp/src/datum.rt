// Data: what a file writes.
use rdx_base::Span;
use std::marker::Model;
use std::rc::RcStr;

/// What a datum is: an integer, a truth value, a string, a symbol, a keyword, or a list. A keyword's text leaves out its mark `#:`.
#[cycle(datum)]
#[derive(Drop)]
pub enum Form {
    Int(i128),
    Bool(bool),
    Str(RcStr),
    Sym(RcStr),
    Key(RcStr),
    List(Vec<Datum>),
}

/// A datum, and where it stands. A list's span has its brackets in it.
#[cycle(datum)]
#[derive(Drop)]
pub struct Datum {
    pub form: Form,
    pub span: Span,
}

impl Model for Datum {
    ghost use Rattle.rdx_sexp.specs.Sexp.{Sexp, sexp_nodes};
    ghost use Rattle.rdx_sexp.specs.Model.SexpCode.{coded_sexp};

    ghost Value = { Sexp };

    ghost coded = { coded_sexp };

    ghost use Rattle.rdx_sexp.specs.View.{sexp_of};

    ghost view = { λ a. sexp_of a.form a.span };

    ghost size = { sexp_nodes };

    ghost use Rattle.std.proofs.Common.{arith};
    ghost use Rattle.rdx_sexp.specs.Model.Falls.{deep_le-nodes};

    ghost size_decreases = { λ a h. omega (arith, deep_le-nodes a.form a.span) };
}
