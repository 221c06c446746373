// Data of lexemes, with a stack of what is open.
ghost use Rattle.std.specs.Prelude.{◌≡◌, [], ◌∷◌, List, IfOk, OnOk, OnErr};
ghost use Rattle.rdx_base.specs.declared.place.Span.{Span};
ghost use Rattle.rdx_sexp.specs.Grammar.{joined, quote_name, quoted};
ghost use Rattle.rdx_sexp.specs.Lexeme as lexemes;
ghost use Rattle.rdx_sexp.specs.Inside.Machine.{frame, finish, opened, closed, run};
ghost use Rattle.rdx_sexp.specs.Sexp.{leaf};
ghost use Rattle.rdx_sexp.specs.Inside.Stack.{frames, Steps};
ghost use Rattle.rdx_sexp.specs.Inside.Lexemes.{atom_of, lexeme_of, quote_mark_of, bracket_of, opener_of};
ghost use Rattle.rdx_sexp.specs.View.{sexp_of};

use crate::fault::refused;
use crate::lexeme::{Atom, Bracket, Lexeme, QuoteMark};
use crate::opener::Opener;
use crate::{Datum, Form, ReadFault, ReadKind};
use rdx_base::Span;
use std::alloc::Global;
use std::rc::RcStr;

const MAX_OPEN: usize = 500;

// An open thing, and the data before it in what it stands in.
#[derive(Drop)]
pub(crate) struct Level {
    pub(crate) opener: Opener,
    before: Vec<Datum>,
}

fn joined(first: Span, last: Span) -> Span
    ensures { result ≡ joined first last }
{
    Span {
        start: first.start,
        end: last.end,
    }
}

fn quote_name(mark: QuoteMark) -> &'static str
    ensures { result.now ≡ quote_name (quote_mark_of mark) }
{
    match mark {
        QuoteMark::Quote => "quote",
        QuoteMark::Quasiquote => "quasiquote",
        QuoteMark::Unquote => "unquote",
        QuoteMark::UnquoteSplicing => "unquote-splicing",
    }
}

// The list that a quote mark and a datum stand for.
fn quoted(alloc: Global, mark: QuoteMark, span: Span, datum: Datum) -> Result<Datum, ReadFault>
    ensures ok { IfOk result (λ d. d ≡ quoted (quote_mark_of mark) span datum) }
    ensures err { OnErr result (result ≡ Err ReadFault.NoMemory) }
{
    let whole = joined(span, datum.span);
    let name = RcStr::from_str(alloc, quote_name(mark))?;
    let mut items = Vec::new(alloc);
    items.push(Datum {
        form: Form::Sym(name),
        span,
    })?;
    items.push(datum)?;
    Ok(Datum {
        form: Form::List(items),
        span: whole,
    })
}

// A datum is read: it goes to where it belongs.
fn finish(
    alloc: Global,
    datum: Datum,
    stack: &mut Vec<Level>,
    items: &mut Vec<Datum>,
) -> Result<(), ReadFault>
    ensures ok { OnOk result
        (finish datum (frames stack.old.items) items.old.items
        ≡ (frames stack.new.items, items.new.items)) }
    ensures err { OnErr result (result ≡ Err ReadFault.NoMemory) }
{
    let mut datum = datum;
    loop {
        let Some(level) = stack.pop() else {
            items.push(datum)?;
            return Ok(());
        };
        match level.opener {
            Opener::Nest(_, _) => {
                stack.push(level)?;
                items.push(datum)?;
                return Ok(());
            }
            Opener::Quoting(mark, span) => {
                *items = level.before;
                datum = quoted(alloc, mark, span, datum)?;
            }
            Opener::Skipping(_) => {
                *items = level.before;
                return Ok(());
            }
        }
    }
}

// One more thing is open.
fn open(
    alloc: Global,
    opener: Opener,
    span: Span,
    stack: &mut Vec<Level>,
    items: &mut Vec<Datum>,
) -> Result<(), ReadFault>
    ensures { (ls : List lexemes.Lexeme) → Steps result
        (opened (frames stack.old.items) span
        (run (frame (opener_of opener) items.old.items ∷ frames stack.old.items) [] ls))
        (run (frames stack.new.items) items.new.items ls) }
{
    if stack.len() >= MAX_OPEN {
        return Err(refused(ReadKind::TooDeep, span.start));
    }
    let before = std::mem::replace(items, Vec::new(alloc));
    stack.push(Level { opener, before })?;
    Ok(())
}

// A closing bracket.
fn close(
    alloc: Global,
    bracket: Bracket,
    span: Span,
    stack: &mut Vec<Level>,
    items: &mut Vec<Datum>,
) -> Result<(), ReadFault>
    ensures { (ls : List lexemes.Lexeme) → Steps result
        (closed (bracket_of bracket) span (frames stack.old.items) items.old.items
        (λ st. run st.0 st.1 ls))
        (run (frames stack.new.items) items.new.items ls) }
{
    let Some(Level { opener, before }) = stack.pop() else {
        return Err(refused(ReadKind::WrongClose, span.start));
    };
    let Opener::Nest(opening, start) = opener else {
        return Err(refused(ReadKind::WrongClose, span.start));
    };
    if !opening.is_like(bracket) {
        return Err(refused(ReadKind::WrongClose, span.start));
    }
    let inner = std::mem::replace(items, before);
    let datum = Datum {
        form: Form::List(inner),
        span: joined(start, span),
    };
    finish(alloc, datum, stack, items)
}

// The form of a datum without parts.
fn form_of(word: Atom) -> Form
    ensures { (s : Span) → sexp_of result s ≡ leaf (atom_of word) s }
{
    match word {
        Atom::Int(n) => Form::Int(n),
        Atom::Bool(b) => Form::Bool(b),
        Atom::Str(text) => Form::Str(text),
        Atom::Sym(text) => Form::Sym(text),
        Atom::Key(text) => Form::Key(text),
    }
}

// One more lexeme.
pub(crate) fn take(
    alloc: Global,
    lexeme: Lexeme,
    stack: &mut Vec<Level>,
    items: &mut Vec<Datum>,
) -> Result<(), ReadFault>
    ensures { (ls : List lexemes.Lexeme) → Steps result
        (run (frames stack.old.items) items.old.items (lexeme_of lexeme ∷ ls))
        (run (frames stack.new.items) items.new.items ls) }
{
    match lexeme {
        Lexeme::Open(bracket, span) => open(alloc, Opener::Nest(bracket, span), span, stack, items),
        Lexeme::Close(bracket, span) => close(alloc, bracket, span, stack, items),
        Lexeme::Marked(mark, span) => open(alloc, Opener::Quoting(mark, span), span, stack, items),
        Lexeme::Skip(span) => open(alloc, Opener::Skipping(span), span, stack, items),
        Lexeme::Word(word, span) => {
            let form = form_of(word);
            finish(alloc, Datum { form, span }, stack, items)
        }
    }
}
