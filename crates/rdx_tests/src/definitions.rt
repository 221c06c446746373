// What definitions are made of, by itself: the cases that shorthand stands for, and a template.
use crate::data::prints;
use crate::making::read;
use rdx_base::{Place, Span};
use rdx_defs::{Scope, expand_with, read_template};
use rdx_grammar::{DefFault, DefKind};
use rdx_lang::Template;
use rdx_sexp::{Datum, Form};
use rdx_term::Term;
use std::alloc::Global;
use std::rc::RcStr;

const SHORT: &[u8] = b"(reduction-relation L (==> 1 2) with [(--> (k a) (k b)) (==> a b)])";

#[test]
fn shorthand_is_written_out(rt: HostRuntime) {
    let data = read(&rt, SHORT);
    let form = data.first().expect(&rt, "a form");
    let cases = expand_with(rt.alloc(), form).expect(&rt, "cases");
    assert_eq!(rt; cases.len(), 1);
    prints(&rt, &cases[0], "(--> (k 1) (k 2))");
}

const PLACE: Place = Place { line: 1, column: 1 };

const SPAN: Span = Span {
    start: PLACE,
    end: PLACE,
};

// The template of a number, in a file that defines nothing.
fn template_of_number(alloc: Global, n: i128) -> Result<Box<Template>, DefFault> {
    let scope = Scope::new(alloc, Vec::new(alloc), Vec::new(alloc))?;
    let form = Form::Int(n);
    let datum = Datum { form, span: SPAN };
    let template = read_template(alloc, &scope, &[], &datum)?;
    Ok(Box::new(alloc, template)?)
}

fn is_number(template: &Template, n: i128) -> bool {
    match template {
        Template::Lit(Term::Int(value)) => *value == n,
        _ => false,
    }
}

#[test]
fn a_number_is_a_template(rt: HostRuntime) {
    let template = template_of_number(rt.alloc(), 7).expect(&rt, "a template");
    assert!(rt; is_number(&template, 7));
}

// That of a keyword, which is none.
fn template_of_keyword(alloc: Global, text: &str) -> Result<Box<Template>, DefFault> {
    let scope = Scope::new(alloc, Vec::new(alloc), Vec::new(alloc))?;
    let form = Form::Key(RcStr::from_str(alloc, text)?);
    let datum = Datum { form, span: SPAN };
    let template = read_template(alloc, &scope, &[], &datum)?;
    Ok(Box::new(alloc, template)?)
}

fn is_misshaped(fault: &DefFault) -> bool {
    match fault {
        DefFault::Refused(refusal) => refusal.kind == DefKind::Shape,
        DefFault::NoMemory => false,
    }
}

#[test]
fn a_keyword_is_no_template(rt: HostRuntime) {
    let fault = template_of_keyword(rt.alloc(), "k").err();
    assert!(rt; fault.is_some_and(|fault| is_misshaped(&fault)));
}
