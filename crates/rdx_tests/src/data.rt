// Data that were read, printed.
use crate::making::read;
use rdx_sexp::{Datum, datum_text};
use rdx_term::NoMemory;
use std::alloc::Global;
use std::process::Abort;

const TEXT: &[u8] = b"[a {b \"c\\n\\t\\\"\"} 'd #:k -01 #true () ,@`e]";

const PRINTED: &str =
    "(a (b \"c\\n\\t\\\"\") (quote d) #:k -1 #t () (unquote-splicing (quasiquote e)))";

fn printed(alloc: Global, datum: &Datum) -> Result<Vec<u8>, NoMemory> {
    let mut text = Vec::new(alloc);
    datum_text(datum, &mut text)?;
    Ok(text)
}

pub(crate) fn prints<R: Abort + AllocGlobal>(rt: &R, datum: &Datum, wanted: &str) {
    let text = printed(rt.alloc(), datum).expect(rt, "a text");
    assert_eq!(rt; text.as_slice(), wanted.as_bytes());
}

#[test]
fn data_are_printed(rt: HostRuntime) {
    let data = read(&rt, TEXT);
    assert_eq!(rt; data.len(), 1);
    prints(&rt, &data[0], PRINTED);
}
