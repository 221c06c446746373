// What generation knows of the literals of a language, which no file asks for.
use crate::making::checked;
use rdx_gen::literal_count;
use std::process::Abort;

const LITERALS: &[u8] = b"(define-language L (e (+ e e) (+ a) b) (n number))";

#[test]
fn literals_are_counted_as_often_as_they_stand(rt: HostRuntime) {
    let file = checked(&rt, LITERALS);
    let language = file.program.languages.first().expect(&rt, "a language");
    let count = literal_count(rt.alloc(), language).expect(&rt, "a count");
    assert_eq!(rt; count, 4);
}
