// What no proof shows: that files are answered where there is memory, how calls of a source and a
// sink are made, that the machine's stack suffices, and what words the program is given. The tests
// of what no file reaches stand in `rdx_tests`.
ghost use Rattle.std.specs.Prelude.{◌<◌};

use crate::top::{Status, run};
use crate::writing::write_text;
use crate::{status_without_words, words_of};
use rdx_base::{MemSink, MemSource, Source, SteadySource, Taken};
use rdx_delta::{
    HostEntry, HostTable, host_add, host_add1, host_eq, host_equal, host_ge, host_gt, host_is_zero,
    host_le, host_lt, host_mul, host_not, host_quotient, host_remainder, host_sub, host_sub1,
};
use rdx_lang::HostOp;
use std::alloc::{AllocError, Global};
use std::env::{Env, FillError};
use std::process::Abort;
use std::str::from_utf8;

// ---- runs over memory

// The table of host operations.
fn host_table<R: Abort + AllocGlobal>(rt: &R) -> HostTable {
    let entries = Vec::from_array(
        rt.alloc(),
        [
            HostEntry::new(HostOp::Add, host_add),
            HostEntry::new(HostOp::Sub, host_sub),
            HostEntry::new(HostOp::Mul, host_mul),
            HostEntry::new(HostOp::Quotient, host_quotient),
            HostEntry::new(HostOp::Remainder, host_remainder),
            HostEntry::new(HostOp::Add1, host_add1),
            HostEntry::new(HostOp::Sub1, host_sub1),
            HostEntry::new(HostOp::Eq, host_eq),
            HostEntry::new(HostOp::Lt, host_lt),
            HostEntry::new(HostOp::Le, host_le),
            HostEntry::new(HostOp::Gt, host_gt),
            HostEntry::new(HostOp::Ge, host_ge),
            HostEntry::new(HostOp::IsZero, host_is_zero),
            HostEntry::new(HostOp::Equal, host_equal),
            HostEntry::new(HostOp::Not, host_not),
        ],
    );
    HostTable::new(entries.expect(rt, "entries")).expect(rt, "a table")
}

// How many bytes a call moves at most, and the call that fails, if one does.
#[derive(Clone, Copy)]
struct Plan {
    piece: usize,
    failing: Option<usize>,
}

const STEADY: Plan = Plan {
    piece: 10_000,
    failing: None,
};

const BROKEN: Plan = Plan {
    piece: 1,
    failing: Some(0),
};

fn failing_calls(alloc: Global, plan: Plan) -> Result<Vec<usize>, AllocError> {
    let mut calls = Vec::new(alloc);
    if let Some(call) = plan.failing {
        calls.push(call)?;
    }
    Ok(calls)
}

// These words, as the program is given them.
fn words_in(alloc: Global, words: &[&str]) -> Result<Vec<String>, AllocError> {
    let mut owned = Vec::new(alloc);
    for word in words {
        owned.push(String::from_str(alloc, word)?)?;
    }
    Ok(owned)
}

fn source<R: Abort + AllocGlobal>(rt: &R, bytes: &[u8], takes: Plan) -> MemSource
    requires { 0 < takes.piece }
{
    let failing = failing_calls(rt.alloc(), takes).expect(rt, "a plan");
    let bytes = bytes.to_vec(rt.alloc()).expect(rt, "a file");
    MemSource::new(bytes, takes.piece, failing)
}

fn sink<R: Abort + AllocGlobal>(rt: &R, puts: Plan) -> MemSink
    requires { 0 < puts.piece }
{
    let failing = failing_calls(rt.alloc(), puts).expect(rt, "a plan");
    MemSink::new(puts.piece, failing)
}

// A run over these words and bytes has ended so, and has written this.
fn has_ended(
    rt: &impl Abort,
    (words, bytes): (&[&str], &[u8]),
    (ended, written): (Status, &[u8]),
    (status, text): (Status, &[u8]),
) {
    let file = from_utf8(bytes);
    assert_eq!(rt;
        (ended, from_utf8(written)),
        (status, from_utf8(text)),
        "at {words:?} and the file {file:?}"
    );
}

// A run over these words and bytes ends so, and writes this.
fn run_on<R: Abort + AllocGlobal>(
    rt: &R,
    words: &[&str],
    bytes: &[u8],
    takes: Plan,
    puts: Plan,
    wanted: (Status, &[u8]),
) {
    assert!(rt; takes.piece > 0 && puts.piece > 0);
    let table = host_table(rt);
    let mut source = source(rt, bytes, takes);
    let mut sink = sink(rt, puts);
    let owned = words_in(rt.alloc(), words).expect(rt, "words");
    let ended = run(rt.alloc(), &owned, &mut source, &mut sink, &table);
    has_ended(rt, (words, bytes), (ended, sink.written()), wanted);
}

// How a run has ended and what it has written are these.
fn has_written(rt: &impl Abort, run: (Status, &[u8]), wanted: (Status, &[u8])) {
    assert_eq!(rt; run, wanted);
}

// ---- whole files

const PAIRS: &str =
    "(define-language L (e (e e) number)) (redex-match L (e_1 e_2) (term (1 (2 3))))";

const PAIRS_MATCHED: &str = "match 1\n  e_1 = 1, e_2 = (2 3)\n";

const ANSWERED: [(&str, &str); 13] = [
    (PAIRS, PAIRS_MATCHED),
    ("", ""),
    // What two derivations bind alike is listed once.
    (
        "(define-language B (e v x) (v x) (x variable)) (redex-match B e_1 (term a))",
        "match 1\n  e_1 = a\n",
    ),
    // A name of a nonterminal's alternative stands for one term, and is not bound outside.
    (
        "(define-language L (e (e_1 e_1) number)) (redex-match L any (term (1 1)))\n\
         (redex-match L e (term (1 2)))",
        "match 1\n  any = (1 1)\nmatch 0\n",
    ),
    // An extension inherits alternatives, and leaves its base as it is.
    (
        "(define-language L (e (e e) number)) (define-extended-language M L (e .... string))\n\
         (redex-match M (e_1 e_2) (term (1 \"a\"))) (redex-match? L e (term \"a\"))",
        "match 1\n  e_1 = 1, e_2 = \"a\"\nmatches #f\n",
    ),
    // Splits come with the paths of their contexts, and what is hidden splits nothing. A symbol that
    // names nothing stands for itself, and binds nothing.
    (
        "(define-language A (e (+ e e) n) (n number) (E hole (+ E e) (+ n E)))\n\
         (redex-decompose A E (term (+ 1 2))) (redex-decompose A (hide-hole E) (term (+ 1 2)))\n\
         (redex-match A (in-hole E (+ n_1 n_2)) (term (+ (+ 1 2) (+ 3 4))))\n\
         (redex-match A + (term +))",
        "splits 3\n  hole at [] is (+ 1 2) with E = hole\n  \
         (+ hole 2) at [1] is 1 with E = (+ hole 2)\n  \
         (+ 1 hole) at [2] is 2 with E = (+ 1 hole)\n\
         splits 0\nmatch 1\n  E = (+ hole (+ 3 4)), n_1 = 1, n_2 = 2\nmatch 1\n  -\n",
    ),
    // A name stands for a context with the path of its own hole, which counts where it stands twice.
    (
        "(define-language H (C hole (C any) (any C)))\n\
         (redex-match H (in-hole C hole) (term (hole hole)))\n\
         (redex-match H ((in-hole C hole) (in-hole C 1)) (term ((hole hole) (hole 1))))",
        "match 2\n  C = (hole hole) at [0]\n  C = (hole hole) at [1]\n\
         match 1\n  C = (hole hole) at [1]\n",
    ),
    (
        "(define-language S (E hole (f E))) (redex-decompose S (in-hole E E) (term (f 1)))",
        "splits 1\n  hole at [] is (f 1) with E = hole\n",
    ),
    // The first items of the contexts are equal, and at the second the hole comes before 2.
    (
        "(define-language D (E hole (any ... E any ...)))\n\
         (redex-match D (in-hole E 2) (term (1 2 2)))",
        "match 2\n  E = (1 hole 2)\n  E = (1 2 hole)\n",
    ),
    // The context that is filled takes something of the term off, so that the right part may recur.
    (
        "(define-language L (E hole (in-hole F E)) (F (f hole)))\n\
         (redex-match L E_1 (term (f (f hole))))",
        "match 1\n  E_1 = (f (f hole))\n",
    ),
    ("(term (in-hole (1 hole) 2))", "value (1 2)\n"),
    (
        "(term 170141183460469231731687303715884105727)",
        "value 170141183460469231731687303715884105727\n",
    ),
    // Two rules lead to one term: one reduct, and two steps.
    (
        "(define-language L (e 1)) (define R (reduction-relation L (--> e 2 a) (--> e 2 \"b c\")))\n\
         (apply-reduction-relation R (term 1))\n\
         (apply-reduction-relation/tag-with-names R (term 1))",
        "reducts 1\n  2\nsteps 2\n  a 2\n  \"b c\" 2\n",
    ),
];

// A fault is answered by its line, and so are the queries behind it.
const UNMET: [(&str, &str); 7] = [
    (
        "(term (in-hole 1 2)) (term 1)",
        "fault NotContext 0\nvalue 1\n",
    ),
    (
        "(define-language L (e 1)) (define R (reduction-relation L (--> e (in-hole e e))))\n\
         (apply-reduction-relation R (term 2)) (apply-reduction-relation R (term 1))",
        "reducts 0\nfault NotContext 0\n",
    ),
    (
        "(+ 170141183460469231731687303715884105727 1) (quotient 1 0) (+ (term a) 1)\n\
         (remainder -7 2) (and #f (quotient 1 0))",
        "fault Overflow (+ 170141183460469231731687303715884105727 1)\n\
         fault DivideByZero (quotient 1 0)\nfault HostDomain (+ a 1)\nvalue -1\nvalue #f\n",
    ),
    // A call that comes to no end.
    (
        "(define-language L (n number)) (define-metafunction L [(f n) (f n)])\n\
         (term (f 1)) (term 2)",
        "fault Spent f\nvalue 2\n",
    ),
    // One clause makes two values, no clause makes one, and one clause makes one.
    (
        "(define-language L (n number))\n\
         (define-metafunction L [(g (any_1 ... any_2 any_3 ...)) any_2])\n\
         (term (g (1 2))) (term (g ())) (term (g (5)))",
        "fault Ambiguous (g (1 2)) gives 1 and 2\nfault Undefined (g ())\nvalue 5\n",
    ),
    (
        "(define-language L (n number))\n\
         (define-metafunction L [(zip (any_1 ...) (any_2 ...)) ((any_2 any_1) ...)])\n\
         (term (zip (1 3) (2 4))) (term (zip (1 2) (3)))",
        "value ((2 1) (4 3))\nfault Lengths 1 and 2\n",
    ),
    // Calls may stand 400 high.
    (
        "(define-language L (n natural))\n\
         (define-metafunction L [(cnt 0) 0] [(cnt n) (cnt ,(sub1 (term n)))])\n\
         (term (cnt 399)) (term (cnt 400)) (term (cnt 399))",
        "value 0\nfault Spent cnt\nvalue 0\n",
    ),
];

const REFUSED: [(&str, &str); 23] = [
    // These are no data.
    ("(term (1 2)", "refused F2 Unclosed at 1:1\n"),
    ("(term (1]", "refused F3 WrongClose at 1:9\n"),
    ("(term #\\a)", "refused F4 BadToken at 1:7\n"),
    ("(term 1/2)", "refused F5 NumberForm at 1:7\n"),
    (
        "(term 170141183460469231731687303715884105728)",
        "refused F6 NumberRange at 1:7\n",
    ),
    ("(term \"a", "refused F7 BadString at 1:7\n"),
    ("(term \"a\\q\")", "refused F7 BadString at 1:9\n"),
    // Each of these has a form that is refused.
    (
        "#| a #| b |# c |# #;(x [y]) (foo)",
        "refused S10 RacketEscape at 1:29\n",
    ),
    (
        "(define-language L (e number)) (redex-match L #:binding-forms (term 1))",
        "refused S1 Shape at 1:47\n",
    ),
    ("(define-language)", "refused S1 Shape at 1:1\n"),
    (
        "(redex-match M any (term 1))",
        "refused S2 UnknownLanguage at 1:14 M\n",
    ),
    (
        "(define-language L (e number) (e string))",
        "refused S3 Duplicate at 1:32 e\n",
    ),
    (
        "(define-language L (number 1))",
        "refused S4 BadName at 1:21 number\n",
    ),
    (
        "(define-language L (e foo_1))",
        "refused S5 BadPattern at 1:23\n",
    ),
    (
        "(define-language L (e number)) (redex-match L (any_1 any_1 ...) (term (1)))",
        "refused S6 EllipsisDepth at 1:54 any_1\n",
    ),
    (
        "(define-language L (e f) (f e number))",
        "refused S7 LeftRecursive at 1:1 e\n",
    ),
    (
        "(define-language L (e (name x e)))",
        "refused S7 LeftRecursive at 1:1 e\n",
    ),
    (
        "(define-language L (E hole (in-hole E (e))))",
        "refused S7 LeftRecursive at 1:1 E\n",
    ),
    (
        "(define-language L (E hole (in-hole F E)) (F hole))",
        "refused S7 LeftRecursive at 1:1 E\n",
    ),
    (
        "(apply-reduction-relation R (term 1))",
        "refused S8 UnknownName at 1:27 R\n",
    ),
    ("(term (1 ...))", "refused S9 EllipsisVariable at 1:8\n"),
    ("(define x 1)", "refused S10 RacketEscape at 1:1\n"),
    ("(term ,(list 1))", "refused S10 RacketEscape at 1:8\n"),
];

fn have_their_transcripts<R: Abort + AllocGlobal>(rt: &R, status: Status, rows: &[(&str, &str)]) {
    for (file, text) in rows {
        let wanted = (status, text.as_bytes());
        run_on(rt, &["run"], file.as_bytes(), STEADY, STEADY, wanted);
    }
}

#[test]
fn answered_files_have_their_transcripts(rt: HostRuntime) {
    have_their_transcripts(&rt, Status::Done, &ANSWERED);
}

#[test]
fn unmet_files_have_their_transcripts(rt: HostRuntime) {
    have_their_transcripts(&rt, Status::Unmet, &UNMET);
}

#[test]
fn refused_files_have_their_transcripts(rt: HostRuntime) {
    have_their_transcripts(&rt, Status::Refused, &REFUSED);
}

// A run over so many spaces ends so, and writes this.
fn run_on_spaces<R: Abort + AllocGlobal>(rt: &R, size: usize, wanted: (Status, &[u8])) {
    let table = host_table(rt);
    let words = words_in(rt.alloc(), &["run"]).expect(rt, "words");
    let spaces = vec![in rt.alloc(); b' '; size].expect(rt, "spaces");
    let mut source = SteadySource::new(spaces, 2_000_000);
    let mut sink = MemSink::new(5, Vec::new(rt.alloc()));
    let ended = run(rt.alloc(), &words, &mut source, &mut sink, &table);
    has_written(rt, (ended, sink.written()), wanted);
}

// A file of as many bytes as a file may have, and one of one more.
#[test]
fn a_longer_file_is_refused(rt: HostRuntime) {
    run_on_spaces(&rt, 1_048_576, (Status::Done, b""));
    let refused = b"refused F9 TooLong\n";
    run_on_spaces(&rt, 1_048_577, (Status::Refused, refused));
}

const OPENS: [u8; 498] = [b'('; 498];

const CLOSES: [u8; 498] = [b')'; 498];

const DEEP_FILE: [&[u8]; 10] = [
    b"(define-language L (e (e) ())) (redex-match L ",
    &OPENS,
    &CLOSES,
    b" (term ",
    &OPENS,
    &CLOSES,
    b")) (redex-match L e (term ",
    &OPENS,
    &CLOSES,
    b"))",
];

const DEEP_TEXT: [&[u8]; 4] = [b"match 1\n  -\nmatch 1\n  e = ", &OPENS, &CLOSES, b"\n"];

fn joined(alloc: Global, pieces: &[&[u8]]) -> Result<Vec<u8>, AllocError> {
    let mut bytes = Vec::new(alloc);
    for piece in pieces {
        bytes.extend_from_slice(piece)?;
    }
    Ok(bytes)
}

// Data that nest 500 deep are read, and the deepest terms and patterns in them are matched and
// printed.
#[test]
fn deep_files_fit_the_stack(rt: HostRuntime) {
    let file = joined(rt.alloc(), &DEEP_FILE).expect(&rt, "a file");
    let text = joined(rt.alloc(), &DEEP_TEXT).expect(&rt, "a text");
    let wanted = (Status::Done, text.as_slice());
    run_on(&rt, &["run"], &file, STEADY, STEADY, wanted);
}

// One bracket more is refused.
#[test]
fn a_deeper_file_is_refused(rt: HostRuntime) {
    let brackets = [b'('; 501];
    let line = b"refused F8 TooDeep at 1:501\n".as_slice();
    let wanted = (Status::Refused, line);
    run_on(&rt, &["run"], &brackets, STEADY, STEADY, wanted);
}

// ---- the other rows of the table

const STEPS: &str = "(define-language L (n number))\n\
     (define r (reduction-relation L (--> n ,(add1 (term n)) up))) (stepper r (term 0))";

// Each choice is that of one step, of which there is one from each number.
const STEPPED: [(&[&str], Status, &str); 5] = [
    (&["run"], Status::Done, "step 0 0\n  1 up 1\n"),
    (&["step"], Status::Done, "step 0 0\n  1 up 1\n"),
    (
        &["step", "1"],
        Status::Done,
        "step 0 0\n  1 up 1\nstep 1 1\n  1 up 2\n",
    ),
    (
        &["step", "1", "0"],
        Status::Unmet,
        "step 0 0\n  1 up 1\nstep 1 1\n  1 up 2\nfault NoSuchReduct 0 of 1\n",
    ),
    (
        &["step", "999999999"],
        Status::Unmet,
        "step 0 0\n  1 up 1\nfault NoSuchReduct 999999999 of 1\n",
    ),
];

#[test]
fn walks_go_by_the_choices(rt: HostRuntime) {
    for (words, status, text) in &STEPPED {
        let wanted = (*status, text.as_bytes());
        run_on(&rt, words, STEPS.as_bytes(), STEADY, STEADY, wanted);
    }
}

const NUMBERS: &str = "(define-language N (n z (s n)))";

const NO_Q: &str = "refused S12 NoNonterminal q\n";

// Words, a file, and what is written: the terms of the last language alone, whatever its queries
// would answer.
const LISTED: [(&[&str], &str, Status, &str); 10] = [
    (
        &["terms", "n", "5"],
        NUMBERS,
        Status::Done,
        "terms 3\n  z\n  (s z)\n  (s (s z))\n",
    ),
    (
        &["terms", "n", "1"],
        NUMBERS,
        Status::Done,
        "terms 1\n  z\n",
    ),
    (
        &["terms", "p", "3"],
        "(define-language P (p natural (p p)))",
        Status::Done,
        "terms 6\n  0\n  1\n  (0 0)\n  (0 1)\n  (1 0)\n  (1 1)\n",
    ),
    (
        &["terms", "n", "3"],
        "(define-language M (n 7)) (define-language N (n z (s n)))\n\
         (redex-match M n (term 7))",
        Status::Done,
        "terms 2\n  z\n  (s z)\n",
    ),
    (
        &["terms", "n", "3"],
        "(define-language E (n (n n)))",
        Status::Done,
        "terms 0\n",
    ),
    (&["terms", "q", "5"], NUMBERS, Status::Refused, NO_Q),
    (&["terms", "q", "5"], "", Status::Refused, NO_Q),
    (
        &["terms", "q", "5"],
        "(define-language M (q 7)) (define-language N (n z (s n)))",
        Status::Refused,
        NO_Q,
    ),
    (
        &["terms", "n", "5"],
        "(define-language N (n z (s n))) (redex-match M n (term z))",
        Status::Refused,
        "refused S2 UnknownLanguage at 1:46 M\n",
    ),
    (
        &["terms", "n", "5"],
        "(]",
        Status::Refused,
        "refused F3 WrongClose at 1:2\n",
    ),
];

#[test]
fn terms_are_listed(rt: HostRuntime) {
    for (words, file, status, text) in &LISTED {
        let wanted = (*status, text.as_bytes());
        run_on(&rt, words, file.as_bytes(), STEADY, STEADY, wanted);
    }
}

// The first call of the source fails, and is still to come behind the run.
#[test]
fn the_workload_takes_nothing(rt: HostRuntime) {
    let table = host_table(&rt);
    let words = words_in(rt.alloc(), &["workload", "3"]).expect(&rt, "words");
    let mut source = source(&rt, b"(a)", BROKEN);
    let mut sink = MemSink::new(10_000, Vec::new(rt.alloc()));
    let ended = run(rt.alloc(), &words, &mut source, &mut sink, &table);
    let text = b"workload 3\ntests 3 passed 3 failed 0\n".as_slice();
    has_written(&rt, (ended, sink.written()), (Status::Done, text));
    assert_eq!(rt; source.take(&mut [0u8]), Taken::Failed);
}

// ---- calls of the source and the sink

const UNFIT: [&[&str]; 26] = [
    &[],
    &[""],
    &["trace"],
    &["run", "run"],
    &["run", "1"],
    &["step", "01"],
    &["step", "-1"],
    &["step", "+1"],
    &["step", "1", "x"],
    &["step", "1234567890"],
    &["workload"],
    &["workload", "0"],
    &["workload", "2001"],
    &["workload", "01"],
    &["workload", "1", "2"],
    &["terms"],
    &["terms", "n"],
    &["terms", "5"],
    &["terms", "5", "n"],
    &["terms", "n", "0"],
    &["terms", "n", "41"],
    &["terms", "n", "05"],
    &["terms", "n", "+5"],
    &["terms", "hole", "5"],
    &["terms", "(n)", "5"],
    &["terms", "n", "5", "5"],
];

#[test]
fn words_that_fit_no_row_take_and_put_nothing(rt: HostRuntime) {
    for words in &UNFIT {
        run_on(&rt, words, b"(a)", BROKEN, BROKEN, (Status::Usage, b""));
    }
}

// 79 bytes come in five pieces of 16 at most, and then the end. Whichever of these six calls fails,
// it is the last, although a call behind it would go through.
#[test]
fn a_failed_take_ends_a_run(rt: HostRuntime) {
    for call in 0..7 {
        let takes = Plan {
            piece: 16,
            failing: Some(call),
        };
        let wanted = if call < 6 {
            (Status::ReadFault, b"".as_slice())
        } else {
            (Status::Done, PAIRS_MATCHED.as_bytes())
        };
        run_on(&rt, &["run"], PAIRS.as_bytes(), takes, STEADY, wanted);
    }
}

// 31 bytes are put in eight pieces of 4 at most. Whichever of these calls fails, it is the last.
#[test]
fn a_failed_put_ends_a_run(rt: HostRuntime) {
    for call in 0..9 {
        let puts = Plan {
            piece: 4,
            failing: Some(call),
        };
        let text = PAIRS_MATCHED.as_bytes();
        let wanted = match text.get(..4 * call) {
            Some(front) => (Status::WriteFault, front),
            None => (Status::Done, text),
        };
        run_on(&rt, &["run"], PAIRS.as_bytes(), STEADY, puts, wanted);
    }
}

// A file of 5,000 bytes is taken as 4,096 bytes, 904 bytes and the end, so there are three takes.
#[test]
fn takes_ask_for_a_piece_or_the_rest(rt: HostRuntime) {
    for call in 0..4 {
        let takes = Plan {
            piece: 10_000,
            failing: Some(call),
        };
        let wanted = if call < 3 {
            (Status::ReadFault, b"".as_slice())
        } else {
            (
                Status::Refused,
                b"refused S10 RacketEscape at 1:1\n".as_slice(),
            )
        };
        run_on(&rt, &["run"], &[b'x'; 5000], takes, STEADY, wanted);
    }
}

// Of a text of 9,000 bytes, where this put fails, all or not all is written, and so many bytes are.
fn is_put<R: Abort + AllocGlobal>(rt: &R, failing: usize, wanted: (bool, usize)) {
    let failing = vec![in rt.alloc(); failing].expect(rt, "a plan");
    let mut sink = MemSink::new(10_000, failing);
    let whole = write_text(&mut sink, &[b'x'; 9000]);
    assert_eq!(rt; (whole, sink.written().len()), wanted);
}

// A text of 9,000 bytes is put as 4,096 bytes, 4,096 bytes and 808 bytes: each put is the first that
// fails, and then none is.
#[test]
fn puts_offer_a_piece_or_the_rest(rt: HostRuntime) {
    is_put(&rt, 0, (false, 0));
    is_put(&rt, 1, (false, 4096));
    is_put(&rt, 2, (false, 8192));
    is_put(&rt, 3, (true, 9000));
}

// ---- the words of the program

// A command line of these words.
#[derive(Clone, Copy)]
struct CommandLine<'a>(&'a [&'a [u8]]);

impl Env for CommandLine<'_> {
    fn arg(&self, i: usize, buf: &mut [u8]) -> Result<usize, FillError> {
        let Some(word) = self.0.get(i) else {
            return Err(FillError::NotPresent);
        };
        if word.len() > buf.len() {
            return Err(FillError::TooLong);
        }
        buf[..word.len()].copy_from_slice(word);
        Ok(word.len())
    }

    fn var(&self, _name: &str, _buf: &mut [u8]) -> Result<usize, FillError> {
        Err(FillError::NotPresent)
    }

    fn var_at(&self, _i: usize, _buf: &mut [u8]) -> Result<usize, FillError> {
        Err(FillError::NotPresent)
    }
}

const TWO_WORDS: [&[u8]; 3] = [b"redex", b"run", b""];

#[test]
fn words_stand_behind_the_program(rt: HostRuntime) {
    let words = words_of(&(CommandLine(&TWO_WORDS), rt.alloc())).expect(&rt, "words");
    assert_eq!(rt; words.len(), 2);
    assert_eq!(rt; words[0].as_str(), "run");
    assert_eq!(rt; words[1].as_str(), "");
}

const NO_TEXT: [&[u8]; 2] = [b"redex", b"\xff"];

// How the program ends at these words, where they can't be made.
fn status_without(alloc: Global, words: CommandLine) -> Option<Status> {
    match words_of(&(words, alloc)) {
        Ok(_) => None,
        Err(error) => Some(status_without_words(&error)),
    }
}

#[test]
fn words_that_are_no_text_are_unfit(rt: HostRuntime) {
    let status = status_without(rt.alloc(), CommandLine(&NO_TEXT));
    assert_eq!(rt; status, Some(Status::Usage));
}
