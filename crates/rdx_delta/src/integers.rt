// Arguments that are integers, and what is made of them.
ghost use Rattle.std.specs.Prelude.{◌≡◌, ℤ, Bool, FitsSigned, map};
ghost use Rattle.std.specs.Int.{w128};
ghost use Rattle.std.specs.Option.{SomeIff};
ghost use Rattle.rdx_term.specs.View.{tree_of};
ghost use Rattle.rdx_delta.specs.Delta.{in_range, folded, compared, integers, of_integers};
ghost use Rattle.rdx_delta.specs.Inside.Steps.{one_integer, two_integers, Computes, Tests};
ghost use Rattle.rdx_delta.specs.View.{reply_of};

use crate::HostAnswer;
use rdx_term::Term;

// The one argument, where it is an integer.
pub fn one_integer(args: &[Term]) -> Option<i128>
    ensures { result ≡ one_integer (map tree_of args.now) }
{
    match args {
        [Term::Int(n)] => Some(*n),
        _ => None,
    }
}

// The two arguments, where they are integers.
pub fn two_integers(args: &[Term]) -> Option<(i128, i128)>
    ensures { result ≡ two_integers (map tree_of args.now) }
{
    match args {
        [Term::Int(n), Term::Int(m)] => Some((*n, *m)),
        _ => None,
    }
}

// The value, where it was in range.
pub fn in_range(value: Option<i128>) -> HostAnswer
    ensures { (n : ℤ) → SomeIff value (FitsSigned w128 n) n → reply_of result ≡ in_range n }
{
    match value {
        Some(n) => HostAnswer::Value(Term::Int(n)),
        None => HostAnswer::Overflow,
    }
}

// What the step makes of the start and each argument in turn. That some argument is no integer is
// told before a result that was out of range.
pub fn folded<F: Fn(i128, i128) -> Option<i128>>(args: &[Term], start: i128, step: F) -> HostAnswer
    requires { F.IsAlwaysCallable step }
    ensures { (f : ℤ → ℤ → ℤ) → Computes (F.post step) f
        → reply_of result ≡ of_integers (folded f start) (integers (map tree_of args.now)) }
{
    let mut so_far = Some(start);
    for arg in args {
        let Term::Int(n) = arg else {
            return HostAnswer::HostDomain;
        };
        if let Some(value) = so_far {
            so_far = step(value, *n);
        }
    }
    match so_far {
        Some(value) => HostAnswer::Value(Term::Int(value)),
        None => HostAnswer::Overflow,
    }
}

// Whether each argument but the last stands so to the next; there has to be one argument.
pub fn compared<F: Fn(i128, i128) -> bool>(args: &[Term], holds: F) -> HostAnswer
    requires { F.IsAlwaysCallable holds }
    ensures { (test : ℤ → ℤ → Bool) → Tests (F.post holds) test
        → reply_of result ≡ of_integers (compared test) (integers (map tree_of args.now)) }
{
    let mut all = true;
    let mut last = None;
    for arg in args {
        let Term::Int(n) = arg else {
            return HostAnswer::HostDomain;
        };
        if let Some(before) = last.replace(*n) {
            all &= holds(before, *n);
        }
    }
    match last {
        Some(_) => HostAnswer::Value(Term::Bool(all)),
        None => HostAnswer::HostDomain,
    }
}
