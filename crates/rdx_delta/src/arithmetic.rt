// The operations that answer an integer.
ghost use Rattle.std.specs.Prelude.{◌≡◌, pos, int_div, false, FitsSigned, map};
ghost use Rattle.std.specs.Int.{w128};
ghost use Rattle.std.specs.Option.{SomeIff};
ghost use Rattle.std.specs.Ordering.{int_eq};
ghost use Rattle.rdx_term.specs.View.{tree_of};
ghost use Rattle.rdx_lang.specs.declared.operation.HostOp.TheVariants.{Add, Sub, Mul, Quotient, Remainder, Add1, Sub1};
ghost use Rattle.rdx_delta.specs.Delta.{delta};
ghost use Rattle.rdx_delta.specs.View.{reply_of};

use crate::HostAnswer;
use crate::integers::{folded, in_range, one_integer, two_integers};
use rdx_term::Term;

/// The sum of integers; 0 for no argument.
pub fn host_add(args: &[Term]) -> HostAnswer
    ensures { reply_of result ≡ delta Add (map tree_of args.now) }
{
    folded(args, 0, |sum, n| sum.checked_add(n))
}

/// The negative of one integer, or the first less all others.
pub fn host_sub(args: &[Term]) -> HostAnswer
    ensures { reply_of result ≡ delta Sub (map tree_of args.now) }
{
    if let Some(n) = one_integer(args) {
        return in_range(n.checked_neg());
    }
    match args.split_first() {
        Some((Term::Int(n), others)) => folded(others, *n, |left, m| left.checked_sub(m)),
        _ => HostAnswer::HostDomain,
    }
}

/// The product of integers; 1 for no argument.
pub fn host_mul(args: &[Term]) -> HostAnswer
    ensures { reply_of result ≡ delta Mul (map tree_of args.now) }
{
    folded(args, 1, |product, n| product.checked_mul(n))
}

/// The quotient of two integers, cut toward zero.
pub fn host_quotient(args: &[Term]) -> HostAnswer
    ensures { reply_of result ≡ delta Quotient (map tree_of args.now) }
{
    match two_integers(args) {
        Some((n, d)) if d != 0 => in_range(quotient(n, d)),
        Some(_) => HostAnswer::DivideByZero,
        None => HostAnswer::HostDomain,
    }
}

// The quotient by a divisor other than 0, where it is in range.
fn quotient(n: i128, d: i128) -> Option<i128>
    requires { int_eq d (pos 0) ≡ false }
    ensures { SomeIff result (FitsSigned w128 (int_div n d)) (int_div n d) }
{
    n.checked_div(d)
}

/// The remainder of two integers, with the sign of the first.
pub fn host_remainder(args: &[Term]) -> HostAnswer
    ensures { reply_of result ≡ delta Remainder (map tree_of args.now) }
{
    match two_integers(args) {
        Some((n, d)) if d != 0 => HostAnswer::Value(Term::Int(n.wrapping_rem(d))),
        Some(_) => HostAnswer::DivideByZero,
        None => HostAnswer::HostDomain,
    }
}

/// One more than the integer.
pub fn host_add1(args: &[Term]) -> HostAnswer
    ensures { reply_of result ≡ delta Add1 (map tree_of args.now) }
{
    match one_integer(args) {
        Some(n) => in_range(n.checked_add(1)),
        None => HostAnswer::HostDomain,
    }
}

/// One less than the integer.
pub fn host_sub1(args: &[Term]) -> HostAnswer
    ensures { reply_of result ≡ delta Sub1 (map tree_of args.now) }
{
    match one_integer(args) {
        Some(n) => in_range(n.checked_sub(1)),
        None => HostAnswer::HostDomain,
    }
}
