// The operations that compare integers.
ghost use Rattle.std.specs.Prelude.{◌≡◌, map};
ghost use Rattle.rdx_term.specs.View.{tree_of};
ghost use Rattle.rdx_lang.specs.declared.operation.HostOp.TheVariants.{Eq, Lt, Le, Gt, Ge, IsZero};
ghost use Rattle.rdx_delta.specs.Delta.{delta};
ghost use Rattle.rdx_delta.specs.View.{reply_of};

use crate::HostAnswer;
use crate::integers::{compared, one_integer};
use rdx_term::Term;

/// Whether all integers are equal, of which there has to be one.
pub fn host_eq(args: &[Term]) -> HostAnswer
    ensures { reply_of result ≡ delta Eq (map tree_of args.now) }
{
    compared(args, |n, m| n == m)
}

/// Whether each integer is below the next.
pub fn host_lt(args: &[Term]) -> HostAnswer
    ensures { reply_of result ≡ delta Lt (map tree_of args.now) }
{
    compared(args, |n, m| n < m)
}

/// Whether each integer is at most the next.
pub fn host_le(args: &[Term]) -> HostAnswer
    ensures { reply_of result ≡ delta Le (map tree_of args.now) }
{
    compared(args, |n, m| n <= m)
}

/// Whether each integer is above the next.
pub fn host_gt(args: &[Term]) -> HostAnswer
    ensures { reply_of result ≡ delta Gt (map tree_of args.now) }
{
    compared(args, |n, m| n > m)
}

/// Whether each integer is at least the next.
pub fn host_ge(args: &[Term]) -> HostAnswer
    ensures { reply_of result ≡ delta Ge (map tree_of args.now) }
{
    compared(args, |n, m| n >= m)
}

/// Whether the integer is 0.
pub fn host_is_zero(args: &[Term]) -> HostAnswer
    ensures { reply_of result ≡ delta IsZero (map tree_of args.now) }
{
    match one_integer(args) {
        Some(n) => HostAnswer::Value(Term::Bool(n == 0)),
        None => HostAnswer::HostDomain,
    }
}
