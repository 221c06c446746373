// The operations on terms of any kind.
ghost use Rattle.std.specs.Prelude.{◌≡◌, map};
ghost use Rattle.rdx_term.specs.View.{tree_of};
ghost use Rattle.rdx_lang.specs.declared.operation.HostOp.TheVariants.{Equal, Not};
ghost use Rattle.rdx_delta.specs.Delta.{delta};
ghost use Rattle.rdx_delta.specs.View.{reply_of};

use crate::HostAnswer;
use rdx_term::Term;

/// Whether two terms are equal but for their marks.
pub fn host_equal(args: &[Term]) -> HostAnswer
    ensures { reply_of result ≡ delta Equal (map tree_of args.now) }
{
    match args {
        [t, u] => HostAnswer::Value(Term::Bool(t.same_bare(u))),
        _ => HostAnswer::HostDomain,
    }
}

/// True for false, and false for any other term.
pub fn host_not(args: &[Term]) -> HostAnswer
    ensures { reply_of result ≡ delta Not (map tree_of args.now) }
{
    match args {
        [Term::Bool(false)] => HostAnswer::Value(Term::Bool(true)),
        [_] => HostAnswer::Value(Term::Bool(false)),
        _ => HostAnswer::HostDomain,
    }
}
