// Host expressions in queries, and forms that are one.
ghost use Rattle.std.specs.Prelude.{[]};
ghost use Rattle.rdx_patterns.specs.Readable.{IsReadable};
ghost use Rattle.rdx_templates.specs.Answers.{ReadsHost};
ghost use Rattle.rdx_templates.specs.Scope.{scope_of};

use rdx_lang::HostExpr;
use rdx_patterns::DefFault;
use rdx_sexp::Datum;
use rdx_templates::{Scope, read_host};
use std::alloc::Global;

/// The host expression of a datum in a file of this scope, where no name is bound.
pub fn read_unbound(alloc: Global, scope: &Scope, d: &Datum) -> Result<HostExpr, DefFault>
    requires { IsReadable d.now }
    ensures { ReadsHost (scope_of scope.now) [] d.now result }
{
    read_host(alloc, scope, &[], d)
}
