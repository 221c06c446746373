// The operations of host expressions: how they are written, and how many arguments each takes.
ghost use Rattle.std.specs.Prelude.{◌≡◌};
ghost use Rattle.rdx_delta.specs.Operations as model;

use rdx_lang::HostOp;

/// How the operation is written.
pub fn operation_text(op: HostOp) -> &'static str
    ensures { result.now ≡ model.operation_text op }
{
    match op {
        HostOp::Add => "+",
        HostOp::Sub => "-",
        HostOp::Mul => "*",
        HostOp::Quotient => "quotient",
        HostOp::Remainder => "remainder",
        HostOp::Add1 => "add1",
        HostOp::Sub1 => "sub1",
        HostOp::Eq => "=",
        HostOp::Lt => "<",
        HostOp::Le => "<=",
        HostOp::Gt => ">",
        HostOp::Ge => ">=",
        HostOp::IsZero => "zero?",
        HostOp::Equal => "equal?",
        HostOp::Not => "not",
    }
}

/// The operation that is written so.
pub fn operation_named(text: &str) -> Option<HostOp>
    ensures { result ≡ model.operation_named text.now }
{
    for op in &HostOp::ALL {
        if text == operation_text(*op) {
            return Some(*op);
        }
    }
    None
}

/// Whether the operation takes so many arguments.
pub fn takes(op: HostOp, count: usize) -> bool
    ensures { result ≡ model.takes op count }
{
    match op {
        HostOp::Add | HostOp::Mul => true,
        HostOp::Sub | HostOp::Eq | HostOp::Lt | HostOp::Le | HostOp::Gt | HostOp::Ge => count > 0,
        HostOp::Quotient | HostOp::Remainder | HostOp::Equal => count == 2,
        HostOp::Add1 | HostOp::Sub1 | HostOp::IsZero | HostOp::Not => count == 1,
    }
}
