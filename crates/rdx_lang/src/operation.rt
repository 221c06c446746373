// The host operations.

/// An operation of host expressions.
#[derive(Clone, Copy, Debug, PartialEq, Eq)]
pub enum HostOp {
    /// `+`, of integers.
    Add,
    /// `-`: the negative of one integer, or the first less all others.
    Sub,
    /// `*`, of integers.
    Mul,
    /// `quotient` of two integers, cut toward zero.
    Quotient,
    /// `remainder` of two integers, with the sign of the first.
    Remainder,
    /// `add1`: one more.
    Add1,
    /// `sub1`: one less.
    Sub1,
    /// `=`, of integers.
    Eq,
    /// `<`, of integers.
    Lt,
    /// `<=`, of integers.
    Le,
    /// `>`, of integers.
    Gt,
    /// `>=`, of integers.
    Ge,
    /// `zero?`, of an integer.
    IsZero,
    /// `equal?`, of two terms.
    Equal,
    /// `not`, of a term.
    Not,
}

impl HostOp {
    /// All operations, in their order.
    pub const ALL: [HostOp; 15] = [
        HostOp::Add,
        HostOp::Sub,
        HostOp::Mul,
        HostOp::Quotient,
        HostOp::Remainder,
        HostOp::Add1,
        HostOp::Sub1,
        HostOp::Eq,
        HostOp::Lt,
        HostOp::Le,
        HostOp::Gt,
        HostOp::Ge,
        HostOp::IsZero,
        HostOp::Equal,
        HostOp::Not,
    ];
}
