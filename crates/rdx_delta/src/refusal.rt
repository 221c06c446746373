// Why entries make no table.
use rdx_lang::HostOp;

/// Why entries make no table.
#[derive(Clone, Copy, Debug, PartialEq, Eq)]
pub enum TableRefusal {
    /// The operation has two entries or more.
    Twice(HostOp),
    /// The operation has no entry.
    Missing(HostOp),
}
