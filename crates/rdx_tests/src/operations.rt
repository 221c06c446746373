// The table of host operations, and entries that make none.
use rdx_delta::{
    HostEntry, HostTable, TableRefusal, host_add, host_add1, host_eq, host_equal, host_ge, host_gt,
    host_is_zero, host_le, host_lt, host_mul, host_not, host_quotient, host_remainder, host_sub,
    host_sub1,
};
use rdx_lang::HostOp;
use std::alloc::{AllocFailed, Global};
use std::process::Abort;

// The functions of `rdx_delta`.
fn entries(alloc: Global) -> Result<Vec<HostEntry>, AllocFailed<[HostEntry; 15]>> {
    Vec::from_array(
        alloc,
        [
            HostEntry::new(HostOp::Add, host_add),
            HostEntry::new(HostOp::Sub, host_sub),
            HostEntry::new(HostOp::Mul, host_mul),
            HostEntry::new(HostOp::Quotient, host_quotient),
            HostEntry::new(HostOp::Remainder, host_remainder),
            HostEntry::new(HostOp::Add1, host_add1),
            HostEntry::new(HostOp::Sub1, host_sub1),
            HostEntry::new(HostOp::Eq, host_eq),
            HostEntry::new(HostOp::Lt, host_lt),
            HostEntry::new(HostOp::Le, host_le),
            HostEntry::new(HostOp::Gt, host_gt),
            HostEntry::new(HostOp::Ge, host_ge),
            HostEntry::new(HostOp::IsZero, host_is_zero),
            HostEntry::new(HostOp::Equal, host_equal),
            HostEntry::new(HostOp::Not, host_not),
        ],
    )
}

// Their table.
pub(crate) fn host_table<R: Abort + AllocGlobal>(rt: &R) -> HostTable {
    let entries = entries(rt.alloc()).expect(rt, "entries");
    HostTable::new(entries).expect(rt, "a table")
}

#[test]
fn no_entry(rt: HostRuntime) {
    let refused = HostTable::new(Vec::new(rt.alloc())).err();
    assert!(rt; refused == Some(TableRefusal::Missing(HostOp::Add)));
}

#[test]
fn two_entries_of_one_operation(rt: HostRuntime) {
    let entries = Vec::from_array(
        rt.alloc(),
        [
            HostEntry::new(HostOp::Add, host_add),
            HostEntry::new(HostOp::Add, host_add),
        ],
    );
    let refused = HostTable::new(entries.expect(&rt, "two entries")).err();
    assert!(rt; refused == Some(TableRefusal::Twice(HostOp::Add)));
}
