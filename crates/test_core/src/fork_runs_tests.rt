//! Forks on new tables.

use fork_runs::{Point, Turn, fork_on_new_table};
use std::alloc::{AllocError, Global};
use std::process::Abort;
use std::sync::Wait;
use std::test::Fail;

const POINTS: [Point; 4] = [Point::Start, Point::Written, Point::Serve, Point::End];

// For each point, eight bytes of the parent and of the child, as numbers with the highest byte first. The function
// `forked` of tools/forked_vreads.py gave these bytes. If the child ended before the parent, `Start` and `Written`
// would give other bytes.
const FIRST: [(u64, u64); 4] = [
    (0x3acc_f3fd_d01c_f3df, 0x3bdb_3a45_8300_8095),
    (0x3acc_f3fd_d01c_f3df, 0xb4e1_672c_f1f9_470d),
    (0x3acc_f3fd_d01c_f3df, 0x3bdb_3a45_8300_8095),
    (0x3acc_f3fd_d01c_f3df, 0x310a_32cb_a3ab_90c8),
];

const SECOND: [(u64, u64); 4] = [
    (0x4d5f_8dfd_85e2_3373, 0xfd25_14eb_fdbe_7943),
    (0x4d5f_8dfd_85e2_3373, 0xda6f_1264_f9bf_4aec),
    (0x4d5f_8dfd_85e2_3373, 0xad36_22f2_2798_9397),
    (0x4d5f_8dfd_85e2_3373, 0xad36_22f2_2798_9397),
];

fn assert_forks<R: Abort + Wait>(
    rt: &R,
    alloc: Global,
    attempt: Turn,
    rows: [(u64, u64); 4],
) -> Result<(), AllocError> {
    for i in 0..4 {
        let (parent, child) = rows[i];
        let forked = fork_on_new_table(rt, alloc, attempt, POINTS[i], 8)?;
        assert_eq!(rt; forked.parent.as_slice(), parent.to_be_bytes().as_slice());
        assert_eq!(rt; forked.child.as_slice(), child.to_be_bytes().as_slice());
    }
    Ok(())
}

#[test]
fn forks_at_each_point(rt: HostRuntime) -> Result<(), Fail> {
    assert_forks(&rt, rt.alloc(), Turn::First, FIRST)?;
    assert_forks(&rt, rt.alloc(), Turn::Second, SECOND)?;
    Ok(())
}
