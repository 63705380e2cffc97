use printed_key::{printed_key, whole_key};
use std::alloc::{AllocError, Global};
use std::process::Abort;
use std::test::Fail;

// Each input has that text as its key.
fn all_print<F: Fn(Global, &[u8]) -> Result<String, AllocError>>(
    rt: &impl Abort,
    heap: Global,
    table: &[(&[u8], &[u8])],
    key_of: F,
) -> Result<(), Fail>
    requires { F.IsAlwaysCallable key_of }
{
    for (input, text) in table {
        let key = key_of(heap, input)?;
        assert!(rt; key.as_bytes() == *text);
    }
    Ok(())
}

// The same of both keys.
fn both_print(rt: &impl Abort, heap: Global, table: &[(&[u8], &[u8])]) -> Result<(), Fail> {
    all_print(rt, heap, table, printed_key)?;
    all_print(rt, heap, table, whole_key)
}

#[test]
fn trees_loops_and_cuts(rt: HostRuntime) -> Result<(), Fail> {
    let table: [(&[u8], &[u8]); 8] = [
        (
            b"V0 1 0 6\nR1 1 2 2\nC2 2 0 1\n",
            b"tree 0 2\nloop 1 -0 +1 +2\ncut 0 +0 +1\ncut 2 -1 +2\n",
        ),
        (b"", b"tree\n"),
        (b"\n   \n* only a comment\n  * and another", b"tree\n"),
        (
            b"L0 1 2 1\nL1 1 4 1\nR2 3 4 1\nC3 2 3 1\nR4 2 3 1",
            b"tree 0 2 3\nloop 1 -0 +1 -2 -3\nloop 4 -3 +4\ncut 0 +0 +1\ncut 2 +1 +2\ncut 3 +1 +3 +4\n",
        ),
        (b"  V000000  1 000015  -6/000003  \n", b"tree 0\ncut 0 +0\n"),
        (b"C31 0 1 1 -0\n", b"tree 31\ncut 31 +31\n"),
        (
            b"V0 1 0 10\nR1 1 2 100\nR2 1 3 220\nR3 2 3 470\nR4 2 0 330\nR5 3 0 150\n",
            b"tree 0 1 2\nloop 3 +1 -2 +3\nloop 4 -0 +1 +4\nloop 5 -0 +2 +5\ncut 0 +0 +4 +5\ncut 1 +1 -3 -4\ncut 2 +2 +3 -5\n",
        ),
        (
            b"I3 5 4 1\nR7 4 5 2\nL9 5 4 3\nC1 4 5 1\n",
            b"tree 1\nloop 3 +1 +3\nloop 7 -1 +7\nloop 9 +1 +9\ncut 1 +1 -3 +7 -9\n",
        ),
    ];
    all_print(&rt, rt.alloc(), &table, printed_key)
}

#[test]
fn keys(rt: HostRuntime) -> Result<(), Fail> {
    let table: [(&[u8], &[u8]); 8] = [
        (
            b"V0 1 0 6\nR1 1 2 2\nC2 2 0 1\n",
            b"tree 0 2\nloop 1 -0 +1 +2\ncut 0 +0 +1\ncut 2 -1 +2\nmv 0 6000\nmv 1 4000\nmv 2 2000\nres 0 8189 6\nres 1 2 4\nres 2 2 2\n",
        ),
        (b"", b"tree\n"),
        (b"\n   \n* only a comment\n  * and another", b"tree\n"),
        (
            b"L0 1 2 1\nL1 1 4 1\nR2 3 4 1\nC3 2 3 1\nR4 2 3 1",
            b"tree 0 2 3\nloop 1 -0 +1 -2 -3\nloop 4 -3 +4\ncut 0 +0 +1\ncut 2 +1 +2\ncut 3 +1 +3 +4\nmv 0 0\nmv 1 0\nmv 2 0\nmv 3 0\nmv 4 0\nres 0 0 0\nres 1 0 0\nres 2 0 0\nres 3 0 0\nres 4 0 0\n",
        ),
        (
            b"  V000000  1 000015  -6/000003  \n",
            b"tree 0\ncut 0 +0\nmv 0 -2000\nres 0 0 8189\n",
        ),
        (
            b"C31 0 1 1 -0\n",
            b"tree 31\ncut 31 +31\nmv 31 0\nres 31 0 0\n",
        ),
        (
            b"V0 1 0 10\nR1 1 2 100\nR2 1 3 220\nR3 2 3 470\nR4 2 0 330\nR5 3 0 150\n",
            b"tree 0 1 2\nloop 3 +1 -2 +3\nloop 4 -0 +1 +4\nloop 5 -0 +2 +5\ncut 0 +0 +4 +5\ncut 1 +1 -3 -4\ncut 2 +2 +3 -5\nmv 0 10000\nmv 1 2762\nmv 2 5438\nmv 3 2676\nmv 4 7238\nmv 5 4562\nres 0 1378 10\nres 1 3990 5832\nres 2 2823 6735\nres 3 3958 903\nres 4 32 2369\nres 5 6781 1466\n",
        ),
        (
            b"I3 5 4 1\nR7 4 5 2\nL9 5 4 3\nC1 4 5 1\n",
            b"tree 1\nloop 3 +1 +3\nloop 7 -1 +7\nloop 9 +1 +9\ncut 1 +1 -3 +7 -9\nmv 1 545\nmv 3 -545\nmv 7 545\nmv 9 -545\nres 1 5213 5213\nres 3 1 2978\nres 7 6702 5213\nres 9 3723 2978\n",
        ),
    ];
    all_print(&rt, rt.alloc(), &table, whole_key)
}

#[test]
fn refused_trees(rt: HostRuntime) -> Result<(), Fail> {
    let table: [(&[u8], &[u8]); 4] = [
        (b"V0 1 0 6\nV1 1 0 5\n", b"refused 12 -0 +1\n"),
        (b"V3 1 0 6\nV1 0 2 5\nV7 1 2 1\n", b"refused 12 -1 -3 +7\n"),
        (b"I0 1 0 1\nI1 0 1 1\n", b"refused 13 +0 -1\n"),
        (b"R9 2 3 1\nI4 1 2 1\nI5 3 1 1\n", b"refused 13 +4 -5\n"),
    ];
    both_print(&rt, rt.alloc(), &table)
}

#[test]
fn faults(rt: HostRuntime) -> Result<(), Fail> {
    let table: [(&[u8], &[u8]); 21] = [
        (b"   R1 1 1 2", b"refused 7 line 1 byte 1\n"),
        (b"V0 1 0 6\r", b"refused 22 line 1 byte 8\n"),
        (b"* c\n\nV", b"refused 22 line 3 byte 2\n"),
        (b"V 1 0 6", b"refused 22 line 1 byte 2\n"),
        (b"V0  ", b"refused 22 line 1 byte 5\n"),
        (b"v0 1 0 6", b"refused 21 line 1 byte 1\n"),
        (b"R0 1 0 -0", b"refused 22 line 1 byte 8\n"),
        (b"R0 1 0 1234567", b"refused 22 line 1 byte 8\n"),
        (b"V0 1 0 1.5", b"refused 22 line 1 byte 8\n"),
        (b"V0 1 0 1/", b"refused 22 line 1 byte 8\n"),
        (b"V0 1/2 0 1", b"refused 22 line 1 byte 4\n"),
        (b"C0 1 2 1/0 x", b"refused 23 line 1 byte 8\n"),
        (b"V0 1 0 -0/0", b"refused 23 line 1 byte 8\n"),
        (b"R99 1 1 0 j", b"refused 24 line 1 byte 11\n"),
        (b"C0 1 2 1 *", b"refused 22 line 1 byte 10\n"),
        (b"V0 16 16 1", b"refused 6 line 1 byte 1\n"),
        (b"V40 1 1 5/0", b"refused 23 line 1 byte 9\n"),
        (b"R1 1 2 1\nR1 1 2 1", b"refused 3 line 2 byte 1\n"),
        (b"R32 1 2 1", b"refused 2 line 1 byte 1\n"),
        (b"R0 1 2 0", b"refused 8 line 1 byte 1\n"),
        (b"R0\t1 2 3", b"refused 22 line 1 byte 2\n"),
    ];
    both_print(&rt, rt.alloc(), &table)
}

// A refusal in place of one block leaves the other; no reading is `-0`.
#[test]
fn steps(rt: HostRuntime) -> Result<(), Fail> {
    let table: [(&[u8], &[u8]); 7] = [
        (
            b"R0 1 0 1\nR1 1 0 8190\n",
            b"tree 0\nloop 1 -0 +1\ncut 0 +0 +1\nmv 0 0\nmv 1 0\nrefused 14\n",
        ),
        (
            b"V0 1 0 1/8191\n",
            b"tree 0\ncut 0 +0\nmv 0 0\nrefused 23 line 1 byte 8\n",
        ),
        (
            b"R2 1 0 8191\n",
            b"tree 2\ncut 2 +2\nmv 2 0\nrefused 8 line 1 byte 1\n",
        ),
        (
            b"I0 1 0 999999\nR1 1 0 999999\n",
            b"tree 1\nloop 0 +0 -1\ncut 1 +0 +1\nrefused 18\nres 0 697 5651\nres 1 7494 5651\n",
        ),
        (
            b"I0 1 0 999999\nR1 1 0 8191\n",
            b"tree 1\nloop 0 +0 -1\ncut 1 +0 +1\nrefused 18\nrefused 8 line 2 byte 1\n",
        ),
        (
            b"V0 1 0 -1/2000\n",
            b"tree 0\ncut 0 +0\nmv 0 -1\nres 0 0 3731\n",
        ),
        (
            b"V0 1 0 -1/3000\n",
            b"tree 0\ncut 0 +0\nmv 0 0\nres 0 0 7948\n",
        ),
    ];
    all_print(&rt, rt.alloc(), &table, whole_key)
}

// 4,096 bytes are read; one more is too long, whatever they are.
#[test]
fn lengths(rt: HostRuntime) -> Result<(), Fail> {
    let table: [(&[u8], &[u8]); 2] = [(&[b' '; 4096], b"tree\n"), (&[b' '; 4097], b"refused 25\n")];
    both_print(&rt, rt.alloc(), &table)
}
