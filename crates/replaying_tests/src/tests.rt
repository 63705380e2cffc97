// The right answers are those of the independent program under reference/.
use replaying::replay;
use std::alloc::Global;
use std::process::Abort;
use std::test::Fail;

// The replay of each stream tells that.
fn all_tell(rt: &impl Abort, heap: Global, table: &[(&[u8], &str)]) -> Result<(), Fail> {
    for (stream, report) in table {
        let told = format!(in heap; "{}", replay(heap, stream))?;
        assert!(rt; told.as_str() == *report);
    }
    Ok(())
}

#[test]
fn right_streams(rt: HostRuntime) -> Result<(), Fail> {
    let table: [(&[u8], &str); 4] = [
        (b"end\n", "0 files, 0 stories, no difference"),
        (
            b"file 9\nV0 1 0 1\n\nkey 36\ntree 0\ncut 0 +0\nmv 0 1000\nres 0 0 1\n\nend\n",
            "1 files, 0 stories, no difference",
        ),
        (
            b"story f64 0\nplace 32 0 4 1 0 3ff0000000000000 0000000000000000\nok\nstep 32 304 3ff0000000000000\nok\nrow 0 0000000000000000 3ff0000000000000\nslip 4 80000000\nreading 0 1000\ntrace 0 3ff0000000000000 3ff0000000000000 3ff0000000000000 1\nend\n",
            "0 files, 1 stories, no difference",
        ),
        (
            b"story res\nplace 32 0 4 1 0 0001 0000\nok\nstep 32 304 0001\nok\nrow 0 0000 0001\nslip 4 80000000\nend\n",
            "0 files, 1 stories, no difference",
        ),
    ];
    all_tell(&rt, rt.alloc(), &table)
}

// A file comes after a story here, so that the two counts differ.
#[test]
fn wrong_keys(rt: HostRuntime) -> Result<(), Fail> {
    let table: [(&[u8], &str); 5] = [
        (
            b"file 9\nV0 1 0 1\n\nkey 36\ntree 0\ncut 0 -0\nmv 0 1000\nres 0 0 1\n\nend\n",
            "file 1, line 6: expected \"cut 0 -0\", found \"cut 0 +0\"",
        ),
        (
            b"file 9\nV0 1 0 1\n\nkey 26\ntree 0\ncut 0 +0\nmv 0 1000\n\nend\n",
            "file 1, line 8: expected \"\", found \"res 0 0 1\"",
        ),
        (
            b"file 9\nV0 1 0 1\n\nkey 46\ntree 0\ncut 0 +0\nmv 0 1000\nres 0 0 1\nres 1 0 0\n\nend\n",
            "file 1, line 9: expected \"res 1 0 0\", found \"\"",
        ),
        (
            b"file 9\nV0 1 0 1\n\nkey 37\ntree 0\ncut 0 +0\nmv 0 1000\nres 0 0 1\n\nend\n",
            "file 1, line 9: expected \"key 37\", found \"key 36\"",
        ),
        (
            b"story res\nslip 4 00000000\nfile 9\nV0 1 0 1\n\nkey 35\ntree 0\ncut 0 +0\nmv 0 1000\nres 0 0 1\n\nend\n",
            "file 1, line 11: expected \"key 35\", found \"key 36\"",
        ),
    ];
    all_tell(&rt, rt.alloc(), &table)
}

#[test]
fn wrong_answers(rt: HostRuntime) -> Result<(), Fail> {
    let table: [(&[u8], &str); 9] = [
        (
            b"story res\nlift 32 0\nok\n",
            "story 1, line 3: expected \"ok\", found \"refused 4\"",
        ),
        (
            b"story res\nlift 32 0\nrefused 40\n",
            "story 1, line 3: expected \"refused 40\", found \"refused 4\"",
        ),
        (
            b"story res\nplace 32 0 4 1 0 0001 0000\nok\nstep 32 304 0001\nok\nrow 0 0000 0002\n",
            "story 1, line 6: expected \"row 0 0000 0002\", found \"row 0 0000 0001\"",
        ),
        (
            b"story res\nplace 32 0 4 1 0 0001 0000\nok\nstep 32 304 0001\nok\nrow 0 0000 000\n",
            "story 1, line 6: expected \"row 0 0000 000\", found \"row 0 0000 0001\"",
        ),
        (
            b"story res\nplace 32 0 4 1 0 0001 0000\nok\nstep 32 304 0001\nok\nslip 4 80000000\n",
            "story 1, line 6: expected \"slip 4 80000000\", found \"row 0 0000 0001\"",
        ),
        (
            b"story res\nplace 32 0 4 1 0 0001 0000\nok\nplace 32 1 4 1 0 0001 0000\nok\nslip refused 12 00000003 00000002\n",
            "story 1, line 6: expected \"slip refused 12 00000003 00000002\", found \"slip refused 12 00000003 00000001\"",
        ),
        (
            b"story res\nslip 4 00000001\n",
            "story 1, line 2: expected \"slip 4 00000001\", found \"slip 4 00000000\"",
        ),
        (
            b"story f64 0\nplace 32 0 4 1 0 3ff0000000000000 0000000000000000\nok\nslip 4 80000000\nreading 0 1\n",
            "story 1, line 5: expected \"reading 0 1\", found \"reading 0 0\"",
        ),
        (
            b"story f64 0\nplace 32 0 4 1 0 3ff0000000000000 0000000000000000\nok\nstep 32 304 3ff0000000000000\nok\nrow 0 0000000000000000 3ff0000000000000\nslip 4 80000000\nreading 0 1000\ntrace 0 3ff0000000000000 3ff0000000000000 3ff0000000000000 2\n",
            "story 1, line 9: expected \"trace 0 3ff0000000000000 3ff0000000000000 3ff0000000000000 2\", found \"trace 0 3ff0000000000000 3ff0000000000000 3ff0000000000000 1\"",
        ),
    ];
    all_tell(&rt, rt.alloc(), &table)
}

#[test]
fn no_parts(rt: HostRuntime) -> Result<(), Fail> {
    let table: [(&[u8], &str); 12] = [
        (b"", "stream, line 0: no such line is in a stream"),
        (b"end", "stream, line 0: no such line is in a stream"),
        (b"end\nend\n", "stream, line 1: no such line is in a stream"),
        (b"ending\n", "story 1, line 1: no such line is in a stream"),
        (
            b"files 0\n\n",
            "story 1, line 1: no such line is in a stream",
        ),
        (
            b"file 9 \nV0 1 0 1\n\n",
            "file 1, line 1: no such line is in a stream",
        ),
        (
            b"file 10\nV0 1 0 1\n\n",
            "file 1, line 1: no such line is in a stream",
        ),
        (
            b"file 9\nV0 1 0 1\n\nkay 36\ntree 0\ncut 0 +0\nmv 0 1000\nres 0 0 1\n\nend\n",
            "file 1, line 4: no such line is in a stream",
        ),
        (
            b"story f32\nslip 4 00000000\n",
            "story 1, line 1: no such line is in a stream",
        ),
        (
            b"story res 0\nslip 4 00000000\n",
            "story 1, line 1: no such line is in a stream",
        ),
        (
            b"story f64\nslip 4 00000000\n",
            "story 1, line 1: no such line is in a stream",
        ),
        (
            b"story res\nslip 4 00000000\n",
            "story 1, line 2: no such line is in a stream",
        ),
    ];
    all_tell(&rt, rt.alloc(), &table)
}

// Each is followed by the answer of a call that it might be taken for.
#[test]
fn no_calls(rt: HostRuntime) -> Result<(), Fail> {
    let table: [(&[u8], &str); 10] = [
        (
            b"story res\nblank 34\nrefused 1\n",
            "story 1, line 2: no such line is in a stream",
        ),
        (
            b"story res\nblank 4294967328\nok\n",
            "story 1, line 2: no such line is in a stream",
        ),
        (
            b"story res\nblank 32 0\nok\n",
            "story 1, line 2: no such line is in a stream",
        ),
        (
            b"story res\nblank  32\nok\n",
            "story 1, line 2: no such line is in a stream",
        ),
        (
            b"story res\nlift 32 \nrefused 4\n",
            "story 1, line 2: no such line is in a stream",
        ),
        (
            b"story res\nraise 32 0\nrefused 4\n",
            "story 1, line 2: no such line is in a stream",
        ),
        (
            b"story res\nset 32 0 001\nrefused 4\n",
            "story 1, line 2: no such line is in a stream",
        ),
        (
            b"story res\nset 32 0 00001\nrefused 4\n",
            "story 1, line 2: no such line is in a stream",
        ),
        (
            b"story res\nset 32 0 00A0\nrefused 4\n",
            "story 1, line 2: no such line is in a stream",
        ),
        (
            b"story res\nstep 32 513 0001\nok\n",
            "story 1, line 2: no such line is in a stream",
        ),
    ];
    all_tell(&rt, rt.alloc(), &table)
}
