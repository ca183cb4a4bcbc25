//! Sinks and inputs that fail.

use crate::support::{
    COMPILE, Faults, NONE, RUN, TWO_CLICKS, WORLD, by, call, is_refused, lever_and_lamp_file,
    writes,
};
use redpile_top::Status;
use std::alloc::Global;
use std::process::Abort;
use std::test::Fail;

/// The second piece fails: the header was written.
#[test]
fn failing_write(rt: HostRuntime) -> Result<(), Fail> {
    let alloc = rt.alloc();
    let build = lever_and_lamp_file(alloc)?;
    for words in [RUN, WORLD] {
        let outcome = by(
            alloc,
            words,
            &build,
            TWO_CLICKS,
            Faults { out: &[1], ..NONE },
        )?;
        assert_eq!(rt; outcome.status, Status::WriteFault);
        assert_eq!(rt;
            outcome.out.as_slice(),
            b"outputs 1\n2 0 0 lamp\n".as_slice()
        );
        assert_eq!(rt;
            outcome.err.as_slice(),
            b"redpile: write fault\n".as_slice()
        );
    }
    Ok(())
}

/// Asserts that whichever byte of a text of this length fails, those before it were written.
fn fails_at_each_byte(
    rt: &impl Abort,
    alloc: Global,
    words: &[&str],
    length: usize,
) -> Result<(), Fail> {
    let build = lever_and_lamp_file(alloc)?;
    let text = by(alloc, words, &build, TWO_CLICKS, NONE)?.out;
    assert_eq!(rt; text.len(), length, "{words:?}");
    for byte in 0..=length {
        let out = &[byte as u64];
        let faults = Faults {
            out,
            chunk: 1,
            ..NONE
        };
        let outcome = by(alloc, words, &build, TWO_CLICKS, faults)?;
        if byte < length {
            assert_eq!(rt; outcome.status, Status::WriteFault, "at {byte}");
            assert!(rt; outcome.out.as_slice() == &text[..byte], "at {byte}");
            assert_eq!(rt;
                outcome.err.as_slice(),
                b"redpile: write fault\n".as_slice()
            );
        } else {
            writes(rt, &outcome, &text);
            assert_eq!(rt; outcome.written, length as u64);
        }
    }
    Ok(())
}

#[test]
fn write_fails_at_each_byte(rt: HostRuntime) -> Result<(), Fail> {
    fails_at_each_byte(&rt, rt.alloc(), RUN, 103)?;
    fails_at_each_byte(&rt, rt.alloc(), WORLD, 78)?;
    fails_at_each_byte(&rt, rt.alloc(), COMPILE, 71)?;
    fails_at_each_byte(&rt, rt.alloc(), &["bench", "1"], 48)
}

/// Whichever read fails, nothing was written.
#[test]
fn read_fails_at_each_call(rt: HostRuntime) -> Result<(), Fail> {
    let alloc = rt.alloc();
    let build = lever_and_lamp_file(alloc)?;
    for words in [RUN, WORLD, COMPILE] {
        let reads = by(alloc, words, &build, TWO_CLICKS, NONE)?.read;
        assert_eq!(rt; reads, 4);
        for read in 0..reads {
            let read = &[read];
            let outcome = by(alloc, words, &build, TWO_CLICKS, Faults { read, ..NONE })?;
            let line = b"redpile: read fault\n";
            assert!(rt;
                is_refused(&outcome, Status::ReadFault, line),
                "at {read:?}"
            );
        }
        let read = &[reads];
        let outcome = by(alloc, words, &build, TWO_CLICKS, Faults { read, ..NONE })?;
        assert_eq!(rt; outcome.status, Status::Done);
    }
    Ok(())
}

/// The first read fails, and no name is asked that the words don't have.
#[test]
fn outside_faults(rt: HostRuntime) -> Result<(), Fail> {
    let alloc = rt.alloc();
    for words in [RUN, WORLD] {
        let outcome = call(alloc, words, &[], Faults { read: &[0], ..NONE })?;
        let line = b"redpile: read fault\n";
        assert!(rt; is_refused(&outcome, Status::ReadFault, line));
        let build = lever_and_lamp_file(alloc)?;
        let outcome = by(
            alloc,
            words,
            &build,
            TWO_CLICKS,
            Faults { watch: "c", ..NONE },
        )?;
        assert_eq!(rt; outcome.status, Status::Done);
        assert_eq!(rt; outcome.watched, 0);
    }
    Ok(())
}

/// A fault of the line that tells of a fault changes nothing.
#[test]
fn fault_line_that_fails(rt: HostRuntime) -> Result<(), Fail> {
    let err = &[0, 1];
    for words in [RUN, WORLD, COMPILE] {
        let file = b"\x1f\x8b\x08";
        let outcome = by(rt.alloc(), words, file, b"tick 1", Faults { err, ..NONE })?;
        assert_eq!(rt; outcome.status, Status::BadBuild);
        assert_eq!(rt; outcome.out.len(), 0);
        assert_eq!(rt; outcome.err.len(), 0);
    }
    Ok(())
}
