//! Sources and sinks, and how a file is read whole.

use rp_io::{
    Calls, CountSink, Failed, FileInputs, Files, Inputs, MemInputs, MemSink, ReadFailed,
    ReadRefusal, Sink, StdSink, SureInputs, WriteFault, put_all, read_whole,
};
use rp_text::Raw;
use std::alloc::{AllocError, Global};
use std::test::Fail;

fn raw(alloc: Global, bytes: &[u8]) -> Result<Raw, AllocError> {
    Ok(Raw {
        items: bytes.to_vec(alloc)?,
    })
}

/// The file `one` with ten digits, an empty file, and a second `one` behind them.
fn some_files(alloc: Global) -> Result<Files, AllocError> {
    let mut items = Vec::new(alloc);
    items.push((raw(alloc, b"one")?, raw(alloc, b"0123456789")?))?;
    items.push((raw(alloc, b"empty")?, raw(alloc, b"")?))?;
    items.push((raw(alloc, b"one")?, raw(alloc, b"other")?))?;
    Ok(Files { items })
}

fn calls(alloc: Global, numbers: &[u64]) -> Result<Calls, AllocError> {
    Ok(Calls {
        items: numbers.to_vec(alloc)?,
    })
}

fn some_inputs(alloc: Global, failing: &[u64]) -> Result<MemInputs, AllocError> {
    Ok(MemInputs::new(
        some_files(alloc)?,
        calls(alloc, failing)?,
        raw(alloc, b"one")?,
    ))
}

fn small_sink(alloc: Global, room: usize, failing: &[u64]) -> Result<MemSink, Fail> {
    Ok(MemSink::new(alloc, room, 3, calls(alloc, failing)?)?)
}

fn is_whole(answer: Result<Vec<u8>, ReadRefusal>, bytes: &[u8]) -> bool {
    match answer {
        Ok(whole) => whole.as_slice() == bytes,
        Err(_) => false,
    }
}

/// A piece of a file comes into the front of the buffer, and none at the file's end or past it.
#[test]
fn memory_inputs_read(rt: HostRuntime) -> Result<(), Fail> {
    let mut inputs = some_inputs(rt.alloc(), &[])?;
    let mut into = *b"....";
    assert_eq!(rt; inputs.read_at("one", 0, &mut into), Ok(4));
    assert_eq!(rt; into.as_slice(), b"0123".as_slice());
    assert_eq!(rt; inputs.read_at("one", 8, &mut into), Ok(2));
    assert_eq!(rt; into.as_slice(), b"8923".as_slice());
    assert_eq!(rt; inputs.read_at("one", 10, &mut into), Ok(0));
    assert_eq!(rt; inputs.read_at("one", 268_435_456, &mut into), Ok(0));
    assert_eq!(rt; inputs.read_at("empty", 0, &mut into), Ok(0));
    assert_eq!(rt; inputs.faults, 0);
    Ok(())
}

/// A listed call and an unknown name fail, each call is counted, and the watched name is.
#[test]
fn memory_inputs_fail(rt: HostRuntime) -> Result<(), Fail> {
    let mut inputs = some_inputs(rt.alloc(), &[1])?;
    let mut into = [0; 4];
    assert_eq!(rt; inputs.read_at("one", 0, &mut into), Ok(4));
    assert_eq!(rt;
        inputs.read_at("empty", 0, &mut into),
        Err(ReadFailed::Fault)
    );
    assert_eq!(rt; inputs.read_at("empty", 0, &mut into), Ok(0));
    assert_eq!(rt; inputs.read_at("two", 0, &mut into), Err(ReadFailed::Fault));
    assert_eq!(rt; inputs.read_at("one", 4, &mut into), Ok(4));
    assert_eq!(rt; inputs.calls, 5);
    assert_eq!(rt; inputs.faults, 2);
    assert_eq!(rt; inputs.watched, 2);
    Ok(())
}

/// The sure form reads an unknown name as an empty file.
#[test]
fn sure_inputs_read(rt: HostRuntime) -> Result<(), Fail> {
    let mut inputs = SureInputs::new(some_files(rt.alloc())?);
    let mut into = *b"....";
    assert_eq!(rt; inputs.read_at("one", 7, &mut into), Ok(3));
    assert_eq!(rt; into.as_slice(), b"789.".as_slice());
    assert_eq!(rt; inputs.read_at("two", 0, &mut into), Ok(0));
    Ok(())
}

/// A file is read up to its limit and refused past it. The watched name counts its calls.
#[test]
fn whole_files(rt: HostRuntime) -> Result<(), Fail> {
    let alloc = rt.alloc();
    let mut inputs = some_inputs(alloc, &[])?;
    let whole = read_whole(alloc, &mut inputs, "one", 268_435_456);
    assert!(rt; is_whole(whole, b"0123456789"));
    assert_eq!(rt; inputs.watched, 2, "one piece and the end");
    let at_limit = read_whole(alloc, &mut inputs, "one", 10);
    assert!(rt; is_whole(at_limit, b"0123456789"));
    let over_limit = read_whole(alloc, &mut inputs, "one", 9).err();
    assert_eq!(rt; over_limit, Some(ReadRefusal::TooLong));
    let empty = read_whole(alloc, &mut inputs, "empty", 0);
    assert!(rt; is_whole(empty, b""));
    assert_eq!(rt; inputs.watched, 5);
    assert_eq!(rt; inputs.faults, 0);
    let unknown = read_whole(alloc, &mut inputs, "two", 10).err();
    assert_eq!(rt; unknown, Some(ReadRefusal::ReadFault));
    assert_eq!(rt; inputs.faults, 1);
    Ok(())
}

/// A file of two and a half pieces, with each of its four reads failing in turn.
#[test]
fn whole_file_with_a_failing_read(rt: HostRuntime) -> Result<(), Fail> {
    let alloc = rt.alloc();
    for call in 0..5u64 {
        let mut items = Vec::new(alloc);
        items.push((
            raw(alloc, b"long")?,
            Raw {
                items: vec![in alloc; 7u8; 163_840]?,
            },
        ))?;
        let mut inputs = MemInputs::new(Files { items }, calls(alloc, &[call])?, raw(alloc, b"")?);
        let answer = read_whole(alloc, &mut inputs, "long", 163_840);
        if call < 4 {
            assert_eq!(rt; answer.err(), Some(ReadRefusal::ReadFault), "call {call}");
            assert_eq!(rt; inputs.faults, 1, "call {call}");
            assert_eq!(rt; inputs.calls, call + 1, "call {call}");
        } else {
            assert_eq!(rt; answer.ok().map(|bytes| bytes.len()), Some(163_840));
            assert_eq!(rt; inputs.faults, 0);
            assert_eq!(rt; inputs.calls, 4);
        }
    }
    Ok(())
}

/// A sink of three bytes a call takes what there is room for, and nothing at a listed call.
#[test]
fn memory_sink_takes(rt: HostRuntime) -> Result<(), Fail> {
    let mut sink = small_sink(rt.alloc(), 7, &[1])?;
    assert_eq!(rt; sink.put(b"abcde"), Ok(3));
    assert_eq!(rt; sink.put(b"de"), Err(Failed));
    assert_eq!(rt; sink.put(b"de"), Ok(2));
    assert_eq!(rt; sink.put(b"fghi"), Ok(2));
    assert_eq!(rt; sink.put(b"hi"), Err(Failed));
    assert_eq!(rt; sink.bytes.items.as_slice(), b"abcdefg".as_slice());
    assert_eq!(rt; sink.calls, 5);
    assert_eq!(rt; sink.faults, 2);
    Ok(())
}

/// The count stays at its last value.
#[test]
fn count_sink_counts(rt: HostRuntime) -> Result<(), Fail> {
    let mut sink = CountSink::new();
    assert_eq!(rt; sink.put(b"abc"), Ok(3));
    assert_eq!(rt; put_all(&mut sink, b"de"), Ok(()));
    assert_eq!(rt; sink.taken, 5);
    let mut full = CountSink {
        taken: 18_446_744_073_709_551_614,
    };
    assert_eq!(rt; full.put(b"abc"), Ok(3));
    assert_eq!(rt; full.taken, 18_446_744_073_709_551_615);
    Ok(())
}

/// What a short `put` left is handed on, and a failure leaves what was taken before it.
#[test]
fn all_bytes_are_put(rt: HostRuntime) -> Result<(), Fail> {
    let alloc = rt.alloc();
    let mut sink = small_sink(alloc, 100, &[])?;
    assert_eq!(rt; put_all(&mut sink, b""), Ok(()));
    assert_eq!(rt; sink.calls, 0);
    assert_eq!(rt; put_all(&mut sink, b"abcdefgh"), Ok(()));
    assert_eq!(rt; sink.bytes.items.as_slice(), b"abcdefgh".as_slice());
    assert_eq!(rt; sink.calls, 3);
    for call in 0..3usize {
        let mut sink = small_sink(alloc, 100, &[call as u64])?;
        assert_eq!(rt;
            put_all(&mut sink, b"abcdefgh"),
            Err(WriteFault),
            "call {call}"
        );
        assert_eq!(rt;
            sink.bytes.items.as_slice(),
            &b"abcdefgh"[..3 * call],
            "call {call}"
        );
        assert_eq!(rt; sink.faults, 1, "call {call}");
    }
    let mut full = small_sink(alloc, 5, &[])?;
    assert_eq!(rt; put_all(&mut full, b"abcdefgh"), Err(WriteFault));
    assert_eq!(rt; full.bytes.items.as_slice(), b"abcde".as_slice());
    Ok(())
}

/// A writer over memory, and one over a buffer that fills up.
#[test]
fn writers_as_sinks(rt: HostRuntime) -> Result<(), Fail> {
    let mut sink = StdSink::new(Vec::<u8>::new(rt.alloc()));
    assert_eq!(rt; put_all(&mut sink, b"abc"), Ok(()));
    assert_eq!(rt; sink.faults, 0);
    let mut room = [0; 2];
    let mut full = StdSink::new(room.as_mut_slice());
    assert_eq!(rt; put_all(&mut full, b"abc"), Err(WriteFault));
    assert_eq!(rt; full.faults, 1);
    Ok(())
}

/// A path that isn't there is a fault. An empty file and an endless one are read.
#[test]
fn files_by_path(rt: HostRuntime) -> Result<(), Fail> {
    let alloc = rt.alloc();
    let mut inputs = FileInputs::new(rt);
    let mut into = [7; 4];
    assert_eq!(rt; inputs.read_at("/dev/zero", 1, &mut into), Ok(4));
    assert_eq!(rt; into.as_slice(), [0; 4].as_slice());
    let empty = read_whole(alloc, &mut inputs, "/dev/null", 10);
    assert!(rt; is_whole(empty, b""));
    let endless = read_whole(alloc, &mut inputs, "/dev/zero", 100_000).err();
    assert_eq!(rt; endless, Some(ReadRefusal::TooLong));
    assert_eq!(rt; inputs.faults, 0);
    let missing = read_whole(alloc, &mut inputs, "/no such folder/no such file", 10).err();
    assert_eq!(rt; missing, Some(ReadRefusal::ReadFault));
    assert_eq!(rt; inputs.faults, 1);
    Ok(())
}
