//! Lines of views, over sinks in memory.

use crate::LastView;
use report::Cause;
use rp_io::{Calls, MemSink, WriteFault};
use std::alloc::Global;
use std::process::Abort;
use std::test::Fail;

fn sink(alloc: Global, failing: &[u64]) -> Result<MemSink, Fail> {
    let items = Vec::from_slice(alloc, failing)?;
    Ok(MemSink::new(alloc, 4096, 4096, Calls { items })?)
}

// Asserts that the view is written as this line, after a tick at a time.
fn shows(
    rt: &impl Abort,
    alloc: Global,
    view: &mut LastView,
    time: u64,
    line: &[u8],
) -> Result<(), Fail> {
    let mut out = sink(alloc, &[])?;
    assert!(rt; view.put(&mut out, time, Cause::Tick).is_ok());
    assert_eq!(rt; out.bytes.items.as_slice(), line);
    assert_eq!(rt; out.calls, 1);
    Ok(())
}

fn change(rt: &impl Abort, view: &mut LastView, index: usize, value: u8) {
    assert!(rt; index < view.values().len());
    assert!(rt; value <= 15);
    view.set(index, value);
}

/// A value that takes a second digit moves those behind it, and moves them back.
#[test]
fn from_nine_to_ten_and_back(rt: HostRuntime) -> Result<(), Fail> {
    let alloc = rt.alloc();
    let mut view = LastView::new(alloc, &[0, 9, 1])?;
    shows(&rt, alloc, &mut view, 0, b"0 tick 0 9 1\n")?;
    change(&rt, &mut view, 1, 10);
    shows(&rt, alloc, &mut view, 9, b"9 tick 0 10 1\n")?;
    change(&rt, &mut view, 1, 15);
    change(&rt, &mut view, 2, 0);
    shows(&rt, alloc, &mut view, 10, b"10 tick 0 15 0\n")?;
    change(&rt, &mut view, 1, 3);
    shows(&rt, alloc, &mut view, 100_000, b"100000 tick 0 3 0\n")?;
    assert_eq!(rt; view.values().len(), 3);
    view.set_all(&[1, 3, 12]);
    shows(&rt, alloc, &mut view, 7, b"7 tick 1 3 12\n")?;
    Ok(())
}

/// A line that couldn't be written is written whole the next time.
#[test]
fn after_a_fault(rt: HostRuntime) -> Result<(), Fail> {
    let alloc = rt.alloc();
    let mut view = LastView::new(alloc, &[1])?;
    let mut out = sink(alloc, &[0])?;
    assert_eq!(rt; view.put(&mut out, 0, Cause::Start), Err(WriteFault));
    assert_eq!(rt; out.bytes.items.len(), 0);
    change(&rt, &mut view, 0, 0);
    shows(&rt, alloc, &mut view, 1, b"1 tick 0\n")
}

/// A view of nothing is its time and its cause.
#[test]
fn without_outputs(rt: HostRuntime) -> Result<(), Fail> {
    let alloc = rt.alloc();
    let mut view = LastView::new(alloc, &[])?;
    shows(&rt, alloc, &mut view, 3, b"3 tick\n")
}
