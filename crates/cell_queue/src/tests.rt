//! Three keys, and the ticks that are pending for them.

ghost use Rattle.std.specs.Prelude.{◌≡◌, ◌<◌, ◌≤◌, IfOk, length};

use super::*;
use circuit::Cell;
use rp_text::NoMemory;
use std::alloc::Global;
use std::test::Fail;

/// Three keys that hold nothing.
fn three_cells(alloc: Global) -> Result<Cells, NoMemory>
    ensures { IfOk result (λ cells. length cells.cells ≡ 3) }
{
    Cells::new(alloc, vec![in alloc; NOTHING; 3]?)
}

/// The key waits so long, if no tick of it is pending.
fn wait_for(cells: &mut Cells, key: usize, after: u8, priority: u8)
    requires inside { key < length cells.old.cells }
    requires later { 0 < after }
    requires soon { after ≤ 15 }
    requires priority { priority ≤ 3 }
    ensures { length cells.new.cells ≡ length cells.old.cells }
{
    let cell = cells.cell(key);
    let time = cells.now();
    if cell.due == 0 && time < 100 {
        let due = time + u64::from(after);
        cells.hold(
            key,
            Cell {
                due,
                priority,
                ..cell
            },
        );
    }
}

/// The key has another value, and keeps its pending tick.
fn set_value(cells: &mut Cells, key: usize, value: u8)
    requires { key < length cells.old.cells }
    ensures { length cells.new.cells ≡ length cells.old.cells }
{
    let cell = cells.cell(key);
    cells.hold(key, Cell { value, ..cell });
}

/// The key that is due next. Time goes on where there is none.
fn next_due(cells: &mut Cells) -> Option<usize>
    ensures { length cells.new.cells ≡ length cells.old.cells }
{
    let key = cells.take_due();
    if key.is_none() && cells.now() < 100 {
        cells.advance();
    }
    key
}

#[test]
fn ticks_come_by_time_and_priority(rt: HostRuntime) -> Result<(), Fail> {
    let mut cells = three_cells(rt.alloc())?;
    wait_for(&mut cells, 0, 2, 0);
    wait_for(&mut cells, 1, 1, 3);
    wait_for(&mut cells, 2, 1, 1);
    assert_eq!(rt;
        cells.wait(1),
        Some(Wait {
            left: 1,
            priority: 3
        })
    );
    for key in [None, Some(2), Some(1), None, Some(0), None] {
        assert_eq!(rt; next_due(&mut cells), key);
    }
    assert_eq!(rt; cells.now(), 3);
    assert_eq!(rt; cells.wait(0), None);
    Ok(())
}

#[test]
fn a_tick_comes_once(rt: HostRuntime) -> Result<(), Fail> {
    let mut cells = three_cells(rt.alloc())?;
    wait_for(&mut cells, 1, 15, 2);
    set_value(&mut cells, 1, 7);
    wait_for(&mut cells, 1, 3, 0);
    for _ in 0..15 {
        assert_eq!(rt; next_due(&mut cells), None);
    }
    assert_eq!(rt; next_due(&mut cells), Some(1));
    assert_eq!(rt; next_due(&mut cells), None);
    assert_eq!(rt; cells.cell(1).value, 7);
    assert_eq!(rt; cells.cell(3).value, 0);
    Ok(())
}
