//! The events of a graph that plays, and what each of them leads to.

ghost use Rattle.std.specs.Prelude.{◌≡◌, ◌+◌, ◌<◌, ◌≤◌, ◌^◌, ℕ, Some, IfSome, length, slice_set};
ghost use Rattle.circuit.specs.Bounds.{Bounded};
ghost use Rattle.circuit.specs.Circuit.{attend, put, with_value, later};
ghost use Rattle.circuit.specs.Component.{clicked};
ghost use Rattle.graph.specs.Graph.{node_at, node_count};
ghost use Rattle.graph.specs.GraphCircuit.{graph_circuit, role_at};
ghost use Rattle.graph.specs.Sound.{IsSound};
ghost use Rattle.cell_queue.specs.Held.{Holding, cell_of, CanFollow, NoneNow};
ghost use Rattle.graph_machine.specs.Wired.{given, targets_in, AreTargets, IsTarget};
ghost use Rattle.graph_machine.specs.Outgoing.{reads_of};
ghost use Rattle.graph_machine.specs.Playing.{attended_in, fired_by, held_state, IsPlaying, AllStill, OthersStill, Attends, MayFire, FiresDue, reads_by, due_count};
ghost use Rattle.graph_machine.specs.Screens.{AreFaced, Refaced};

use crate::fired::Fired;
use crate::net::Net;
use crate::screen::Screen;
use crate::steps::Steps;
use cell_queue::Cells;
use circuit::{Cell, Component};
use graph::NodeKey;
use std::sync::ledger::Ledger;

/// What a key holds after it attended.
fn attended(net: &Net, time: u64, key: usize, cell: Cell) -> Cell
    requires inside { key < length net.now.outs }
    requires early { time < 2 ^ 63 }
    ensures { result ≡ attended_in net.now time key cell }
{
    match net.role(key) {
        Some(component) => circuit::attended(
            time,
            component,
            net.is_first(key),
            net.readings(key),
            cell,
        ),
        None => cell,
    }
}

/// What a key holds after it fired.
fn fired(net: &Net, time: u64, key: usize, cell: Cell) -> Cell
    requires inside { key < length net.now.outs }
    requires early { time < 2 ^ 63 }
    ensures { result ≡ fired_by net.now time key cell }
{
    match net.role(key) {
        Some(component) => circuit::fired(
            time,
            component,
            net.is_first(key),
            net.readings(key),
            cell,
        ),
        None => cell,
    }
}

/// One key attends.
fn attend(net: &Net, cells: &mut Cells, key: usize)
    requires inside { key < length net.now.outs }
    requires whole { length cells.old.cells ≡ length net.now.outs }
    requires early { cells.old.time < 2 ^ 63 }
    requires sound { IsSound net.now.nodes }
    ensures { cells.new ≡ record { time = cells.old.time; cells = slice_set cells.old.cells key (attended_in net.now cells.old.time key (cell_of cells.old.cells key)) } }
{
    let cell = attended(net, cells.now(), key, cells.cell(key));
    cells.hold(key, cell);
}

/// One key attends, and its output shows what it must.
fn attend_shown(net: &Net, cells: &mut Cells, screen: &mut Screen, key: usize)
    requires inside { key < length net.now.outs }
    requires whole { length cells.old.cells ≡ length net.now.outs }
    requires early { cells.old.time < 2 ^ 63 }
    requires sound { IsSound net.now.nodes }
    requires screen { screen.old.count ≡ length net.now.outs }
    ensures held { cells.new ≡ record { time = cells.old.time; cells = slice_set cells.old.cells key (attended_in net.now cells.old.time key (cell_of cells.old.cells key)) } }
    ensures refaced { Refaced net.now cells.old.cells cells.new.cells screen.old screen.new (λ k. k ≡ key) }
{
    attend(net, cells, key);
    screen.refresh(net, cells, key);
}

/// All keys attend.
pub fn attend_all(net: &Net, cells: &mut Cells)
    requires whole { length cells.old.cells ≡ length net.now.outs }
    requires early { cells.old.time < 2 ^ 63 }
    requires sound { IsSound net.now.nodes }
    ensures time { cells.new.time ≡ cells.old.time }
    ensures all { Attends net.now cells.old.time (λ key. key < length net.now.outs) cells.old.cells cells.new.cells }
{
    for key in 0..net.len() {
        attend(net, cells, key);
    }
}

/// The targets of a key attend, and their outputs show what they must.
fn attend_targets<L: Ledger>(
    net: &Net,
    cells: &mut Cells,
    screen: &mut Screen,
    key: usize,
    count: usize,
    steps: &mut Steps<L>,
)
    requires count { count ≡ length (targets_in net.now.targets key) }
    requires whole { length cells.old.cells ≡ length net.now.outs }
    requires early { cells.old.time < 2 ^ 63 }
    requires sound { IsSound net.now.nodes }
    requires screen { screen.old.count ≡ length net.now.outs }
    ensures time { cells.new.time ≡ cells.old.time }
    ensures all { Attends net.now cells.old.time (IsTarget (targets_in net.now.targets key)) cells.old.cells cells.new.cells }
    ensures refaced { Refaced net.now cells.old.cells cells.new.cells screen.old screen.new (IsTarget (targets_in net.now.targets key)) }
    ensures read { steps.new ≡ steps.old + count }
{
    for index in 0..count {
        let target = net.target(key, index, steps);
        attend_shown(net, cells, screen, target);
    }
}

/// A component holds another cell, and then all attend. No other ones have to than the component
/// and its targets, since the others read what they read before. Where the component gives what it
/// gave, no link is read. The outputs show what they must.
fn change<L: Ledger>(
    net: &mut Net,
    cells: &mut Cells,
    screen: &mut Screen,
    key: usize,
    component: Component,
    cell: Cell,
    steps: &mut Steps<L>,
)
    requires playing { IsPlaying net.old cells.old }
    requires screen { screen.old.count ≡ length net.old.outs }
    requires faced { AreFaced net.old cells.old.cells screen.old }
    requires still { OthersStill key net.old cells.old }
    requires early { cells.old.time < 2 ^ 63 }
    requires there { role_at (node_at net.old.nodes key) ≡ Some component }
    requires follows { CanFollow cells.old.time (cell_of cells.old.cells key) cell }
    requires bounded { Bounded (graph_circuit net.old.nodes) (put (graph_circuit net.old.nodes) (held_state cells.old) key cell) }
    ensures nodes { net.new.nodes ≡ net.old.nodes }
    ensures state { held_state cells.new ≡ attend (graph_circuit net.old.nodes) (put (graph_circuit net.old.nodes) (held_state cells.old) key cell) }
    ensures playing { IsPlaying net.new cells.new }
    ensures screen { screen.new.count ≡ length net.new.outs }
    ensures faced { AreFaced net.new cells.new.cells screen.new }
    ensures keys { screen.new.keys ≡ screen.old.keys }
    ensures still { AllStill net.new cells.new }
    ensures read { steps.new ≤ steps.old + reads_of net.old.nodes key }
{
    cells.hold(key, cell);
    let out = circuit::out(component, cell.value);
    if net.out(key) == out {
        attend_shown(net, cells, screen, key);
        return;
    }
    let count = net.change(key, out, steps);
    attend_shown(net, cells, screen, key);
    attend_targets(net, cells, screen, key, count, steps);
}

/// A component takes the value of a click.
pub fn set_value<L: Ledger>(
    net: &mut Net,
    cells: &mut Cells,
    screen: &mut Screen,
    key: usize,
    component: Component,
    value: u8,
    steps: &mut Steps<L>,
)
    requires playing { IsPlaying net.old cells.old }
    requires screen { screen.old.count ≡ length net.old.outs }
    requires faced { AreFaced net.old cells.old.cells screen.old }
    requires still { AllStill net.old cells.old }
    requires early { cells.old.time < 2 ^ 63 }
    requires there { role_at (node_at net.old.nodes key) ≡ Some component }
    requires bounded { Bounded (graph_circuit net.old.nodes) (put (graph_circuit net.old.nodes) (held_state cells.old) key (with_value (cell_of cells.old.cells key) value)) }
    ensures nodes { net.new.nodes ≡ net.old.nodes }
    ensures state { held_state cells.new ≡ attend (graph_circuit net.old.nodes) (put (graph_circuit net.old.nodes) (held_state cells.old) key (with_value (cell_of cells.old.cells key) value)) }
    ensures playing { IsPlaying net.new cells.new }
    ensures screen { screen.new.count ≡ length net.new.outs }
    ensures faced { AreFaced net.new cells.new.cells screen.new }
    ensures keys { screen.new.keys ≡ screen.old.keys }
    ensures still { AllStill net.new cells.new }
    ensures read { steps.new ≤ steps.old + reads_of net.old.nodes key }
{
    let cell = Cell {
        value,
        ..cells.cell(key)
    };
    change(net, cells, screen, key, component, cell, steps);
}

/// The key that fires next, if something is due, fires.
pub fn fire_next<L: Ledger>(
    net: &mut Net,
    cells: &mut Cells,
    screen: &mut Screen,
    steps: &mut Steps<L>,
) -> Option<usize>
    requires playing { IsPlaying net.old cells.old }
    requires screen { screen.old.count ≡ length net.old.outs }
    requires faced { AreFaced net.old cells.old.cells screen.old }
    requires still { AllStill net.old cells.old }
    requires early { cells.old.time < 2 ^ 63 }
    ensures nodes { net.new.nodes ≡ net.old.nodes }
    ensures state { MayFire net.old.nodes (held_state cells.old) (held_state cells.new) result }
    ensures playing { IsPlaying net.new cells.new }
    ensures screen { screen.new.count ≡ length net.new.outs }
    ensures faced { AreFaced net.new cells.new.cells screen.new }
    ensures keys { screen.new.keys ≡ screen.old.keys }
    ensures still { AllStill net.new cells.new }
    ensures few { IfSome result (λ key. key < 2 ^ 32) }
    ensures read { steps.new ≤ steps.old + reads_by net.old.nodes result }
{
    let key = cells.take_due()?;
    if let Some(component) = net.role(key) {
        let cell = fired(net, cells.now(), key, cells.cell(key));
        change(net, cells, screen, key, component, cell, steps);
    }
    Some(key)
}

/// All that is due fires, one by one, by rising priority, and is noted.
pub fn fire_due<L: Ledger>(
    net: &mut Net,
    cells: &mut Cells,
    screen: &mut Screen,
    fired: &mut Fired,
    steps: &mut Steps<L>,
)
    requires playing { IsPlaying net.old cells.old }
    requires screen { screen.old.count ≡ length net.old.outs }
    requires faced { AreFaced net.old cells.old.cells screen.old }
    requires still { AllStill net.old cells.old }
    requires early { cells.old.time < 2 ^ 63 }
    requires late { 0 < cells.old.time }
    requires room { due_count net.old.nodes (held_state cells.old) ≤ fired.old.spare }
    ensures nodes { net.new.nodes ≡ net.old.nodes }
    ensures fires { FiresDue net.old.nodes (held_state cells.old) (held_state cells.new) fired.old.keys fired.new.keys steps.old steps.new }
    ensures few { length fired.new.keys ≤ length fired.old.keys + due_count net.old.nodes (held_state cells.old) }
    ensures room { fired.new.room ≡ fired.old.room }
    ensures none { NoneNow cells.new }
    ensures playing { IsPlaying net.new cells.new }
    ensures screen { screen.new.count ≡ length net.new.outs }
    ensures faced { AreFaced net.new cells.new.cells screen.new }
    ensures keys { screen.new.keys ≡ screen.old.keys }
    ensures still { AllStill net.new cells.new }
{
    while let Some(key) = fire_next(net, cells, screen, steps) {
        fired.push(NodeKey::new(key as u32));
    }
}

/// Time goes on by one, and all that is due then fires and is noted. It gives the number of firings.
pub fn tick<L: Ledger>(
    net: &mut Net,
    cells: &mut Cells,
    screen: &mut Screen,
    fired: &mut Fired,
    steps: &mut Steps<L>,
) -> u64
    requires playing { IsPlaying net.old cells.old }
    requires screen { screen.old.count ≡ length net.old.outs }
    requires faced { AreFaced net.old cells.old.cells screen.old }
    requires still { AllStill net.old cells.old }
    requires early { cells.old.time < 2 ^ 62 }
    requires none { NoneNow cells.old }
    requires room { node_count net.old.nodes ≤ fired.old.spare }
    ensures nodes { net.new.nodes ≡ net.old.nodes }
    ensures fires { FiresDue net.old.nodes (later (held_state cells.old)) (held_state cells.new) fired.old.keys fired.new.keys steps.old steps.new }
    ensures count { length fired.new.keys ≡ length fired.old.keys + result }
    ensures few { result ≤ 2 ^ 32 }
    ensures room { fired.new.room ≡ fired.old.room }
    ensures time { cells.new.time ≡ cells.old.time + 1 }
    ensures none { NoneNow cells.new }
    ensures playing { IsPlaying net.new cells.new }
    ensures screen { screen.new.count ≡ length net.new.outs }
    ensures faced { AreFaced net.new cells.new.cells screen.new }
    ensures keys { screen.new.keys ≡ screen.old.keys }
    ensures still { AllStill net.new cells.new }
{
    let _ = net.len();
    let before = fired.keys().len();
    cells.advance();
    fire_due(net, cells, screen, fired, steps);
    (fired.keys().len() - before) as u64
}
