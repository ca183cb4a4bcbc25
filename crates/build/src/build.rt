//! A build: a box with a block in each cell.

ghost use Rattle.std.specs.Prelude.{◌≡◌, ◌<◌, ◌≤◌, ◌*◌, ◌^◌, ◌↔◌, ℕ, not, All, IsTrue, IfSome, IfOk, OnOk, OnErr, IsErrOf, vec_len, slice_set, slice_index};
ghost use Rattle.std.specs.List.{list_all};
ghost use Rattle.block_table.specs.WrittenText.{is_listed};
ghost use Rattle.build.specs.Place.{same_place};
ghost use Rattle.build.specs.Plan.{has_level, is_ticking, is_timely, is_pending};
ghost use Rattle.build.specs.Coordinate.{placed};
ghost use Rattle.build.specs.Outputs.{is_component};
ghost use Rattle.build.specs.Edits.{fresh, all_air, is_comparator, is_container, pending_elsewhere};

use crate::ticks::PendingTicks;
use crate::{NewRefusal, Pending, PendingRefusal};
use block_table::Block;
use circuit::Pos;
use packed_block::PackedBlock;
use rp_text::NoMemory;
use std::alloc::Global;
use std::marker::Model;

// The most cells that a box may have.
const MOST_CELLS: usize = 16_777_216;

/// A box with a block in each cell. The cells are in order of y, then z, then x.
///
/// Outside of the box is air. Each block is one of the table. A comparator has a stored output and a container the strength
/// of its items, both 0 to 15. A pending tick stands at a torch, repeater, comparator, lamp or button, and a place has at most one.
#[derive(Drop)]
pub struct Build {
    width: u16,
    height: u16,
    length: u16,
    blocks: Vec<PackedBlock>,
    // One for each cell, or none as long as no level was ever set.
    levels: Vec<u8>,
    pending: PendingTicks,
    data_version: i32,
}

impl Model for Build {
    ghost use Rattle.build.specs.Plan.{Plan, IsWhole};
    ghost use Rattle.build.specs.Stored.{plan_of};

    ghost Value = { Plan };

    ghost view = { λ a. plan_of a.width a.height a.length a.data_version a.blocks.items a.levels.items a.pending };

    ghost invariant = { λ a. IsWhole (plan_of a.width a.height a.length a.data_version a.blocks.items a.levels.items a.pending) };
}

/// A coordinate that is at least 0 and below a limit.
fn within(limit: u16, coordinate: &i32) -> Option<usize>
    ensures { result ≡ placed limit coordinate.now }
{
    let value = *coordinate;
    if value < 0 {
        return None;
    }
    let number = value as usize;
    if number < limit as usize {
        Some(number)
    } else {
        None
    }
}

/// Whether a tick may be pending at a block: a torch, repeater, comparator, lamp or button.
pub fn is_ticking(block: Block) -> bool
    ensures { result ≡ is_ticking block }
{
    match block {
        Block::Torch { .. }
        | Block::WallTorch { .. }
        | Block::Repeater { .. }
        | Block::Comparator { .. }
        | Block::Lamp { .. }
        | Block::Button { .. } => true,
        Block::Air
        | Block::Inert { .. }
        | Block::Slab { .. }
        | Block::Wire { .. }
        | Block::Lever { .. }
        | Block::Plate { .. }
        | Block::RedstoneBlock
        | Block::Trapdoor { .. }
        | Block::Container { .. }
        | Block::Composter { .. }
        | Block::Cauldron { .. }
        | Block::Cake { .. }
        | Block::Weighted { .. }
        | Block::Note { .. } => false,
    }
}

/// Whether a block holds a value or gives power by itself.
fn is_component(block: Block) -> bool
    ensures { result ≡ is_component block }
{
    match block {
        Block::Lever { .. }
        | Block::Button { .. }
        | Block::Plate { .. }
        | Block::Weighted { .. }
        | Block::Torch { .. }
        | Block::WallTorch { .. }
        | Block::Repeater { .. }
        | Block::Comparator { .. }
        | Block::Lamp { .. }
        | Block::Trapdoor { .. }
        | Block::Note { .. }
        | Block::RedstoneBlock => true,
        Block::Air
        | Block::Inert { .. }
        | Block::Slab { .. }
        | Block::Wire { .. }
        | Block::Container { .. }
        | Block::Composter { .. }
        | Block::Cauldron { .. }
        | Block::Cake { .. } => false,
    }
}

/// Whether a tick is due in 1 to 15 ticks, with a priority of 0 to 3.
fn is_timely(tick: Pending) -> bool
    ensures { result ≡ is_timely tick }
{
    0 < tick.due && tick.due <= 15 && tick.priority <= 3
}

/// The level of a cell, 0 where no levels are stored.
fn stored_level(levels: &[u8], cell: usize) -> u8
    ensures { result ≡ slice_index levels.now cell }
{
    levels.get(cell).copied().unwrap_or(0)
}

/// Sets a level to 0, where levels are stored.
fn clear(levels: &mut [u8], cell: usize)
    ensures { levels.new ≡ slice_set levels.old cell 0 }
{
    if cell < levels.len() {
        levels[cell] = 0;
    }
}

impl Build {
    ghost use Rattle.build.specs.Plan.{IsWhole, found_cell, block_at, output_at, strength_at, entry, may_wait, is_once, IsNarrow, volume, place_of, in_box};
    ghost use Rattle.build.specs.Outputs.{components};
    ghost use Rattle.build.specs.Edits.{with_block, with_level, with_pending};

    /// A build of air.
    pub fn new(
        alloc: Global,
        width: u16,
        height: u16,
        length: u16,
        data_version: i32,
    ) -> Result<Build, NewRefusal>
        ensures ok { IfOk result (λ build. build ≡ all_air width height length data_version) }
        ensures volume { IsErrOf result NewRefusal.Volume ↔ (16777216 < width * (length * height)) }
    {
        let cells = width as usize * (length as usize * height as usize);
        if cells > MOST_CELLS {
            return Err(NewRefusal::Volume);
        }
        match vec![in alloc; PackedBlock::new(Block::Air); cells] {
            Ok(blocks) => Ok(Build::of_blocks(width, height, length, data_version, blocks)),
            Err(_) => Err(NewRefusal::NoMemory),
        }
    }

    /// A build of these blocks, of which there is one for each cell of the box. It takes no memory.
    pub fn of_blocks(
        width: u16,
        height: u16,
        length: u16,
        data_version: i32,
        blocks: Vec<PackedBlock>,
    ) -> Build
        requires cells { vec_len blocks ≡ width * (length * height) }
        requires small { width * (length * height) ≤ 16777216 }
        requires listed { All (λ block. IsTrue (is_listed block)) blocks.items }
        ensures { result ≡ fresh width height length data_version blocks.items }
    {
        let alloc = *blocks.allocator();
        Build {
            width,
            height,
            length,
            blocks,
            levels: Vec::new(alloc),
            pending: PendingTicks::new(alloc),
            data_version,
        }
    }

    /// An equal build.
    pub fn copy(&self) -> Result<Build, NoMemory>
        ensures { IfOk result (λ copy. copy ≡ self.now) }
    {
        let alloc = *self.blocks.allocator();
        let blocks = Vec::from_slice(alloc, &self.blocks)?;
        let levels = Vec::from_slice(alloc, &self.levels)?;
        let pending = self.pending.copy()?;
        Ok(Build {
            width: self.width,
            height: self.height,
            length: self.length,
            blocks,
            levels,
            pending,
            data_version: self.data_version,
        })
    }

    /// The number of places from west to east.
    pub fn width(&self) -> u16
        ensures value { result ≡ self.now.width }
        ensures narrow { IsNarrow self.now }
    {
        self.width
    }

    /// The number of places from bottom to top.
    pub fn height(&self) -> u16
        ensures value { result ≡ self.now.height }
        ensures narrow { IsNarrow self.now }
    {
        self.height
    }

    /// The number of places from north to south.
    pub fn length(&self) -> u16
        ensures value { result ≡ self.now.depth }
        ensures narrow { IsNarrow self.now }
    {
        self.length
    }

    /// The data version of the file.
    pub fn data_version(&self) -> i32
        ensures { result ≡ self.now.data_version }
    {
        self.data_version
    }

    /// The number of cells.
    pub fn cells(&self) -> usize
        ensures count { result ≡ volume self.now }
        ensures small { result ≤ 16777216 }
        ensures whole { IsWhole self.now }
    {
        self.blocks.len()
    }

    /// The cell of a place, where it is in the box.
    #[inline]
    pub fn cell(&self, pos: Pos) -> Option<usize>
        ensures found { result ≡ found_cell self.now pos }
        ensures below { IfSome result (λ cell. cell < volume self.now) }
        ensures small { IfSome result (λ cell. cell < 2 ^ 49) }
    {
        let x = within(self.width, &pos.x)?;
        let y = within(self.height, &pos.y)?;
        let z = within(self.length, &pos.z)?;
        Some(x + (z + y * self.length as usize) * self.width as usize)
    }

    /// The place of a cell.
    pub fn place(&self, cell: usize) -> Pos
        requires { cell < volume self.now }
        ensures { result ≡ place_of self.now cell }
    {
        let width = self.width as usize;
        let length = self.length as usize;
        let row = cell / width;
        Pos {
            x: (cell % width) as i32,
            y: (row / length) as i32,
            z: (row % length) as i32,
        }
    }

    /// Whether a place is in the box.
    pub fn contains(&self, pos: Pos) -> bool
        ensures { result ≡ in_box self.now pos }
    {
        self.cell(pos).is_some()
    }

    /// The block in a cell.
    #[inline(always)]
    pub fn block_in(&self, cell: usize) -> Block
        requires inside { cell < volume self.now }
        ensures value { result ≡ block_at self.now (place_of self.now cell) }
        ensures listed { IsTrue (is_listed result) }
    {
        self.blocks[cell].block()
    }

    /// The block at a place: air outside of the box.
    #[inline(always)]
    pub fn at(&self, pos: Pos) -> Block
        ensures value { result ≡ block_at self.now pos }
        ensures listed { IsTrue (is_listed result) }
    {
        match self.cell(pos) {
            Some(cell) => self.blocks[cell].block(),
            None => Block::Air,
        }
    }

    /// The level that is stored at a place, 0 where none is.
    fn level(&self, pos: Pos) -> u8
        ensures value { result ≡ entry self.now self.now.levels 0 pos }
        ensures small { result ≤ 15 }
    {
        match self.cell(pos) {
            Some(cell) => stored_level(&self.levels, cell),
            None => 0,
        }
    }

    /// The stored output of a comparator, 0 where none stands.
    pub fn output(&self, pos: Pos) -> u8
        ensures value { result ≡ output_at self.now pos }
        ensures small { result ≤ 15 }
    {
        match self.at(pos) {
            Block::Comparator { .. } => self.level(pos),
            Block::Air
            | Block::Inert { .. }
            | Block::Slab { .. }
            | Block::Wire { .. }
            | Block::Torch { .. }
            | Block::WallTorch { .. }
            | Block::Repeater { .. }
            | Block::Lever { .. }
            | Block::Button { .. }
            | Block::Plate { .. }
            | Block::RedstoneBlock
            | Block::Lamp { .. }
            | Block::Trapdoor { .. }
            | Block::Container { .. }
            | Block::Composter { .. }
            | Block::Cauldron { .. }
            | Block::Cake { .. }
            | Block::Weighted { .. }
            | Block::Note { .. } => 0,
        }
    }

    /// The strength that a comparator reads of the block at a place: of a container, a composter, a cauldron or a cake.
    pub fn strength(&self, pos: Pos) -> Option<u8>
        ensures value { result ≡ strength_at self.now pos }
        ensures small { IfSome result (λ strength. strength ≤ 15) }
    {
        match self.at(pos) {
            Block::Container { .. } => Some(self.level(pos)),
            Block::Composter { level } => Some(level),
            Block::Cauldron { level, .. } => Some(level),
            Block::Cake { bites } => Some(14 - 2 * bites),
            Block::Air
            | Block::Inert { .. }
            | Block::Slab { .. }
            | Block::Wire { .. }
            | Block::Torch { .. }
            | Block::WallTorch { .. }
            | Block::Repeater { .. }
            | Block::Comparator { .. }
            | Block::Lever { .. }
            | Block::Button { .. }
            | Block::Plate { .. }
            | Block::RedstoneBlock
            | Block::Lamp { .. }
            | Block::Trapdoor { .. }
            | Block::Weighted { .. }
            | Block::Note { .. } => None,
        }
    }

    /// The pending ticks, in the order in which they were added.
    pub fn pending(&self) -> &[Pending]
        ensures value { result.now ≡ self.now.pending }
        ensures waiting { IsTrue (list_all (may_wait self.now) self.now.pending) }
        ensures once { IsTrue (is_once self.now.pending) }
    {
        self.pending.as_slice()
    }

    /// Puts a block at a place of the box. It takes the level and the pending tick there with it, and needs no memory.
    pub fn set(&mut self, pos: Pos, block: Block)
        requires inside { IsTrue (in_box self.old pos) }
        requires listed { IsTrue (is_listed block) }
        ensures { self.new ≡ with_block self.old pos block }
    {
        let cell = self.cell(pos).unwrap();
        self.blocks[cell] = PackedBlock::new(block);
        clear(&mut self.levels, cell);
        self.pending.forget(pos);
    }

    /// Sets the level at a place whose block has one.
    fn set_level(&mut self, pos: Pos, level: u8) -> Result<(), NoMemory>
        requires has_level { IsTrue (has_level (block_at self.old pos)) }
        requires small { level ≤ 15 }
        ensures ok { OnOk result (self.new ≡ with_level self.old pos level) }
        ensures err { OnErr result (self.new ≡ self.old) }
    {
        let cell = self.cell(pos).unwrap();
        self.levels.resize(self.blocks.len(), 0)?;
        self.levels[cell] = level;
        Ok(())
    }

    /// Stores what the comparator at a place gives, 0 to 15.
    pub fn set_output(&mut self, pos: Pos, value: u8) -> Result<(), NoMemory>
        requires comparator { IsTrue (is_comparator (block_at self.old pos)) }
        requires small { value ≤ 15 }
        ensures ok { OnOk result (self.new ≡ with_level self.old pos value) }
        ensures err { OnErr result (self.new ≡ self.old) }
    {
        self.set_level(pos, value)
    }

    /// Stores the strength of the items of the container at a place, 0 to 15.
    pub fn set_strength(&mut self, pos: Pos, value: u8) -> Result<(), NoMemory>
        requires container { IsTrue (is_container (block_at self.old pos)) }
        requires small { value ≤ 15 }
        ensures ok { OnOk result (self.new ≡ with_level self.old pos value) }
        ensures err { OnErr result (self.new ≡ self.old) }
    {
        self.set_level(pos, value)
    }

    /// Adds a pending tick behind the others.
    pub fn add_pending(&mut self, tick: Pending) -> Result<(), PendingRefusal>
        ensures ok { OnOk result (self.new ≡ with_pending self.old tick) }
        ensures err { OnErr result (self.new ≡ self.old) }

        // The refusals in their order: each comes exactly where its condition holds and none before it.
        ensures not_ticking { IsErrOf result PendingRefusal.NotTicking ↔ IsTrue (not (is_ticking (block_at self.old tick.pos))) }
        ensures range { IsErrOf result PendingRefusal.Range ↔ (IsTrue (is_ticking (block_at self.old tick.pos)) × IsTrue (not (is_timely tick))) }
        ensures twice { IsErrOf result PendingRefusal.Twice ↔ (IsTrue (may_wait self.old tick) × IsTrue (is_pending self.old.pending tick.pos)) }
    {
        if !is_ticking(self.at(tick.pos)) {
            return Err(PendingRefusal::NotTicking);
        }
        if !is_timely(tick) {
            return Err(PendingRefusal::Range);
        }
        if self.pending.contains(tick.pos) {
            return Err(PendingRefusal::Twice);
        }
        match self.pending.push(tick) {
            Ok(()) => Ok(()),
            Err(_) => Err(PendingRefusal::NoMemory),
        }
    }

    /// The places of the components, in order: levers, buttons, plates, weighted plates, torches, repeaters, comparators,
    /// lamps, trapdoors, note blocks and redstone blocks.
    pub fn components(&self) -> Result<Vec<Pos>, NoMemory>
        ensures { IfOk result (λ places. places.items ≡ components self.now) }
    {
        let mut places = Vec::new(*self.blocks.allocator());
        for cell in 0..self.cells() {
            if is_component(self.block_in(cell)) {
                places.push(self.place(cell))?;
            }
        }
        Ok(places)
    }
}
