//! A text with room for more.

ghost use Rattle.std.specs.Prelude.{◌≡◌, ◌+◌, ◌<◌, ◌≤◌, length, decimal, IfOk};
ghost use Rattle.std.specs.Fmt.{signed_decimal};

use build::Pos;
use itoa::Buffer;
use rp_text::NoMemory;
use std::alloc::Global;
use std::marker::Model;

/// A list of bytes with room for more. What is pushed takes no memory.
#[derive(Drop)]
pub struct LineBuf {
    bytes: Vec<u8>,
    room: usize,
}

impl Model for LineBuf {
    ghost use Rattle.std.specs.Prelude.{◌-◌, ◌≤◌, vec_len, vec_capacity};
    ghost use Rattle.report.specs.RoomyText.{RoomyText};

    ghost Value = { RoomyText };

    ghost view = { λ a. record { bytes = a.bytes.items; spare = a.room - vec_len a.bytes; room = a.room } };

    ghost invariant = { λ a. (vec_len a.bytes ≤ a.room) × (a.room ≤ vec_capacity a.bytes) };
}

impl LineBuf {
    ghost use Rattle.report.specs.RoomyText.{empty_text, Appends};
    ghost use Rattle.report.specs.PlaceText.{place_text};

    /// An empty list with room for so many bytes.
    pub fn new(alloc: Global, room: usize) -> Result<Self, NoMemory>
        ensures { IfOk result (λ line. line ≡ empty_text room) }
    {
        Ok(LineBuf {
            bytes: Vec::with_capacity(alloc, room)?,
            room,
        })
    }

    /// Empties the list.
    pub fn clear(&mut self)
        ensures { self.new ≡ empty_text self.old.room }
    {
        self.bytes.clear();
    }

    /// The bytes that were pushed.
    pub fn bytes(&self) -> &[u8]
        ensures { result.now ≡ self.now.bytes }
    {
        &self.bytes
    }

    pub(crate) fn push(&mut self, bytes: &[u8])
        requires { length bytes.now ≤ self.old.spare }
        ensures { Appends self.old self.new bytes.now }
    {
        let _ = self.bytes.extend_from_slice(bytes);
    }

    pub(crate) fn push_number(&mut self, number: u64)
        requires { 20 ≤ self.old.spare }
        ensures text { Appends self.old self.new (decimal number) }
        ensures short { self.old.spare ≤ self.new.spare + 20 }
    {
        self.push(Buffer::new().format(number).as_bytes());
    }

    // A number below 100.
    pub(crate) fn push_small(&mut self, number: u8)
        requires small { number < 100 }
        requires room { 2 ≤ self.old.spare }
        ensures text { Appends self.old self.new (decimal number) }
        ensures short { self.old.spare ≤ self.new.spare + 2 }
    {
        self.push(Buffer::new().format(number).as_bytes());
    }

    fn push_signed(&mut self, number: i32)
        requires { 11 ≤ self.old.spare }
        ensures text { Appends self.old self.new (signed_decimal number) }
        ensures short { self.old.spare ≤ self.new.spare + 11 }
    {
        self.push(Buffer::new().format(number).as_bytes());
    }

    #[tactic(auto, unfolding(crate::specs::PlaceText::place_text))]
    pub(crate) fn push_place(&mut self, pos: Pos)
        requires { 35 ≤ self.old.spare }
        ensures text { Appends self.old self.new (place_text pos) }
        ensures short { self.old.spare ≤ self.new.spare + 35 }
    {
        self.push_signed(pos.x);
        self.push(b" ");
        self.push_signed(pos.y);
        self.push(b" ");
        self.push_signed(pos.z);
    }
}
