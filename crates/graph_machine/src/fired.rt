//! The keys that fired in a tick.

ghost use Rattle.std.specs.Prelude.{◌≡◌, ◌+◌, ◌<◌, ◌≤◌, [], ◌∷◌, ◌++◌, IfOk};

use graph::NodeKey;
use rp_text::NoMemory;
use std::alloc::Global;
use std::marker::Model;

/// The keys of nodes that fired, in order, with room that was taken beforehand.
#[derive(Drop)]
pub struct Fired {
    keys: Vec<NodeKey>,
    room: usize,
}

impl Model for Fired {
    ghost use Rattle.std.specs.Prelude.{◌≤◌, ◌-◌, vec_capacity, length};
    ghost use Rattle.graph_machine.specs.Noted.{Noted};

    ghost Value = { Noted };

    ghost view = { λ f. record { keys = f.keys.items; spare = vec_capacity f.keys - length f.keys.items; room = f.room } };

    ghost invariant = { λ f. f.room ≤ vec_capacity f.keys };
}

impl Fired {
    /// No key, and room for so many.
    pub fn new(alloc: Global, room: usize) -> Result<Fired, NoMemory>
        ensures keys { IfOk result (λ fired. fired.keys ≡ []) }
        ensures room { IfOk result (λ fired. fired.room ≡ room) }
        ensures spare { IfOk result (λ fired. room ≤ fired.spare) }
    {
        Ok(Fired {
            keys: Vec::with_capacity(alloc, room)?,
            room,
        })
    }

    /// Forgets the keys.
    pub fn clear(&mut self)
        ensures keys { self.new.keys ≡ [] }
        ensures room { self.new.room ≡ self.old.room }
        ensures spare { self.old.room ≤ self.new.spare }
    {
        self.keys.clear();
    }

    /// The keys.
    pub fn keys(&self) -> &[NodeKey]
        ensures { result.now ≡ self.now.keys }
    {
        &self.keys
    }

    /// Notes one more key, within the room.
    pub(crate) fn push(&mut self, key: NodeKey)
        requires { 0 < self.old.spare }
        ensures keys { self.new.keys ≡ self.old.keys ++ key ∷ [] }
        ensures room { self.new.room ≡ self.old.room }
        ensures spare { self.new.spare + 1 ≡ self.old.spare }
    {
        self.keys.push_reserved(key);
    }
}
