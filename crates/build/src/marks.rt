//! Places that are marked.

ghost use Rattle.std.specs.Prelude.{◌≡◌, [], OnOk, OnErr, IfOk, IsTrue};
ghost use Rattle.build.specs.Marks.{is_marked, with_mark, is_rising};

use circuit::Pos;
use rp_text::NoMemory;
use std::alloc::Global;
use std::collections::BTreeSet;
use std::marker::Model;

/// Places in order, each once: by y, then z, then x.
#[derive(Drop)]
pub struct Marks {
    keys: BTreeSet<(i32, i32, i32)>,
}

impl Model for Marks {
    ghost use Rattle.std.specs.Prelude.{◌≡◌, true, List, map};
    ghost use Rattle.circuit.specs.declared.Pos.{Pos};
    ghost use Rattle.build.specs.Marks.{is_rising};
    ghost use Rattle.build.specs.MarkKeys.{place_of_key};

    ghost Value = { List Pos };

    ghost view = { λ a. map place_of_key a.keys.keys };

    ghost invariant = { λ a. is_rising (map place_of_key a.keys.keys) ≡ true };
}

/// The key of a place: its y, z and x.
fn key_of(pos: Pos) -> (i32, i32, i32)
    ensures { result ≡ (pos.y, pos.z, pos.x) }
{
    (pos.y, pos.z, pos.x)
}

impl Marks {
    /// No place is marked.
    pub fn new(alloc: Global) -> Self
        ensures { result ≡ [] }
    {
        Marks {
            keys: BTreeSet::new(alloc),
        }
    }

    /// Equal marks.
    pub fn copy(&self) -> Result<Marks, NoMemory>
        ensures { IfOk result (λ copy. copy ≡ self.now) }
    {
        let keys = self.keys.clone()?;
        Ok(Marks { keys })
    }

    /// Marks a place. One that is marked stays marked once.
    pub fn add(&mut self, pos: Pos) -> Result<(), NoMemory>
        ensures ok { OnOk result (self.new ≡ with_mark pos self.old) }
        ensures err { OnErr result (self.new ≡ self.old) }
    {
        self.keys.insert(key_of(pos))?;
        Ok(())
    }

    /// Whether a place is marked.
    pub fn contains(&self, pos: Pos) -> bool
        ensures value { result ≡ is_marked self.now pos }
        ensures rising { IsTrue (is_rising self.now) }
    {
        self.keys.contains(&key_of(pos))
    }
}
