//! Items under keys that are never given twice.
#![tactic(auto)]

ghost use Rattle.std.specs.Prelude.{⊤, ◌≡◌, ◌+◌, ◌-◌, ◌^◌, ◌<◌, ◌≤◌, [], ◌∷◌, ◌++◌, Some, None, length, count_by, is_some, OnOk, OnErr, IfOk, IfErr, option_copied, slice_index_or, slice_set};
ghost use Rattle.std.specs.Option.{option_copied_mut};
ghost use Rattle.std.specs.Borrow.{sem};
ghost use Rattle.node_arena.specs.Items.{keys_of};
ghost use Rattle.node_arena.specs.Lending.{LendsItem};

use rp_text::NoMemory;
use slab::Slab;
use std::alloc::{AllocError, Global};
use std::marker::{Model, PhantomData};

#[cfg(test)]
mod tests;

/// A number that belongs to arenas of the mark `M`. A mark is a type that only names the arena,
/// so an item can hold keys of the arena that it stands in.
///
/// Keys are compared by their numbers.
#[derive_where(PartialEq, Eq, PartialOrd, Ord, Hash, Debug)]
pub struct Key<M> {
    number: u32,
    #[derive_where(skip)]
    of: PhantomData<M>,
}

impl<M> Model for Key<M> {
    ghost use Rattle.std.specs.Prelude.{ℕ};

    ghost Value = { ℕ };

    ghost view = { λ key. key.number };

    ghost inverse = { λ number. record { number = number; of = record {} } };
}

impl<M> Clone for Key<M> {
    ghost is_clone = { λ key copy. copy ≡ key };

    ghost is_infallible = { λ _. ⊤ };

    fn clone(&self) -> Result<Self, AllocError> {
        Ok(Key::new(self.number))
    }
}

impl<M> Copy for Key<M> {}

impl<M> Default for Key<M> {
    ghost is_default = { λ key. key ≡ 0 };

    fn default() -> Self {
        Key::new(0)
    }
}

impl<M> Key<M> {
    /// The key of this number. An arena that hasn't given it holds nothing there.
    pub fn new(number: u32) -> Key<M>
        ensures { result ≡ number }
    {
        Key {
            number,
            of: PhantomData,
        }
    }

    /// The number of the key.
    pub fn number(self) -> u32
        ensures { result ≡ self }
    {
        self.number
    }
}

/// Items of type `T` under keys of the mark `M`. The keys are numbered from 0 in the order of
/// insertion, and none is given twice, whatever was removed.
#[derive(Drop)]
pub struct Arena<M, T> {
    slots: Slab<T>,
    // Where the item of each key stands, by the key's number.
    places: Vec<Option<usize>>,
    spare: u32,
    of: PhantomData<M>,
}

impl<M, T> Model for Arena<M, T> {
    ghost use Rattle.std.specs.Prelude.{vec_capacity};
    ghost use Rattle.node_arena.specs.Items.{Items};
    ghost use Rattle.node_arena.specs.Layout.{items_of, IsLaidOut};

    ghost Value = { Items T };

    ghost view = { λ arena. items_of arena.slots arena.places.items arena.spare };

    ghost invariant = { λ arena. IsLaidOut arena.slots arena.places.items (vec_capacity arena.places) arena.spare };
}

impl<M, T> Arena<M, T> {
    /// No item.
    pub fn new(alloc: Global) -> Self
        ensures { result ≡ record { entries = []; spare = 0 } }
    {
        Arena {
            slots: Slab::new(alloc),
            places: Vec::new(alloc),
            spare: 0,
            of: PhantomData,
        }
    }

    /// Makes room for `more` items beside those in the arena.
    pub fn reserve(&mut self, more: u32) -> Result<(), NoMemory>
        ensures entries { self.new.entries ≡ self.old.entries }
        ensures room { OnOk result (more ≤ self.new.spare) }
        ensures grows { self.old.spare ≤ self.new.spare }
        ensures err { OnErr result (self.new ≡ self.old) }
        ensures full { OnErr result (self.old.spare < more) }
    {
        if more <= self.spare {
            return Ok(());
        }
        self.slots.reserve(more as usize)?;
        self.places.reserve(more as usize)?;
        self.spare = more;
        Ok(())
    }

    /// The number of inserts that have succeeded.
    pub fn made(&self) -> u32
        ensures { result ≡ length self.now.entries }
    {
        self.places.len() as u32
    }

    /// Puts the item under the key whose number was `made`. For want of memory it hands the item
    /// back.
    pub fn insert(&mut self, item: T) -> Result<Key<M>, T>
        requires { length self.old.entries < u32.MAX }
        ensures key { IfOk result (λ key. key ≡ length self.old.entries) }
        ensures entries { OnOk result (self.new.entries ≡ self.old.entries ++ Some item ∷ []) }
        ensures spare { OnOk result (self.new.spare ≡ self.old.spare - 1) }

        // It fails only where no room was reserved, and then nothing changes.
        ensures full { OnErr result (self.old.spare ≡ 0) }
        ensures back { IfErr result (λ back. back ≡ item) }
        ensures unchanged { OnErr result (self.new ≡ self.old) }
    {
        let number = self.made();
        if self.slots.reserve(1).is_err() {
            return Err(item);
        }
        if self.places.reserve(1).is_err() {
            return Err(item);
        }
        let place = self.slots.insert_reserved(item);
        self.places.push_reserved(Some(place));
        self.spare = self.spare.saturating_sub(1);
        Ok(Key::new(number))
    }

    /// The item under the key.
    pub fn get(&self, key: Key<M>) -> Option<&T>
        ensures { option_copied result ≡ slice_index_or self.now.entries key None }
    {
        match place_at(&self.places, key.number) {
            Some(place) => self.slots.get(place),
            None => None,
        }
    }

    /// The item under the key, to be written.
    pub fn get_mut(&mut self, key: Key<M>) -> Option<&mut T>
        ensures* writes_back { sem 𝓛 (LendsItem M.row T.row self.entry key result) }
        ensures value { option_copied_mut result ≡ slice_index_or self.old.entries key None }
    {
        let Some(place) = place_at(&self.places, key.number) else {
            return None;
        };
        self.slots.get_mut(place)
    }

    /// Takes the item under the key out. The key then holds nothing for good.
    pub fn remove(&mut self, key: Key<M>) -> Option<T>
        ensures value { result ≡ slice_index_or self.old.entries key None }
        ensures entries { self.new.entries ≡ slice_set self.old.entries key None }
        ensures spare { self.new.spare ≡ self.old.spare }
    {
        let Some(place) = place_at(&self.places, key.number) else {
            return None;
        };
        self.places[key.number as usize] = None;
        self.slots.try_remove(place)
    }

    /// The keys that hold an item, rising.
    pub fn keys(&self) -> Result<Vec<Key<M>>, NoMemory>
        ensures { IfOk result (λ keys. keys.items ≡ keys_of self.now.entries) }
    {
        keys_in_use(*self.places.allocator(), &self.places)
    }

    /// How many items there are.
    pub fn len(&self) -> usize
        ensures { result ≡ count_by is_some self.now.entries }
    {
        self.slots.len()
    }
}

// Where the item of the key with this number stands, if there is one.
fn place_at(places: &[Option<usize>], number: u32) -> Option<usize>
    ensures { result ≡ slice_index_or places.now number None }
{
    *places.get(number as usize)?
}

// The keys that have a place.
fn keys_in_use<M>(alloc: Global, places: &[Option<usize>]) -> Result<Vec<Key<M>>, NoMemory>
    requires { length places.now < 2 ^ 32 }
    ensures { IfOk result (λ keys. keys.items ≡ keys_of places.now) }
{
    let mut keys = Vec::with_capacity(alloc, places.len())?;
    for (number, place) in places.iter().enumerate() {
        if place.is_some() {
            keys.push(Key::new(number as u32))?;
        }
    }
    Ok(keys)
}
