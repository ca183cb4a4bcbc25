//! A walk over the links of a node, in which each is kept or dropped.

ghost use Rattle.std.specs.Prelude.{◌≡◌, ◌+◌, ◌<◌, ◌≤◌, ◌^◌, Some, length, remove, slice_get, slice_set};
ghost use Rattle.graph.specs.declared.Link.{Link};
ghost use Rattle.graph.specs.Links.{in_groups};

use crate::{Link, Links};
use std::marker::Model;

/// Links that are judged one after another: those that were kept, and behind them those that are
/// still to be judged.
///
/// Dropping one moves no other.
#[derive(Drop)]
pub struct Sieve {
    // Those that were kept stand first, then as many as were dropped.
    links: Links,
    kept: usize,
    judged: usize,
}

impl Model for Sieve {
    ghost use Rattle.graph.specs.Sieving.{Sieve as Plain, sieve_of, IsStoredSieve};

    ghost Value = { Plain };

    ghost view = { sieve_of };

    ghost invariant = { IsStoredSieve };
}

impl Sieve {
    // All these links are to be judged.
    pub(crate) fn new(links: Links) -> Sieve
        requires groups { in_groups links.items ≡ links.items }
        requires few { length links.items ≤ 2 ^ 32 }
        ensures { result ≡ record { items = links.items; index = 0 } }
    {
        Sieve {
            links,
            kept: 0,
            judged: 0,
        }
    }

    /// The link that is to be judged, if one is left.
    pub fn link(&self) -> Option<Link>
        ensures { result ≡ slice_get self.now.items self.now.index }
    {
        self.links.items.as_slice().get(self.judged).copied()
    }

    /// Keeps the link that is to be judged.
    pub fn keep(&mut self)
        requires { self.old.index < length self.old.items }
        ensures { self.new ≡ record { items = self.old.items; index = self.old.index + 1 } }
    {
        self.links.copy(self.judged, self.kept);
        self.kept += 1;
        self.judged += 1;
    }

    /// Drops the link that is to be judged.
    pub fn discard(&mut self)
        requires { self.old.index < length self.old.items }
        ensures { self.new ≡ record { items = remove self.old.items self.old.index; index = self.old.index } }
    {
        self.judged += 1;
    }

    // The links that were kept, once all were judged.
    pub(crate) fn finish(self) -> Links
        requires { length self.items ≤ self.index }
        ensures items { result.items ≡ self.items }
        ensures groups { in_groups result.items ≡ result.items }
        ensures few { length result.items ≤ 2 ^ 32 }
    {
        let mut links = self.links;
        links.items.truncate(self.kept);
        links
    }
}

impl Links {
    // Puts a copy of one link in the place of another.
    fn copy(&mut self, from: usize, to: usize)
        requires from { from < length self.old.items }
        requires to { to < length self.old.items }
        ensures { (link : Link) → slice_get self.old.items from ≡ Some link → self.new.items ≡ slice_set self.old.items to link }
    {
        copy_link(self.items.as_mut_slice(), from, to);
    }
}

// Puts a copy of one link in the place of another.
fn copy_link(links: &mut [Link], from: usize, to: usize)
    requires from { from < length links.old }
    requires to { to < length links.old }
    ensures { (link : Link) → slice_get links.old from ≡ Some link → links.new ≡ slice_set links.old to link }
{
    links[to] = links[from];
}
