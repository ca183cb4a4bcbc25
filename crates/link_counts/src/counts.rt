//! How many links bring each strength to one node.

ghost use Rattle.std.specs.Prelude.{◌≡◌, ◌+◌, ◌<◌, ◌^◌, ◌==◌, ◌&&◌, ℕ};
ghost use Rattle.graph.specs.declared.Group.{Group};
ghost use Rattle.graph.specs.Links.{is_group};
ghost use Rattle.link_counts.specs.Counted.{one_if, count_at};

use graph::Group;

/// For each group, how many links bring each strength from 0 to 15.
#[derive(Clone, Copy)]
pub struct Counts {
    pub back: [u32; 16],
    pub side: [u32; 16],
}

impl Counts {
    /// No link.
    pub fn new() -> Counts
        ensures { (group : Group) (strength : ℕ) → count_at result group strength ≡ 0 }
    {
        Counts {
            back: [0; 16],
            side: [0; 16],
        }
    }

    /// Counts one more link.
    pub fn add(&mut self, group: Group, strength: u8)
        requires small { strength < 16 }
        requires few { count_at self.old group strength + 1 < 2 ^ 32 }
        ensures { (other : Group) (at : ℕ) → count_at self.new other at ≡ count_at self.old other at + one_if (is_group other group && (strength == at)) }
    {
        match group {
            Group::Back => self.back[strength as usize] += 1,
            Group::Side => self.side[strength as usize] += 1,
        }
    }
}
