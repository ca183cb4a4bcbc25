//! Plays a script on the blocks of a build or on a graph, and writes what they show.
#![tactic(auto)]

ghost use Rattle.std.specs.Prelude.{◌≡◌};
ghost use Rattle.player.specs.declared.PlayRefusal.TheVariants.{NoMemory as NoMemoryRefusal};

use rp_text::NoMemory;

mod graph_play;
mod graph_run;
mod lines;
mod plays;
mod world_play;
mod world_run;

pub use graph_machine::Steps;
pub use graph_run::{GraphEnd, ReadyGraph, play, play_ordered, play_silently};
pub use plays::{Plays, play_on, put_run};
pub use world_run::play_world;

/// Why a run wasn't written whole.
#[derive(Clone, Copy, PartialEq, Eq, Debug)]
pub enum PlayRefusal {
    /// The sink failed; a prefix of the text was written.
    WriteFault,
    /// There wasn't enough memory; nothing was written.
    NoMemory,
}

impl From<NoMemory> for PlayRefusal {
    ghost from_gives = { λ _ refusal. refusal ≡ NoMemoryRefusal };

    fn from(_: NoMemory) -> Self {
        PlayRefusal::NoMemory
    }
}
