//! What holds after a run of any pass. Each law is a function with nothing to do whose contract
//! is the law.

ghost use Rattle.std.specs.Prelude.{◌≤◌, Bool, Result};
ghost use Rattle.rp_text.specs.declared.NoMemory.{NoMemory};
ghost use Rattle.graph.specs.Graph.{Nodes};
ghost use Rattle.graph.specs.Sound.{IsSound};
ghost use Rattle.graph.specs.Refines.{Refines};
ghost use Rattle.pass_frame.specs.Frame.{Ran};

use crate::Pass;

/// A sound graph stays sound, whatever a run answers.
pub fn run_keeps_sound<P: Pass>()
    ensures { (old new : Nodes) (result : Result Bool NoMemory) →
        IsSound old → Ran P.step old result new → IsSound new }
{}

/// What is left of a sound graph refines it, whatever a run answers.
pub fn run_refines<P: Pass>()
    ensures { (old new : Nodes) (result : Result Bool NoMemory) →
        IsSound old → Ran P.step old result new → Refines old new }
{}
