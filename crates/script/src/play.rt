//! A script: its acts in order, and the places that it marks.

ghost use Rattle.std.specs.Prelude.{◌≡◌, ◌∷◌, [], ◌+◌, ◌<◌, ◌≤◌, ◌↔◌, Some, length, IsTrue, OnOk, OnErr, slice_get};
ghost use Rattle.std.specs.Iterator.{YieldsFirst, item_count};
ghost use Rattle.circuit.specs.Shows.{steps_of};
ghost use Rattle.script.specs.Acts.{plain_act, ticks_of, ticks_in, weight_fits};
ghost use Rattle.script.specs.StepsLeft.{steps_left};

use crate::Act;
use build::Marks;
use circuit::{Act as PlainAct, Click, Pos, Step};
use rp_text::NoMemory;
use std::alloc::Global;
use std::marker::Model;

/// The acts that a user does in order, and the places whose wires are shown.
///
/// There are at most 1,048,576 acts, with at most 100,000 ticks in all, and each weight is 1 to 15.
#[derive(Drop)]
pub struct Script {
    marks: Marks,
    acts: Vec<PlainAct>,
}

impl Model for Script {
    ghost use Rattle.script.specs.Acts.{Meaning, IsShort};

    ghost Value = { Meaning };

    ghost view = { λ a. record { marks = a.marks; acts = a.acts.items } };

    ghost invariant = { λ a. IsShort a.acts.items };
}

impl Script {
    ghost use Rattle.std.specs.Prelude.{◌++◌};
    ghost use Rattle.script.specs.Acts.{IsShort, no_script, with_act, with_marked};

    /// No acts, and no marks.
    pub fn new(alloc: Global) -> Script
        ensures { result ≡ no_script }
    {
        Script {
            marks: Marks::new(alloc),
            acts: Vec::new(alloc),
        }
    }

    /// Adds an act behind the others.
    pub fn push(&mut self, act: Act) -> Result<(), NoMemory>
        requires few { length self.old.acts < 1048576 }
        requires ticks { ticks_in self.old.acts + ticks_of (plain_act act) ≤ 100000 }
        requires weight { IsTrue (weight_fits (plain_act act)) }
        ensures ok { OnOk result (self.new ≡ with_act self.old (plain_act act)) }
        ensures err { OnErr result (self.new ≡ self.old) }
    {
        self.push_plain(plain_act(act))
    }

    /// Adds an act behind the others.
    pub(crate) fn push_plain(&mut self, act: PlainAct) -> Result<(), NoMemory>
        requires few { length self.old.acts < 1048576 }
        requires ticks { ticks_in self.old.acts + ticks_of act ≤ 100000 }
        requires weight { IsTrue (weight_fits act) }
        ensures ok { OnOk result (self.new ≡ with_act self.old act) }
        ensures err { OnErr result (self.new ≡ self.old) }
    {
        self.acts.push(act)?;
        Ok(())
    }

    /// Marks a place. One that is marked stays marked once.
    pub(crate) fn mark(&mut self, pos: Pos) -> Result<(), NoMemory>
        ensures ok { OnOk result (self.new ≡ with_marked self.old pos) }
        ensures err { OnErr result (self.new ≡ self.old) }
    {
        self.marks.add(pos)
    }

    /// The places that are marked.
    pub fn marks(&self) -> &Marks
        ensures { result.now ≡ self.now.marks }
    {
        &self.marks
    }

    /// The number of acts.
    pub fn len(&self) -> usize
        ensures count { result ≡ length self.now.acts }
        ensures short { IsShort self.now.acts }
    {
        self.acts.len()
    }

    /// Whether there is no act.
    pub fn is_empty(&self) -> bool
        ensures { IsTrue result ↔ (self.now.acts ≡ []) }
    {
        self.acts.is_empty()
    }

    /// The act at an index. Acts count from 0.
    pub fn act(&self, index: usize) -> Act
        requires { index < length self.now.acts }
        ensures { slice_get self.now.acts index ≡ Some (plain_act result) }
    {
        act_of(self.acts[index])
    }

    /// The steps of the script in order: a click as it is, and n ticks one by one. It takes no
    /// memory.
    pub fn steps(&self) -> ScriptSteps<'_>
        ensures all { steps_left result ≡ steps_of self.now.acts }
        ensures short { IsShort self.now.acts }
    {
        ScriptSteps {
            acts: &self.acts,
            ticks: 0,
        }
    }
}

// The act as circuits know it.
fn plain_act(act: Act) -> PlainAct
    ensures { result ≡ plain_act act }
{
    match act {
        Act::Use { pos } => PlainAct::Click {
            pos,
            click: Click::Use,
        },
        Act::Press { pos } => PlainAct::Click {
            pos,
            click: Click::Press,
        },
        Act::Leave { pos } => PlainAct::Click {
            pos,
            click: Click::Leave,
        },
        Act::Weigh { pos, weight } => PlainAct::Click {
            pos,
            click: Click::Weigh { weight },
        },
        Act::Ticks { count } => PlainAct::Ticks { count },
    }
}

// The act that circuits know so.
fn act_of(act: PlainAct) -> Act
    ensures { plain_act result ≡ act }
{
    match act {
        PlainAct::Click { pos, click } => match click {
            Click::Use => Act::Use { pos },
            Click::Press => Act::Press { pos },
            Click::Leave => Act::Leave { pos },
            Click::Weigh { weight } => Act::Weigh { pos, weight },
        },
        PlainAct::Ticks { count } => Act::Ticks { count },
    }
}

/// The steps of a script that are left.
#[derive(Drop)]
pub struct ScriptSteps<'a> {
    acts: &'a [PlainAct],
    ticks: u32,
}

impl<'a> Iterator for ScriptSteps<'a> {
    type Item = Step;

    ghost next_gives = { YieldsFirst steps_left };

    ghost remaining = { item_count steps_left };

    fn next(&mut self) -> Option<Step> {
        while self.ticks == 0 {
            let (act, others) = self.acts.split_first()?;
            self.acts = others;
            match *act {
                PlainAct::Click { pos, click } => return Some(Step::Click { pos, click }),
                PlainAct::Ticks { count } => self.ticks = count,
            }
        }
        self.ticks -= 1;
        Some(Step::Tick)
    }
}
