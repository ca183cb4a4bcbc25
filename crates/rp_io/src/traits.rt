ghost use Rattle.std.specs.Prelude.{◌≡◌, ◌<◌, ◌≤◌, List, ℕ, Option, length, take, drop, IfOk, OnErr, IsErrOf};
ghost use Rattle.rp_io.specs.Causes.{Rose, StaysCount, HasCause, Wrote};
ghost use Rattle.rp_io.specs.Reads.{Asks, ReadsAt};

/// A sink took nothing.
#[derive(Clone, Copy, Debug, PartialEq, Eq)]
pub struct Failed;

/// Why a source gave no answer.
#[derive(Clone, Copy, Debug, PartialEq, Eq)]
pub enum ReadFailed {
    /// The source failed and counted it.
    Fault,
    /// The source found no memory for its own work.
    NoMemory,
}

/// Named files, read piece by piece.
///
/// A name is any text. Whether a meaning is told never changes, and neither does a file that is.
pub trait Inputs {
    /// The bytes of the file of a name, where they are told.
    ghost file: { Self → List ℕ → Option (List ℕ) };

    /// How often a call failed: a u64 that stays at its last value once it is there.
    ghost faults: { Self → ℕ };

    /// How often a name was asked, where it is told: a u64 as well.
    ghost asked: { Self → List ℕ → Option ℕ };

    /// Reads bytes of the named file from place `at` on, counted in bytes from 0, into the front of
    /// `into`, and answers how many. Fewer than fit can come before the file's end; none come at its
    /// end or past it.
    ///
    /// `Fault` comes only where the count of faults rose, `NoMemory` at any time. What `into` holds
    /// after either isn't said.
    fn read_at(&mut self, name: &str, at: u64, into: &mut [u8]) -> Result<usize, ReadFailed>
        requires room { 0 < length into.old }
        requires place { at ≤ 268435456 }
        ensures files { file self.new ≡ file self.old }
        ensures asked { Asks (asked self.old) (asked self.new) name.now }

        ensures bound { IfOk result (λ n. n ≤ length into.old) }
        ensures bytes { IfOk result (λ n. ReadsAt (file self.old name.now) at n into.new) }
        ensures rest { IfOk result (λ n. drop n into.new ≡ drop n into.old) }

        ensures later { faults self.old ≤ faults self.new }
        ensures stays { StaysCount (faults self.old) (faults self.new) }
        ensures fault { IsErrOf result ReadFailed.Fault → Rose (faults self.old) (faults self.new) };
}

/// A taker of bytes.
///
/// Whether what was written is told never changes.
pub trait Sink {
    /// The bytes taken so far, where they are told.
    ghost written: { Self → Option (List ℕ) };

    /// How often a call failed: a u64 that stays at its last value once it is there.
    ghost faults: { Self → ℕ };

    /// Takes bytes from the front of `piece`, one at least, and answers how many. `Failed` says that
    /// none was taken, and comes only where the count of faults rose.
    fn put(&mut self, piece: &[u8]) -> Result<usize, Failed>
        requires { 0 < length piece.now }
        ensures some { IfOk result (λ n. 0 < n) }
        ensures bound { IfOk result (λ n. n ≤ length piece.now) }
        ensures took { IfOk result (λ n. Wrote (written self.old) (written self.new) (take n piece.now)) }

        ensures nothing { OnErr result (written self.new ≡ written self.old) }
        ensures cause { HasCause (faults self.old) (faults self.new) result }
        ensures stays { StaysCount (faults self.old) (faults self.new) };
}
