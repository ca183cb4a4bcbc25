//! What holds of the format itself. But for `written_is_read`, these calls do nothing: the contract
//! is the law.

ghost use Rattle.std.specs.Prelude.{◌≡◌, ℕ, List, [], ◌++◌, take, ◌⊎◌, IfOk};
ghost use Rattle.nbt.specs.Plain.{PlainRoot, plain_root};
ghost use Rattle.nbt.specs.Spelling.{spelling, CanBeSpelled, Spells, AreBytes};
ghost use Rattle.nbt.specs.Faults.{IsFirstFault, Begins, IsCutLength};
ghost use Rattle.nbt.specs.declared.refusals.NbtKind.{NbtKind};

use crate::reader::read;
use crate::refusals::NbtRefusal;
use crate::trees::Root;
use crate::writer::write;
use rp_text::NoMemory;
use std::alloc::Global;

/// Writes the root and reads it again. Only want of memory stops it.
pub fn written_is_read(alloc: Global, root: &Root) -> Result<Root, NoMemory>
    requires { CanBeSpelled (plain_root root.now) }
    ensures { IfOk result (λ again. plain_root again ≡ plain_root root.now) }
{
    let mut bytes = Vec::new(alloc);
    write(root, &mut bytes)?;
    match read(alloc, &bytes) {
        Ok(again) => Ok(again),
        Err(NbtRefusal::At { .. }) => unreachable!(),
        Err(NbtRefusal::NoMemory) => Err(NoMemory),
    }
}

/// Bytes spell one root at most.
pub fn one_root()
    ensures { (bytes : List ℕ) (a b : PlainRoot) → Spells bytes a → Spells bytes b → a ≡ b }
{}

/// A spelling is bytes: each of its numbers is below 256.
pub fn a_spelling_is_bytes()
    ensures { (bytes : List ℕ) (root : PlainRoot) → Spells bytes root → AreBytes bytes }
{}

/// No spelling is the beginning of another one, so a file says itself where it ends.
pub fn no_longer_spelling()
    ensures { (a b : PlainRoot) (rest : List ℕ) → CanBeSpelled a → CanBeSpelled b
        → spelling a ++ rest ≡ spelling b → rest ≡ [] }
{}

/// Bytes that have a fault spell no root.
pub fn a_fault_excludes()
    ensures { (bytes : List ℕ) (place : ℕ) (kind : NbtKind) (root : PlainRoot)
        → IsFirstFault bytes place kind → Spells bytes root → ⊥ }
{}

/// The bytes before a fault's place begin the spelling of some root, but for a length that the end
/// of the file cuts.
pub fn a_fault_is_the_first()
    ensures { (bytes : List ℕ) (place : ℕ) (kind : NbtKind) → IsFirstFault bytes place kind
        → Begins (take place bytes) ⊎ IsCutLength bytes }
{}

/// Bytes spell a root, or have a first fault. `a_fault_excludes` says that they never do both.
pub fn a_root_or_a_fault()
    ensures { (bytes : List ℕ) → AreBytes bytes
        → ((root : PlainRoot) × Spells bytes root)
        ⊎ ((place : ℕ) × (kind : NbtKind) × IsFirstFault bytes place kind) }
{}

/// Bytes have one first fault at most: one place and one kind.
pub fn one_first_fault()
    ensures { (bytes : List ℕ) (place other : ℕ) (kind also : NbtKind)
        → IsFirstFault bytes place kind → IsFirstFault bytes other also
        → (place ≡ other) × (kind ≡ also) }
{}
