//! What holds of the format itself. These calls do nothing: the contract is the law.

ghost use Rattle.std.specs.Prelude.{◌≡◌, ◌⊎◌, ℕ, List};
ghost use Rattle.nbt.specs.Spelling.{AreBytes};
ghost use Rattle.build.specs.Plan.{Plan, IsWhole};
ghost use Rattle.schematic.specs.File.{Refusal, file, IsFirstRefusal};

/// Bytes mean one build at most.
pub fn one_build()
    ensures { (bytes : List ℕ) (a b : Plan) → file bytes a → file bytes b → a ≡ b }
{}

/// Bytes that mean a build have no cause to be refused.
pub fn a_refusal_excludes()
    ensures { (bytes : List ℕ) (build : Plan) (refusal : Refusal)
        → file bytes build → IsFirstRefusal bytes refusal → ⊥ }
{}

/// Bytes mean a build, or there is a first cause to refuse them.
pub fn a_build_or_a_refusal()
    ensures { (bytes : List ℕ) → AreBytes bytes → ((build : Plan) × file bytes build)
        ⊎ ((refusal : Refusal) × IsFirstRefusal bytes refusal) }
{}

/// Bytes have one first cause to be refused at most.
pub fn one_first_cause()
    ensures { (bytes : List ℕ) (one other : Refusal)
        → IsFirstRefusal bytes one → IsFirstRefusal bytes other → other ≡ one }
{}

/// A build that bytes mean is whole, so each law over whole builds speaks of it.
pub fn what_is_read_is_whole()
    ensures { (bytes : List ℕ) (build : Plan) → file bytes build → IsWhole build }
{}
