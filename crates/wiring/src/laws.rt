//! Laws of taps. Each is a function with nothing to do whose contract is the law.

ghost use Rattle.std.specs.Prelude.{◌≡◌, ℕ};
ghost use Rattle.circuit.specs.declared.Pos.{Pos};
ghost use Rattle.build.specs.Plan.{Plan};
ghost use Rattle.power_rules.specs.Readings.{readings_at};
ghost use Rattle.power_rules.specs.RightWires.{source_power};
ghost use Rattle.std.specs.Prelude.{◌<◌, ◌≤◌, ◌⊎◌, List, Some, false, length, slice_index};
ghost use Rattle.wire_net.specs.Net.{IsRight, WasRight};
ghost use Rattle.wire_net.specs.Listed.{list_at};
ghost use Rattle.wire_net.specs.Noted.{Waved, IsNoted};
ghost use Rattle.wire_net.specs.WaveSteps.{Has};
ghost use Rattle.build.specs.Place.{same_place};
ghost use Rattle.wire_shape.specs.Shape.{wire_at};
ghost use Rattle.power_rules.specs.RightWires.{levels, wire_powers};
ghost use Rattle.wiring.specs.Things.{Numbered, IsNumbered, held, number_at, spot};
ghost use Rattle.wiring.specs.Wired.{Wired, IsWired, IsGiven, level_cells, row_level, back_row, side_row};
ghost use Rattle.wiring.specs.Reads.{IsPlain, back_places, side_places, direct_places, highest, readings_with, Agree};

/// What stands at a place reads the greatest level at its taps, and a comparator has strengths of
/// its own beside.
pub fn readings_are_by_taps()
    ensures { (b : Plan) (level : Pos → ℕ) → IsPlain b level → (p : Pos) →
        readings_at b level p ≡ readings_with b p (highest level (back_places b p)) (highest level (side_places b p)) }
{}

/// Where no level at its taps differs it reads the same.
pub fn readings_depend_on_taps()
    ensures { (b : Plan) (f g : Pos → ℕ) (p : Pos) → Agree f g (back_places b p) → Agree f g (side_places b p) →
        readings_at b f p ≡ readings_at b g p }
{}

/// The base power of a wire is the greatest that its direct taps give.
pub fn bases_are_by_taps()
    ensures { (b : Plan) (given : Pos → ℕ) → IsPlain b given → (p : Pos) → source_power b given p ≡ highest given (direct_places b p) }
{}

/// Where none of them gives something else it is the same.
pub fn bases_depend_on_taps()
    ensures { (b : Plan) (f g : Pos → ℕ) (p : Pos) → Agree f g (direct_places b p) → source_power b f p ≡ source_power b g p }
{}

/// Right levels of the things are the levels of the world: of a wire its power, of anything else
/// what it gives.
pub fn levels_are_of_the_world()
    ensures { (m : Numbered) → IsNumbered m → (given : Pos → ℕ) → IsGiven m given → (xs : List ℕ) → IsRight (level_cells m given) xs →
        held m xs 0 ≡ levels m.plan given (wire_powers m.plan given) }
{}

/// What stands at a place reads the greatest level of its rows.
pub fn readings_are_by_rows()
    ensures { (m : Numbered) → IsNumbered m → (xs : List ℕ) → IsPlain m.plan (held m xs 0) → (p : Pos) → wire_at m.plan p ≡ false →
        readings_at m.plan (held m xs 0) p ≡ readings_with m.plan p (row_level xs (back_row m p)) (row_level xs (side_row m p)) }
{}

/// Where one thing alone gives something else, base powers change at it and at the wires that it
/// drives alone.
pub fn bases_change_where_driven()
    ensures { (m : Numbered) → IsNumbered m → (t : Wired) → IsWired m t → (n : ℕ) → n < length m.spots →
        (f g : Pos → ℕ) → ((q : Pos) → same_place q (spot m n) ≡ false → f q ≡ g q) →
        (xs : List ℕ) → ((p : Pos) → f p ≤ 15) → IsRight (level_cells m f) xs → WasRight (level_cells m g) xs (list_at t.driven n) }
{}

/// Where the levels of the listed things alone change, each thing that is no wire reads what it
/// read, or stands in the row of readers of a listed one.
pub fn others_read_the_same()
    ensures { (m : Numbered) → IsNumbered m → (t : Wired) → IsWired m t →
        (old new : List ℕ) (waves : Waved) → ((k : ℕ) → (slice_index new k ≡ slice_index old k) ⊎ IsNoted waves k) →
        (p : Pos) (k : ℕ) → number_at m p ≡ Some k → wire_at m.plan p ≡ false →
        (readings_at m.plan (held m new 0) p ≡ readings_at m.plan (held m old 0) p) ⊎ ((tap : ℕ) × IsNoted waves tap × Has (list_at t.readers tap) k) }
{}
