//! Laws of the world. Each is a function with nothing to do whose contract is the law.

ghost use Rattle.std.specs.Prelude.{◌≡◌, ◌+◌, ◌<◌, ◌≤◌, ◌++◌, true, ℕ, List, map, codes, drop};
ghost use Rattle.std.specs.List.{range_with_len};
ghost use Rattle.block_table.specs.Table.{name_at, ended, woods};
ghost use Rattle.circuit.specs.declared.Act.{Act};
ghost use Rattle.circuit.specs.Circuit.{Among, Each, State, attend};
ghost use Rattle.circuit.specs.Shows.{Plays};
ghost use Rattle.circuit.specs.Bounds.{Bounded};
ghost use Rattle.build.specs.Roles.{first_wooden_button};
ghost use Rattle.wire_shape.specs.Feeders.{feeders};
ghost use Rattle.circuit.specs.declared.Pos.{Pos};
ghost use Rattle.build.specs.Plan.{Plan, IsWhole, entry};
ghost use Rattle.wire_shape.specs.Shape.{wire_at};
ghost use Rattle.power_rules.specs.RightWires.{AreRight, source_power, wire_powers};
ghost use Rattle.power_rules.specs.World.{world_circuit, shows};
ghost use Rattle.power_rules.specs.StandsFor.{StandsFor};
ghost use Rattle.power_rules.specs.Moments.{moments, given_in, IsRightIn};

/// Exactly one map of powers is right for what the components give: the computed one. A power
/// above what a wire reads without dust comes from a feeder that has one more.
pub fn wires_have_one_right_map()
    ensures right { (b : Plan) (given : Pos → ℕ) → ((p : Pos) → given p ≤ 15) →
        AreRight b given (entry b (wire_powers b given) 0) }
    ensures unique { (b : Plan) (given power other : Pos → ℕ) → AreRight b given power → AreRight b given other →
        (p : Pos) → wire_at b p ≡ true → power p ≡ other p }
    ensures fed { (b : Plan) (given power : Pos → ℕ) → AreRight b given power →
        (p : Pos) → wire_at b p ≡ true → source_power b given p < power p →
        (q : Pos) × Among (feeders b p) q × (power q ≡ power p + 1) }
{}

/// The buttons of wood are those of these names.
pub fn wooden_buttons_are_named()
    ensures { map name_at (range_with_len first_wooden_button 8) ≡ ended woods (codes "_button") }
{}

/// A run may be cut in two: where a build stands for the last state of a run, what it shows from
/// there goes on with what was shown.
pub fn runs_can_be_joined()
    ensures { (before after : Plan) (marks : List Pos) →
        (acts : List Act) (order : List (List Pos)) (views : List (List ℕ)) (last : State Pos) →
        Plays (world_circuit before marks) acts order views last → StandsFor before last after →
        (more_acts : List Act) (more_views : List (List ℕ)) → shows after marks more_acts more_views →
        shows before marks (acts ++ more_acts) (views ++ drop 1 more_views) }
{}

/// No value of a run passes the bound of its component.
pub fn values_stay_in_bounds()
    ensures { (b : Plan) → IsWhole b → (marks : List Pos) →
        (acts : List Act) (order : List (List Pos)) (views : List (List ℕ)) (last : State Pos) →
        Plays (world_circuit b marks) acts order views last → Bounded (world_circuit b marks) last }
{}

/// All is right at every moment of a run, also between two firings of one tick: what each place
/// reads it reads under the one right map of powers for what the components give then, and nothing
/// passes its bound. What the components attend to at an event is what is given after it.
pub fn every_moment_is_right()
    ensures right { (b : Plan) → IsWhole b → (marks : List Pos) →
        (acts : List Act) (order : List (List Pos)) (views : List (List ℕ)) (last : State Pos) →
        (plays : Plays (world_circuit b marks) acts order views last) → Each (IsRightIn b marks) (moments plays.run) }
    ensures attended { (b : Plan) (marks : List Pos) (s : State Pos) →
        given_in b marks (attend (world_circuit b marks) s) ≡ given_in b marks s }
{}
