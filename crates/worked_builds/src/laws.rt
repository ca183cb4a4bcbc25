//! What the worked builds show, in whatever order what is due together fires. Each law is a function
//! with nothing to do whose contract says it of a build, its marks, a script, and the views after
//! the start and each step.

ghost use Rattle.std.specs.Prelude.{◌≡◌, [], ◌∷◌, codes};
ghost use Rattle.block_table.specs.Table.{name_at};
ghost use Rattle.worked_builds.specs.ShowsOnly.{ShowsOnly};
ghost use Rattle.worked_builds.specs.Words.{stone_button, barrel_name, stone_name, glass_name, oak_button, light_plate, at, use_at, weigh_at, leave_at, ticks, single};
ghost use Rattle.worked_builds.specs.Clicked.{lever_and_lamp, lever_and_note_block, lever_and_trapdoor, stone_button_and_lamp, oak_button_and_lamp, weighted_plate};
ghost use Rattle.worked_builds.specs.Comparators.{barrel_and_comparator, barrel_behind_stone, composter_and_comparator, two_comparators};
ghost use Rattle.worked_builds.specs.Repeaters.{slow_repeater, lockable_repeater, back_and_lock};
ghost use Rattle.worked_builds.specs.Torches.{inverter, twins, twins_with_a_pending_tick, clock, and_gate};
ghost use Rattle.worked_builds.specs.Wires.{long_wire, wire_over_glass, wire_square, two_ways_into_one_block};

/// A lamp goes on with its lever at once, and off two ticks after it.
pub fn a_lamp_goes_on_at_once_and_off_after_two_ticks()
    ensures { ShowsOnly lever_and_lamp []
        (use_at 0 0 0 ∷ ticks 1 ∷ use_at 0 0 0 ∷ ticks 2 ∷ [])
        (single (0 ∷ 1 ∷ 1 ∷ 1 ∷ 1 ∷ 0 ∷ [])) }
{}

/// A note block goes on and off with its lever at once.
pub fn a_note_block_follows_at_once()
    ensures { ShowsOnly lever_and_note_block []
        (use_at 0 0 0 ∷ ticks 1 ∷ use_at 0 0 0 ∷ [])
        (single (0 ∷ 1 ∷ 1 ∷ 0 ∷ [])) }
{}

/// So does a trapdoor.
pub fn a_trapdoor_follows_at_once()
    ensures { ShowsOnly lever_and_trapdoor []
        (use_at 0 0 0 ∷ ticks 1 ∷ use_at 0 0 0 ∷ [])
        (single (0 ∷ 1 ∷ 1 ∷ 0 ∷ [])) }
{}

/// A button of stone goes off ten ticks after it was pressed first, and its lamp two ticks later.
pub fn a_stone_button_goes_off_after_ten_ticks()
    ensures { ShowsOnly stone_button_and_lamp []
        (use_at 0 0 0 ∷ use_at 0 0 0 ∷ ticks 12 ∷ [])
        (single (0 ∷ 1 ∷ 1 ∷ 1 ∷ 1 ∷ 1 ∷ 1 ∷ 1 ∷ 1 ∷ 1 ∷ 1 ∷ 1 ∷ 1 ∷ 1 ∷ 0 ∷ [])) }
{}

/// A button of wood goes off after fifteen ticks.
pub fn an_oak_button_goes_off_after_fifteen_ticks()
    ensures { ShowsOnly oak_button_and_lamp []
        (use_at 0 0 0 ∷ ticks 17 ∷ [])
        (single (0 ∷ 1 ∷ 1 ∷ 1 ∷ 1 ∷ 1 ∷ 1 ∷ 1 ∷ 1 ∷ 1 ∷ 1 ∷ 1 ∷ 1 ∷ 1 ∷ 1 ∷ 1 ∷ 1 ∷ 1 ∷ 0 ∷ [])) }
{}

/// A weighted plate gives its weight, which the second wire shows less one.
pub fn a_weighted_plate_gives_its_weight()
    ensures { ShowsOnly weighted_plate (at 2 1 0 ∷ [])
        (weigh_at 0 1 0 7 ∷ leave_at 0 1 0 ∷ [])
        (single (0 ∷ 6 ∷ 0 ∷ [])) }
{}

/// A wire loses one from cell to cell: the fifteenth one has 1, the sixteenth 0.
pub fn a_wire_loses_one_from_cell_to_cell()
    ensures { ShowsOnly long_wire (at 15 1 0 ∷ at 16 1 0 ∷ [])
        (use_at 0 1 0 ∷ [])
        ((0 ∷ 0 ∷ []) ∷ (1 ∷ 0 ∷ []) ∷ []) }
{}

/// Power goes up over glass, and doesn't come down.
pub fn power_goes_up_over_glass_and_not_down()
    ensures { ShowsOnly wire_over_glass (at 1 1 0 ∷ at 2 2 0 ∷ [])
        (use_at 0 1 0 ∷ use_at 0 1 0 ∷ use_at 3 2 0 ∷ [])
        ((0 ∷ 0 ∷ []) ∷ (15 ∷ 14 ∷ []) ∷ (0 ∷ 0 ∷ []) ∷ (0 ∷ 15 ∷ []) ∷ []) }
{}

/// Power goes round a corner.
pub fn power_goes_round_a_corner()
    ensures { ShowsOnly wire_square (at 1 1 0 ∷ at 2 1 1 ∷ [])
        (use_at 0 1 0 ∷ use_at 0 1 0 ∷ [])
        ((0 ∷ 0 ∷ []) ∷ (15 ∷ 13 ∷ []) ∷ (0 ∷ 0 ∷ []) ∷ []) }
{}

/// Of two wires that give power to one block the stronger one counts.
pub fn the_stronger_of_two_wires_counts()
    ensures { ShowsOnly two_ways_into_one_block (at 6 1 0 ∷ [])
        (use_at 0 1 0 ∷ ticks 1 ∷ [])
        (single (0 ∷ 0 ∷ 13 ∷ [])) }
{}

/// A torch goes off one tick after its lever went on, and its lamp two ticks later.
pub fn a_torch_inverts()
    ensures { ShowsOnly inverter []
        (use_at 0 0 0 ∷ ticks 3 ∷ [])
        (single (1 ∷ 1 ∷ 1 ∷ 1 ∷ 0 ∷ [])) }
{}

/// Two torches of one block go off in the same tick.
pub fn two_torches_of_one_block_go_off_together()
    ensures { ShowsOnly twins []
        (use_at 1 2 0 ∷ ticks 3 ∷ [])
        ((1 ∷ 1 ∷ []) ∷ (1 ∷ 1 ∷ []) ∷ (1 ∷ 1 ∷ []) ∷ (1 ∷ 1 ∷ []) ∷ (0 ∷ 0 ∷ []) ∷ []) }
{}

/// A torch that has a pending tick before the start goes off with that tick, and gets no other.
pub fn a_pending_tick_of_the_file_is_kept()
    ensures { ShowsOnly twins_with_a_pending_tick []
        (use_at 1 2 0 ∷ ticks 7 ∷ [])
        ((1 ∷ 1 ∷ []) ∷ (1 ∷ 1 ∷ []) ∷ (1 ∷ 1 ∷ []) ∷ (1 ∷ 1 ∷ []) ∷ (0 ∷ 1 ∷ []) ∷ (0 ∷ 1 ∷ []) ∷ (0 ∷ 1 ∷ []) ∷ (0 ∷ 1 ∷ []) ∷ (0 ∷ 0 ∷ []) ∷ []) }
{}

/// A torch whose block gets its own power goes off and on from tick to tick.
pub fn a_torch_that_feeds_itself_is_a_clock()
    ensures { ShowsOnly clock (at 0 2 0 ∷ [])
        (ticks 4 ∷ [])
        (single (15 ∷ 0 ∷ 15 ∷ 0 ∷ 15 ∷ [])) }
{}

/// The lamp of an AND gate is on where both levers are.
pub fn an_and_gate_is_on_with_both_levers()
    ensures { ShowsOnly and_gate []
        (use_at 0 0 0 ∷ ticks 4 ∷ use_at 2 0 0 ∷ ticks 4 ∷ use_at 0 0 0 ∷ ticks 6 ∷ [])
        (single (0 ∷ 0 ∷ 0 ∷ 0 ∷ 0 ∷ 0 ∷ 0 ∷ 0 ∷ 1 ∷ 1 ∷ 1 ∷ 1 ∷ 1 ∷ 1 ∷ 1 ∷ 0 ∷ 0 ∷ 0 ∷ [])) }
{}

/// A repeater of four ticks passes on a pulse of one tick: it goes on at 4 and off at 8, and the
/// lamp goes off at 10.
pub fn a_repeater_keeps_a_short_pulse()
    ensures { ShowsOnly slow_repeater []
        (use_at 0 1 0 ∷ ticks 1 ∷ use_at 0 1 0 ∷ ticks 9 ∷ [])
        (single (0 ∷ 0 ∷ 0 ∷ 0 ∷ 0 ∷ 0 ∷ 1 ∷ 1 ∷ 1 ∷ 1 ∷ 1 ∷ 1 ∷ 0 ∷ [])) }
{}

/// A repeater that is locked while it is off stays off when its back goes on, and goes on one tick
/// after its lock is gone.
pub fn a_locked_repeater_stays_off()
    ensures { ShowsOnly lockable_repeater []
        (use_at 1 1 2 ∷ ticks 1 ∷ use_at 0 1 0 ∷ ticks 3 ∷ use_at 1 1 2 ∷ ticks 2 ∷ [])
        (single (0 ∷ 0 ∷ 0 ∷ 0 ∷ 0 ∷ 0 ∷ 0 ∷ 0 ∷ 0 ∷ 1 ∷ [])) }
{}

/// A repeater that is locked while it is on stays on when its back goes off.
pub fn a_locked_repeater_stays_on()
    ensures { ShowsOnly lockable_repeater []
        (use_at 0 1 0 ∷ ticks 1 ∷ use_at 1 1 2 ∷ ticks 1 ∷ use_at 0 1 0 ∷ ticks 3 ∷ use_at 1 1 2 ∷ ticks 4 ∷ [])
        (single (0 ∷ 0 ∷ 1 ∷ 1 ∷ 1 ∷ 1 ∷ 1 ∷ 1 ∷ 1 ∷ 1 ∷ 1 ∷ 1 ∷ 1 ∷ 0 ∷ [])) }
{}

/// Where the back and the lock of a repeater go on in one tick, it stays off, whichever fires
/// first.
pub fn a_lock_wins_against_a_back_of_the_same_tick()
    ensures { ShowsOnly back_and_lock []
        (use_at 0 1 0 ∷ ticks 3 ∷ [])
        (single (0 ∷ 0 ∷ 0 ∷ 0 ∷ 0 ∷ [])) }
{}

/// A comparator reads what a barrel holds.
pub fn a_comparator_reads_a_barrel()
    ensures { ShowsOnly barrel_and_comparator (at 2 0 0 ∷ [])
        (ticks 1 ∷ [])
        (single (0 ∷ 7 ∷ [])) }
{}

/// So it does through a stone.
pub fn a_comparator_reads_a_barrel_through_a_stone()
    ensures { ShowsOnly barrel_behind_stone (at 3 0 0 ∷ [])
        (ticks 1 ∷ [])
        (single (0 ∷ 7 ∷ [])) }
{}

/// It reads a composter too.
pub fn a_comparator_reads_a_composter()
    ensures { ShowsOnly composter_and_comparator (at 2 0 0 ∷ [])
        (ticks 1 ∷ [])
        (single (0 ∷ 5 ∷ [])) }
{}

/// A lever turns on the comparators at both of its sides.
pub fn a_lever_turns_on_two_comparators()
    ensures { ShowsOnly two_comparators []
        (use_at 2 1 0 ∷ ticks 1 ∷ [])
        ((0 ∷ 0 ∷ []) ∷ (0 ∷ 0 ∷ []) ∷ (1 ∷ 1 ∷ []) ∷ []) }
{}

/// The numbers that the builds have for names stand for these names.
pub fn names_have_these_numbers()
    ensures stone { name_at stone_name ≡ codes "stone" }
    ensures glass { name_at glass_name ≡ codes "glass" }
    ensures barrel { name_at barrel_name ≡ codes "barrel" }
    ensures stone_button { name_at stone_button ≡ codes "stone_button" }
    ensures oak_button { name_at oak_button ≡ codes "oak_button" }
    ensures plate { name_at light_plate ≡ codes "light_weighted_pressure_plate" }
{}
