//! Laws of all circuits. Each is a function with nothing to do whose contract is the law.

ghost use Rattle.std.specs.Prelude.{◌≡◌, ℕ, ◌+◌, List, ◌++◌, drop};
ghost use Rattle.circuit.specs.Circuit.{Circuit, State, attend, IsFiringList};
ghost use Rattle.circuit.specs.Keys.{IsTest, IsListed};
ghost use Rattle.circuit.specs.Firing.{Fires};
ghost use Rattle.circuit.specs.declared.Step.{Step};
ghost use Rattle.circuit.specs.declared.Act.{Act};
ghost use Rattle.circuit.specs.Shows.{Run, Plays, clicks_in, fires_in};
ghost use Rattle.circuit.specs.Joining.{GoesOn, IsMovedOn};
ghost use Rattle.circuit.specs.Taken.{EachTaken};

/// Once all components have attended, attending again changes nothing.
pub fn attending_settles<K>()
    ensures { (C : Circuit K) (s : State K) → attend C (attend C s) ≡ attend C s }
{}

/// What fires one by one, least priority first, until nothing is due, is a firing list of the
/// state in which the first fired: no firing makes another component due in its own tick.
pub fn one_by_one_is_a_firing_list<K>()
    ensures { (C : Circuit K) → IsTest C.same → (s : State K) (keys : List K) →
        Fires C s keys → IsFiringList C s keys }
{}

/// Each run can be finished: from each state there is a run of all steps whose clicks are taken.
pub fn runs_can_be_finished<K>()
    ensures { (C : Circuit K) (keys : List K) → IsListed C keys →
        (steps : List Step) → EachTaken C steps → (s : State K) →
        (order : List (List K)) × (views : List (List ℕ)) × (last : State K) ×
        Run C s steps order views last }
{}

/// A run may be cut in two: where a circuit goes on from the last state of a run, both runs one
/// after the other are a run, in as many events, to the last state of the second with its times
/// moved on.
pub fn runs_can_be_joined<K>()
    ensures runs { (C D : Circuit K) → IsTest C.same →
        (acts : List Act) (order : List (List K)) (views : List (List ℕ)) (last : State K) →
        Plays C acts order views last → GoesOn C last D →
        (more_acts : List Act) (more_order : List (List K)) (more_views : List (List ℕ)) →
        (end : State K) → Plays D more_acts more_order more_views end →
        (joined : State K) × IsMovedOn C last.time end joined
        × Plays C (acts ++ more_acts) (order ++ more_order) (views ++ drop 1 more_views) joined }
    ensures clicks { (acts more : List Act) →
        clicks_in (acts ++ more) ≡ clicks_in acts + clicks_in more }
    ensures firings { (order more : List (List K)) →
        fires_in (order ++ more) ≡ fires_in order + fires_in more }
{}
