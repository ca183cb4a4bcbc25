//! Laws of the links and of the raw graph. Each is a function with nothing to do whose contract is
//! the law.

ghost use Rattle.std.specs.Prelude.{◌≡◌, ◌≤◌, ◌↔◌, ℕ, List, Some, Contains, map, slice_index};
ghost use Rattle.wire_net.specs.Net.{Cell, IsRight, IsBounded, IsGreatestReached};
ghost use Rattle.circuit.specs.declared.Pos.{Pos};
ghost use Rattle.circuit.specs.declared.Component.{Component};
ghost use Rattle.circuit.specs.Circuit.{State, outs};
ghost use Rattle.circuit.specs.Bounds.{Bounded};
ghost use Rattle.circuit.specs.Shows.{Refines, RefinesBy};
ghost use Rattle.build.specs.Plan.{Plan, IsWhole};
ghost use Rattle.build.specs.Roles.{role_at};
ghost use Rattle.power_rules.specs.World.{world_circuit};
ghost use Rattle.graph.specs.Graph.{Node, node_at, HasNode};
ghost use Rattle.graph.specs.Readings.{readings_of};
ghost use Rattle.graph.specs.GraphCircuit.{graph_circuit};
ghost use Rattle.graph.specs.Sound.{IsSound};
ghost use Rattle.input_search.specs.Links.{wire_links, at_weight};
ghost use Rattle.input_search.specs.Distances.{IsDistance, AreOrdered};
ghost use Rattle.input_search.specs.Raw.{raw, stands_at, HoldAlike};

/// The law of least distances, over any net of cells. Where each cell has the power that it must
/// have, its power is the greatest of 0 and, over all cells that it reaches along feeders, their
/// base power less the least number of steps.
pub fn powers_are_by_distance()
    ensures { (net : List Cell) (powers : List ℕ) → IsBounded net → IsRight net powers →
        (cell : ℕ) → IsGreatestReached net cell (slice_index powers cell) }
{}

/// The nodes of the raw graph read what their places read: in each state of the world, where each
/// node gives what its place gives.
pub fn nodes_read_as_places()
    ensures { (b : Plan) → IsWhole b → (marks : List Pos) →
        (s : State Pos) → Bounded (world_circuit b marks) s →
        (given : ℕ → ℕ) → ((key : ℕ) (node : Node) → node_at (raw b marks) key ≡ Some node →
        given key ≡ outs (world_circuit b marks) s node.pos) →
        (key : ℕ) (node : Node) → node_at (raw b marks) key ≡ Some node →
        readings_of given node ≡ (world_circuit b marks).readings (outs (world_circuit b marks) s) node.pos }
{}

/// All that the raw graph shows, the world shows.
pub fn raw_shows_the_world()
    ensures { (b : Plan) → IsWhole b → (marks : List Pos) →
        Refines (world_circuit b marks) (graph_circuit (raw b marks)) }
{}

/// All that the raw graph plays, the world plays: with the same firing lists, by place, and to a
/// last state in which each place of a node holds what the node holds.
pub fn raw_plays_in_order()
    ensures { (b : Plan) → IsWhole b → (marks : List Pos) →
        RefinesBy (world_circuit b marks) (graph_circuit (raw b marks))
        (map (map (stands_at (raw b marks)))) (HoldAlike (raw b marks)) }
{}

/// Each component of the world has a node.
pub fn components_have_nodes()
    ensures { (b : Plan) (marks : List Pos) (p : Pos) (component : Component) →
        role_at b marks p ≡ Some component → HasNode (raw b marks) (λ node. node.pos ≡ p) }
{}

/// The raw graph is sound.
pub fn raw_is_sound()
    ensures { (b : Plan) → IsWhole b → (marks : List Pos) → IsSound (raw b marks) }
{}

/// The wire at a place has a link from each component that is at most 15 steps away, and from no
/// other, with the least number of steps as its weight.
pub fn links_are_distances()
    ensures { (b : Plan) (w s : Pos) (n : ℕ) →
        Contains (wire_links b w) (at_weight n s) ↔ ((n ≤ 15) × IsDistance b w s n) }
{}

/// The links of a wire stand by distance, and those of one distance by place.
pub fn links_are_ordered()
    ensures { (b : Plan) (w : Pos) → AreOrdered b (wire_links b w) }
{}
