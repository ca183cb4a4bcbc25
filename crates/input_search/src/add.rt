//! Links that go into the nodes of a graph, within the room that was made for them.

ghost use Rattle.std.specs.Prelude.{◌≡◌, ℕ, ◌+◌, ◌<◌, ◌≤◌, [], All, length, take};
ghost use Rattle.graph.specs.Graph.{node_at, Lives, spare_of, KeepsOtherRoom};
ghost use Rattle.graph.specs.Edits.{add_link, change};
ghost use Rattle.graph.specs.Links.{in_groups};
ghost use Rattle.input_search.specs.Added.{links_under, with_links};

use graph::{Graph, Link, NodeKey};

// Puts in a link for which there is room.
fn add_in_room(graph: &mut Graph, to: NodeKey, link: Link)
    requires to { Lives graph.old.nodes to }
    requires from { Lives graph.old.nodes link.from }
    requires room { 0 < spare_of graph.old to }
    ensures nodes { graph.new.nodes ≡ add_link graph.old.nodes to link }
    ensures room { spare_of graph.new to + 1 ≡ spare_of graph.old to }
    ensures others { KeepsOtherRoom graph.old graph.new to }
{
    graph.add_link(to, link).unwrap();
}

/// Puts these links into a node that has none.
pub(crate) fn add_all(graph: &mut Graph, to: NodeKey, links: &[Link])
    requires to { Lives graph.old.nodes to }
    requires from { All (λ link. Lives graph.old.nodes link.from) links.now }
    requires room { length links.now ≤ spare_of graph.old to }
    requires fresh { links_under (node_at graph.old.nodes to) ≡ [] }
    requires groups { (n : ℕ) → in_groups (take n links.now) ≡ take n links.now }
    ensures nodes { graph.new.nodes ≡ change (with_links links.now) graph.old.nodes to }
    ensures others { KeepsOtherRoom graph.old graph.new to }
{
    for link in links {
        add_in_room(graph, to, *link);
    }
}
