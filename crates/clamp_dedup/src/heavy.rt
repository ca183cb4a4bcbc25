//! Links that weigh 15 or more.

ghost use Rattle.std.specs.Prelude.{◌≡◌, false};
ghost use Rattle.std.specs.List.{list_any};
ghost use Rattle.graph.specs.Graph.{node_at};
ghost use Rattle.graph.specs.LinkAt.{SameOthers};
ghost use Rattle.graph.specs.Steps.{Clamps};
ghost use Rattle.pass_frame.specs.Took.{Took};
ghost use Rattle.clamp_dedup.specs.Clamped.{is_heavy, IsClamped};

use graph::{Graph, Link, NodeKey};

// No node gives more than this.
const MOST_POWER: u8 = 15;

// Drops the heavy links into the node, and says whether there was one.
pub fn drop_heavy_links(graph: &mut Graph, key: NodeKey) -> bool
    ensures took { Took Clamps graph.old.nodes result graph.new.nodes }
    ensures light { IsClamped (node_at graph.new.nodes key) }
    ensures others { SameOthers graph.old.nodes graph.new.nodes key }
{
    if has_heavy_link(graph, key) {
        sift_heavy_links(graph, key)
    } else {
        false
    }
}

// Whether a heavy link goes into the node.
fn has_heavy_link(graph: &Graph, key: NodeKey) -> bool
    ensures { result ≡ false → IsClamped (node_at graph.now.nodes key) }
{
    match graph.node(key) {
        Some(node) => has_heavy(&node.links.items),
        None => false,
    }
}

fn has_heavy(links: &[Link]) -> bool
    ensures { result ≡ list_any is_heavy links.now }
{
    links.iter().any(|link| is_heavy(link))
}

fn is_heavy(link: &Link) -> bool
    ensures { result ≡ is_heavy link.now }
{
    link.weight >= MOST_POWER
}

// Takes the links into the node, and puts back those that aren't heavy.
fn sift_heavy_links(graph: &mut Graph, key: NodeKey) -> bool
    ensures took { Took Clamps graph.old.nodes result graph.new.nodes }
    ensures light { IsClamped (node_at graph.new.nodes key) }
    ensures others { SameOthers graph.old.nodes graph.new.nodes key }
{
    let Some(mut links) = graph.take_links(key) else {
        return false;
    };
    let mut took = false;
    while let Some(link) = links.link() {
        if is_heavy(&link) {
            links.discard();
            took = true;
        } else {
            links.keep();
        }
    }
    graph.put_links(key, links);
    took
}
