//! Links beside a lighter one with the same ends and group.

ghost use Rattle.std.specs.Prelude.{◌≡◌, ◌==◌, ◌&&◌, ℕ, true, length};
ghost use Rattle.std.specs.List.{list_any};
ghost use Rattle.graph.specs.Graph.{Node, node_at};
ghost use Rattle.graph.specs.Items.{keys_of};
ghost use Rattle.graph.specs.LinkAt.{links_of, SameOthers};
ghost use Rattle.graph.specs.Links.{is_group};
ghost use Rattle.graph.specs.Steps.{Dedups};
ghost use Rattle.pass_frame.specs.Took.{Took};
ghost use Rattle.clamp_dedup.specs.Single.{is_beside, AreSingle, IsSingle};
ghost use Rattle.clamp_dedup.specs.Weights.{IsEmpty, HasSlotsFor, HoldsLeast};

use crate::weights::Weights;
use graph::{Graph, Group, Link, NodeKey};

// Of so many links each pair is looked at, and of more the weights are noted.
const FEW: usize = 8;

// Drops the links into the node beside which a better one stands, and says whether there was one.
pub fn drop_doubled_links(graph: &mut Graph, key: NodeKey, weights: &mut Weights) -> bool
    requires room { HasSlotsFor weights.old.slots.items (links_of (node_at graph.old.nodes key)) }
    requires empty { IsEmpty weights.old.slots.items }
    ensures took { Took Dedups graph.old.nodes result graph.new.nodes }
    ensures single { IsSingle (node_at graph.new.nodes key) }
    ensures others { SameOthers graph.old.nodes graph.new.nodes key }
    ensures empty { IsEmpty weights.new.slots.items }
    ensures size { length weights.new.slots.items ≡ length weights.old.slots.items }
{
    if has_few_single_links(graph, key) {
        false
    } else {
        sift_doubled_links(graph, key, weights)
    }
}

// Whether all these nodes, which are all of the graph, have few links and none doubled.
pub fn have_few_single_links(graph: &Graph, keys: &[NodeKey]) -> bool
    requires { keys.now ≡ keys_of graph.now.nodes }
    ensures { result ≡ true → (key : ℕ) (node : Node) → node_at graph.now.nodes key ≡ Some node → IsSingle (Some node) }
{
    for key in keys {
        if !has_few_single_links(graph, *key) {
            return false;
        }
    }
    true
}

// Whether the node has few links, and no two of them come from one source in one group.
fn has_few_single_links(graph: &Graph, key: NodeKey) -> bool
    ensures { result ≡ true → IsSingle (node_at graph.now.nodes key) }
{
    match graph.node(key) {
        Some(node) => node.links.items.len() <= FEW && are_single(&node.links.items),
        None => true,
    }
}

// Whether no two of these links come from one source in one group.
fn are_single(links: &[Link]) -> bool
    ensures { result ≡ true → AreSingle links.now }
{
    for (index, link) in links.iter().enumerate() {
        if has_beside(&links[..index], link) {
            return false;
        }
    }
    true
}

// Whether one of these comes from the source of the link in its group.
fn has_beside(earlier: &[Link], link: &Link) -> bool
    ensures { result ≡ list_any (is_beside link.now) earlier.now }
{
    earlier.iter().any(|other| is_beside(link, other))
}

fn is_beside(link: &Link, other: &Link) -> bool
    ensures { result ≡ is_beside link.now other.now }
{
    link.from == other.from && is_group(link.group, other.group)
}

fn is_group(group: Group, other: Group) -> bool
    ensures { result ≡ is_group group other }
{
    match (group, other) {
        (Group::Back, Group::Back) | (Group::Side, Group::Side) => true,
        (Group::Back, Group::Side) | (Group::Side, Group::Back) => false,
    }
}

// Takes the links into the node, and puts back the best of each source and group.
fn sift_doubled_links(graph: &mut Graph, key: NodeKey, weights: &mut Weights) -> bool
    requires room { HasSlotsFor weights.old.slots.items (links_of (node_at graph.old.nodes key)) }
    requires empty { IsEmpty weights.old.slots.items }
    ensures took { Took Dedups graph.old.nodes result graph.new.nodes }
    ensures single { IsSingle (node_at graph.new.nodes key) }
    ensures others { SameOthers graph.old.nodes graph.new.nodes key }
    ensures empty { IsEmpty weights.new.slots.items }
    ensures size { length weights.new.slots.items ≡ length weights.old.slots.items }
{
    note_links_into(graph, key, weights);
    let Some(mut links) = graph.take_links(key) else {
        return false;
    };
    let mut took = false;
    while let Some(link) = links.link() {
        if weights.is_least(&link) {
            weights.clear(&link);
            links.keep();
        } else {
            links.discard();
            took = true;
        }
    }
    graph.put_links(key, links);
    took
}

// Notes the least weights of the links into the node.
fn note_links_into(graph: &Graph, key: NodeKey, weights: &mut Weights)
    requires room { HasSlotsFor weights.old.slots.items (links_of (node_at graph.now.nodes key)) }
    requires empty { IsEmpty weights.old.slots.items }
    ensures least { HoldsLeast (links_of (node_at graph.now.nodes key)) weights.new.slots.items }
    ensures size { length weights.new.slots.items ≡ length weights.old.slots.items }
{
    if let Some(node) = graph.node(key) {
        note_links(&node.links.items, weights);
    }
}

fn note_links(links: &[Link], weights: &mut Weights)
    requires room { HasSlotsFor weights.old.slots.items links.now }
    requires empty { IsEmpty weights.old.slots.items }
    ensures least { HoldsLeast links.now weights.new.slots.items }
    ensures size { length weights.new.slots.items ≡ length weights.old.slots.items }
{
    for link in links {
        weights.note(link);
    }
}
