//! A pass that drops links which weigh as much as their source ever gives.
#![tactic(auto)]

ghost use Rattle.std.specs.Prelude.{◌≡◌, false, OnOk};
ghost use Rattle.std.specs.List.{list_any};
ghost use Rattle.graph.specs.Graph.{node_at};
ghost use Rattle.graph.specs.LinkAt.{EachLink, SameOthers};
ghost use Rattle.graph.specs.Sound.{IsSound};
ghost use Rattle.graph.specs.Steps.{Unreaches};
ghost use Rattle.pass_frame.specs.Frame.{Ran, IsDone};
ghost use Rattle.pass_frame.specs.Rounds.{Exhausts};
ghost use Rattle.pass_frame.specs.Took.{Took};
ghost use Rattle.unreach.specs.Reached.{is_spent, HasBound, IsReached, SameBounds};

use bounds::Bounds;
use graph::{Graph, Link, NodeKey};
use pass_frame::Pass;
use rp_text::NoMemory;

mod bounds;
pub mod laws;

/// Drops each link that weighs at least the bound of its source: the state of a Constant; for a
/// comparator that subtracts 15 less what Constants bring to its side, or its own state where
/// that is more; and 15 for every other node.
///
/// No drop changes a bound, so the bounds are found once. Each link is looked at twice, and once
/// more into a node where one goes.
#[derive(Drop)]
pub struct Unreach;

impl Pass for Unreach {
    ghost step = { Unreaches };

    ghost turn = { Exhausts Unreaches };

    fn run(&mut self, graph: &mut Graph) -> Result<bool, NoMemory>
        requires { IsSound graph.old.nodes }
        ensures ran { Ran Unreaches graph.old.nodes result graph.new.nodes }
        ensures done { OnOk result (IsDone Unreaches graph.new.nodes) }
        ensures turn { OnOk result (Exhausts Unreaches graph.old.nodes graph.new.nodes) }
    {
        let mut took = false;
        let keys = graph.keys()?;
        let bounds = Bounds::new(*keys.allocator(), graph, &keys)?;
        for key in &keys {
            took |= drop_spent_links(graph, *key, &bounds);
        }
        Ok(took)
    }

    ghost use Rattle.unreach.specs.UnreachLaws.{unreach_keeps_sound, unreach_refines, unreach_falls};

    ghost keeps_sound = { unreach_keeps_sound };

    ghost refines = { unreach_refines };

    ghost falls = { unreach_falls };
}

// Drops the links into the node that weigh too much, and says whether there was one.
fn drop_spent_links(graph: &mut Graph, key: NodeKey, bounds: &Bounds) -> bool
    requires { EachLink (λ link. HasBound graph.old.nodes bounds.now.list.items link.from) (node_at graph.old.nodes key) }
    ensures took { Took Unreaches graph.old.nodes result graph.new.nodes }
    ensures reached { IsReached bounds.now.list.items (node_at graph.new.nodes key) }
    ensures others { SameOthers graph.old.nodes graph.new.nodes key }
    ensures bounds { SameBounds graph.old.nodes graph.new.nodes }
{
    if has_spent_link(graph, key, bounds) {
        sift_spent_links(graph, key, bounds)
    } else {
        false
    }
}

// Whether a link into the node weighs too much.
fn has_spent_link(graph: &Graph, key: NodeKey, bounds: &Bounds) -> bool
    ensures { result ≡ false → IsReached bounds.now.list.items (node_at graph.now.nodes key) }
{
    match graph.node(key) {
        Some(node) => has_spent(&node.links.items, bounds),
        None => false,
    }
}

fn has_spent(links: &[Link], bounds: &Bounds) -> bool
    ensures { result ≡ list_any (is_spent bounds.now.list.items) links.now }
{
    links.iter().any(|link| is_spent(link, bounds))
}

fn is_spent(link: &Link, bounds: &Bounds) -> bool
    ensures { result ≡ is_spent bounds.now.list.items link.now }
{
    link.weight >= bounds.of(link.from)
}

// Takes the links into the node, and puts back those that don't weigh too much.
fn sift_spent_links(graph: &mut Graph, key: NodeKey, bounds: &Bounds) -> bool
    requires { EachLink (λ link. HasBound graph.old.nodes bounds.now.list.items link.from) (node_at graph.old.nodes key) }
    ensures took { Took Unreaches graph.old.nodes result graph.new.nodes }
    ensures reached { IsReached bounds.now.list.items (node_at graph.new.nodes key) }
    ensures others { SameOthers graph.old.nodes graph.new.nodes key }
    ensures bounds { SameBounds graph.old.nodes graph.new.nodes }
{
    let Some(mut links) = graph.take_links(key) else {
        return false;
    };
    let mut took = false;
    while let Some(link) = links.link() {
        if is_spent(&link, bounds) {
            links.discard();
            took = true;
        } else {
            links.keep();
        }
    }
    graph.put_links(key, links);
    took
}
