//! A graph of redstone components and the links that bring power from one to another. It is what
//! a build is compiled to, and what the passes of the compiler make smaller.
#![tactic(auto)]

ghost use Rattle.std.specs.Prelude.{◌≡◌, ◌≢◌, ◌+◌, ◌<◌, ◌≤◌, ◌↔◌, [], ◌∷◌, ◌++◌, Some, length, IsTrue, OnOk, OnErr, IfOk, option_map, option_copied};
ghost use Rattle.node_arena.specs.Items.{keys_of};
ghost use Rattle.circuit.specs.Taken.{Takes};
ghost use Rattle.graph.specs.Graph.{node_at, Lives, node_count, link_count, spare_of, KeepsRoom, KeepsOtherRoom};
ghost use Rattle.graph.specs.Links.{IsInGroups};
ghost use Rattle.graph.specs.Stored.{plain};
ghost use Rattle.graph.specs.Edits.{add_link, drop_link, set_links, fold_to, merge, drop_set, HasLinkAt, IsUnlinked, IsClosed};
ghost use Rattle.graph.specs.Sieving.{begun};
ghost use Rattle.graph.specs.Merging.{IsFanOut};
ghost use Rattle.graph.specs.GraphCircuit.{graph_circuit};
ghost use Rattle.graph.specs.Clicks.{HasAnswer, HasWire, IsClickInRange};
ghost use Rattle.graph.specs.GraphText.{graph_text};

pub use circuit::{Click, Pos};
pub use keys::{count_keys, greatest_number};
pub use kinds::{back_of, can_wait, fixed_at, fixed_out, role_of, top_of};
use node_arena::{Arena, Key};
use rp_text::{NoMemory, push_bytes};
pub use sieve::Sieve;
use smallvec::SmallVec;
use std::alloc::Global;
use std::marker::Model;

mod edits;
mod keys;
mod kinds;
pub mod laws;
mod reads;
mod sieve;
mod texts;

/// What a node is. Its state is 0 or 1 (off or on) unless said otherwise.
#[derive(Clone, Copy, PartialEq, Eq, Hash, Debug)]
pub enum Kind {
    Lever,
    /// Goes off after `delay` ticks, which is 10 or 15.
    Button {
        delay: u8,
    },
    Plate,
    /// A weighted plate. Its state is 0 to 15.
    Weighted,
    Torch,
    /// Follows its back after `delay` ticks, which is 1 to 4.
    Repeater {
        delay: u8,
    },
    /// Compares or subtracts. Its state is 0 to 15. Its back reading is `direct` where that is
    /// there, and `far` where that is there and its Back links bring less than 15.
    Comparator {
        subtract: bool,
        direct: Option<u8>,
        far: Option<u8>,
    },
    Lamp,
    Trapdoor,
    /// A note block.
    Note,
    /// A wire that is looked at. Its state is 0; a view shows what it reads.
    Wire,
    /// Gives its state, 0 to 15, always.
    Constant,
}

/// The input of a node that a link goes to.
#[derive(Clone, Copy, PartialEq, Eq, Debug, Default)]
pub enum Group {
    #[default]
    Back,
    Side,
}

/// The mark of the keys of nodes.
pub struct OfNodes;

/// Names a node of a graph: the k-th node that was added has the key k, counted from 0.
pub type NodeKey = Key<OfNodes>;

/// A link into a node. It brings what `from` gives less `weight`, which is 0 to 15.
#[derive(Clone, Copy, PartialEq, Eq, Debug, Default)]
pub struct Link {
    pub from: NodeKey,
    pub group: Group,
    pub weight: u8,
}

/// The links into a node.
#[derive(Drop)]
pub struct Links {
    pub items: SmallVec<Link, 4>,
}

impl Model for Links {
    ghost use Rattle.graph.specs.Links.{LinkList, link_list};

    ghost Value = { LinkList };

    ghost view = { link_list };
}

/// A list of places.
#[derive(Drop)]
pub struct Places {
    pub items: Vec<Pos>,
}

/// A node of a graph.
#[derive(Drop)]
pub struct Node {
    pub pos: Pos,
    pub kind: Kind,
    pub state: u8,
    /// Whether it is a diode that faces a diode.
    pub first: bool,
    /// The ticks until its pending tick, 0 where there is none.
    pub due: u8,
    /// The priority of its pending tick, 0 where there is none.
    pub priority: u8,
    pub links: Links,
    /// Further places that it stands for.
    pub also: Places,
}

/// Nodes under keys that are never given twice, and the links into them.
#[derive(Drop)]
pub struct Graph {
    nodes: Arena<OfNodes, Node>,
}

impl Model for Graph {
    ghost use Rattle.graph.specs.Graph.{Graph as Plain};

    ghost Value = { Plain };

    ghost use Rattle.graph.specs.Stored.{graph_of, IsStoredGraph};

    ghost view = { graph_of };

    ghost invariant = { IsStoredGraph };
}

impl Graph {
    ghost use Rattle.graph.specs.Stored.{plain};

    /// No node.
    pub fn new(alloc: Global) -> Graph
        ensures { result ≡ record { nodes = []; spares = [] } }
    {
        Graph {
            nodes: Arena::new(alloc),
        }
    }

    /// Adds a node without links. Its key is the number of nodes that were added before.
    pub fn add_node(&mut self, node: Node) -> Result<NodeKey, NoMemory>
        requires no_link { node.links.items ≡ [] }
        requires few { length self.old.nodes < u32.MAX }
        ensures key { IfOk result (λ key. key ≡ length self.old.nodes) }
        ensures nodes { OnOk result (self.new.nodes ≡ self.old.nodes ++ Some (plain node) ∷ []) }
        ensures room { KeepsRoom self.old self.new }
        ensures err { OnErr result (self.new ≡ self.old) }
    {
        match self.nodes.insert(node) {
            Ok(key) => Ok(key),
            Err(_node) => Err(NoMemory),
        }
    }

    /// The node under the key.
    pub fn node(&self, key: NodeKey) -> Option<&Node>
        ensures value { option_map plain (option_copied result) ≡ node_at self.now.nodes key }

        // In every graph Back links stand before Side links.
        ensures in_groups { IsInGroups self.now.nodes }
    {
        self.nodes.get(key)
    }

    /// The keys of the nodes, rising.
    pub fn keys(&self) -> Result<Vec<NodeKey>, NoMemory>
        ensures { IfOk result (λ keys. keys.items ≡ keys_of self.now.nodes) }
    {
        self.nodes.keys()
    }

    /// How many nodes there are.
    pub fn node_count(&self) -> u64
        ensures { result ≡ node_count self.now.nodes }
    {
        self.nodes.len() as u64
    }

    /// How many links there are.
    pub fn link_count(&self) -> u64
        ensures { result ≡ link_count self.now.nodes }
    {
        reads::link_count(&self.nodes)
    }

    /// Puts a link into the node `to`: a Back link right behind its last Back link, and so before
    /// its Side links, and a Side link behind all.
    pub fn add_link(&mut self, to: NodeKey, link: Link) -> Result<(), NoMemory>
        requires to { Lives self.old.nodes to }
        requires from { Lives self.old.nodes link.from }
        ensures nodes { OnOk result (self.new.nodes ≡ add_link self.old.nodes to link) }

        // Where there is room, it succeeds and takes room for one.
        ensures full { OnErr result (spare_of self.old to ≡ 0) }
        ensures room { OnOk result (0 < spare_of self.old to → spare_of self.new to + 1 ≡ spare_of self.old to) }
        ensures others { KeepsOtherRoom self.old self.new to }
        ensures err { OnErr result (self.new ≡ self.old) }
    {
        self.nodes.get_mut(to).unwrap().add_link(link)
    }

    /// Makes room for `more` links into the node, beside those that it has.
    pub fn reserve_links(&mut self, to: NodeKey, more: u32) -> Result<(), NoMemory>
        requires { Lives self.old.nodes to }
        ensures nodes { self.new.nodes ≡ self.old.nodes }
        ensures room { OnOk result (more ≤ spare_of self.new to) }
        ensures others { KeepsRoom self.old self.new }
        ensures err { OnErr result (self.new ≡ self.old) }
        ensures full { OnErr result (spare_of self.old to < more) }
    {
        self.nodes.get_mut(to).unwrap().reserve_links(more)
    }

    /// Drops the link of this index into the node.
    pub fn drop_link(&mut self, to: NodeKey, index: usize)
        requires { HasLinkAt self.old.nodes to index }
        ensures { self.new.nodes ≡ drop_link self.old.nodes to index }
    {
        self.nodes.get_mut(to).unwrap().drop_link(index);
    }

    /// Takes the links out of a node, to keep some of them: [`Graph::put_links`] puts these back.
    pub fn take_links(&mut self, key: NodeKey) -> Option<Sieve>
        ensures links { result ≡ option_map begun (node_at self.old.nodes key) }
        ensures nodes { self.new.nodes ≡ set_links self.old.nodes key [] }
    {
        let node = self.nodes.get_mut(key)?;
        Some(node.take_links())
    }

    /// Puts links that were judged into a node, in place of its own.
    pub fn put_links(&mut self, key: NodeKey, links: Sieve)
        requires { length links.items ≤ links.index }
        ensures { self.new.nodes ≡ set_links self.old.nodes key links.items }
    {
        edits::put_links(&mut self.nodes, key, links);
    }

    /// Makes the node a Constant of this state, without links into it and without a pending tick.
    pub fn fold_to(&mut self, key: NodeKey, value: u8)
        requires lives { Lives self.old.nodes key }
        requires range { value ≤ 15 }
        ensures { self.new.nodes ≡ fold_to self.old.nodes key value }
    {
        self.nodes.get_mut(key).unwrap().fold_to(value);
    }

    /// Lets `keep` take the part of `gone`: each link from `gone` comes from `keep`, and `keep`
    /// stands for its places too. The node `gone` and the links into it are dropped.
    ///
    /// It looks at all links, since a node doesn't know its outgoing ones.
    pub fn merge(&mut self, keep: NodeKey, gone: NodeKey) -> Result<(), NoMemory>
        requires keep { Lives self.old.nodes keep }
        requires gone { Lives self.old.nodes gone }
        requires differ { keep ≢ gone }
        requires unlinked { IsUnlinked self.old.nodes (keep ∷ gone ∷ []) }
        ensures nodes { OnOk result (self.new.nodes ≡ merge self.old.nodes keep gone) }
        ensures err { OnErr result (self.new ≡ self.old) }
    {
        edits::take_over(&mut self.nodes, keep, gone)?;
        edits::rename_in_all(&mut self.nodes, keep, gone);
        Ok(())
    }

    /// The same as [`Graph::merge`], where all links from `gone` go into the nodes `targets`. It
    /// looks at the links of these alone.
    pub fn merge_among(
        &mut self,
        keep: NodeKey,
        gone: NodeKey,
        targets: &[NodeKey],
    ) -> Result<(), NoMemory>
        requires keep { Lives self.old.nodes keep }
        requires gone { Lives self.old.nodes gone }
        requires differ { keep ≢ gone }
        requires unlinked { IsUnlinked self.old.nodes (keep ∷ gone ∷ []) }
        requires fan { IsFanOut self.old.nodes gone targets.now }
        ensures nodes { OnOk result (self.new.nodes ≡ merge self.old.nodes keep gone) }
        ensures err { OnErr result (self.new ≡ self.old) }
    {
        edits::take_over(&mut self.nodes, keep, gone)?;
        edits::rename_among(&mut self.nodes, keep, gone, targets);
        Ok(())
    }

    /// Drops the nodes under these keys and the links into them. It looks at no other node.
    pub fn drop_set(&mut self, set: &[NodeKey])
        requires { IsClosed self.old.nodes set.now }
        ensures { self.new.nodes ≡ drop_set self.old.nodes set.now }
    {
        edits::drop_all(&mut self.nodes, set);
    }

    /// Appends the text of the graph to `out`.
    pub fn push_text(&self, out: &mut Vec<u8>) -> Result<(), NoMemory>
        ensures ok { OnOk result (out.new.items ≡ out.old.items ++ graph_text self.now.nodes) }
        ensures err { OnErr result (out.new.items ≡ out.old.items) }
    {
        let mut text = Vec::new(*out.allocator());
        texts::push_counts(&mut text, self.node_count(), self.link_count())?;
        texts::push_node_lines(&mut text, &self.nodes)?;
        texts::push_link_lines(&mut text, &self.nodes)?;
        push_bytes(out, &text)
    }

    /// Whether some node of the place answers to the click: a lever or a button to `Use`, a plate
    /// to `Press`, a weighted plate to `Weigh`, and both plates to `Leave`.
    pub fn takes_click(&self, pos: Pos, click: Click) -> bool
        ensures answer { IsTrue result ↔ HasAnswer self.now.nodes pos click }

        // The circuit takes just the clicks that are answered, of a weight of 1 to 15.
        ensures taken { IsClickInRange click → IsTrue result ↔ Takes (graph_circuit self.now.nodes) pos click }
    {
        reads::has_answer(&self.nodes, pos, click)
    }

    /// Whether some node of the place is a wire that is looked at.
    pub fn has_wire(&self, pos: Pos) -> bool
        ensures { IsTrue result ↔ HasWire self.now.nodes pos }
    {
        reads::has_wire(&self.nodes, pos)
    }
}
