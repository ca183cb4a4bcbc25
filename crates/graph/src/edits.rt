//! Edits of one node, and of the links of all nodes.

ghost use Rattle.std.specs.Prelude.{◌≡◌, ◌≢◌, ◌+◌, ◌<◌, ◌≤◌, ◌^◌, [], ◌∷◌, ◌++◌, List, length, map, insert, count_by, OnOk, OnErr, IfOk, option_map};
ghost use Rattle.graph.specs.declared.Group.TheVariants.{Back as BackGroup};
ghost use Rattle.graph.specs.declared.Link.{Link};
ghost use Rattle.graph.specs.Graph.{Lives};
ghost use Rattle.graph.specs.Links.{in_groups, of_group};
ghost use Rattle.graph.specs.Stored.{plain, plain_nodes, plain_graph, IsStored};
ghost use Rattle.graph.specs.Edits.{change, with_link, without_link, relinked, set_links, folded, renamed, renamed_link, drop_set};
ghost use Rattle.graph.specs.Merging.{with_places, taken_over, IsFanOut};

use crate::{Group, Kind, Link, Links, Node, NodeKey, OfNodes, Places, Pos, Sieve};
use node_arena::{Arena, Key};
use rp_text::NoMemory;
use smallvec::SmallVec;
use std::mem;

// No node has more links, so that the links of a graph can be counted.
const MOST_LINKS: usize = 0x1_0000_0000;

impl Links {
    // Puts a link in: a Back link behind the last Back link, a Side link behind all.
    fn add(&mut self, link: Link) -> Result<(), NoMemory>
        requires groups { in_groups self.old.items ≡ self.old.items }
        requires few { length self.old.items ≤ 2 ^ 32 }
        ensures items { OnOk result (self.new.items ≡ in_groups (self.old.items ++ link ∷ [])) }
        ensures room { OnOk result (0 < self.old.spare → self.new.spare + 1 ≡ self.old.spare) }
        ensures few { OnOk result (length self.old.items < 2 ^ 32) }
        ensures err { OnErr result (self.new ≡ self.old) }
        ensures full { OnErr result (self.old.spare ≡ 0) }
    {
        if self.items.len() >= MOST_LINKS {
            return Err(NoMemory);
        }
        let place = place_for(&self.items, link.group);
        self.items.insert(place, link)?;
        Ok(())
    }

    // Makes room for so many more links.
    fn reserve(&mut self, more: u32) -> Result<(), NoMemory>
        requires few { length self.old.items ≤ 2 ^ 32 }
        ensures items { self.new.items ≡ self.old.items }
        ensures ok { OnOk result (more ≤ self.new.spare) }
        ensures grows { self.old.spare ≤ self.new.spare }
        ensures err { OnErr result (self.new ≡ self.old) }
        ensures full { OnErr result (self.old.spare < more) }
    {
        if more as usize > MOST_LINKS - self.items.len() {
            return Err(NoMemory);
        }
        self.items.reserve(more as usize)?;
        Ok(())
    }

    // Each link from `gone` comes from `keep`.
    fn rename(&mut self, keep: NodeKey, gone: NodeKey)
        ensures items { self.new.items ≡ map (renamed_link keep gone) self.old.items }
        ensures room { self.new.spare ≡ self.old.spare }
    {
        rename_links(self.items.as_mut_slice(), keep, gone);
    }
}

// Where a new link of the group goes in.
fn place_for(links: &[Link], group: Group) -> usize
    requires { in_groups links.now ≡ links.now }
    ensures within { result ≤ length links.now }
    ensures put { (link : Link) → link.group ≡ group
        → insert links.now result link ≡ in_groups (links.now ++ link ∷ []) }
{
    match group {
        Group::Back => count_of_back_links(links),
        Group::Side => links.len(),
    }
}

fn count_of_back_links(links: &[Link]) -> usize
    requires { in_groups links.now ≡ links.now }
    ensures { result ≡ count_by (of_group BackGroup) links.now }
{
    links.partition_point(|link| link.group == Group::Back)
}

fn rename_links(links: &mut [Link], keep: NodeKey, gone: NodeKey)
    ensures { links.new ≡ map (renamed_link keep gone) links.old }
{
    for link in links.iter_mut() {
        *link = renamed_link(*link, keep, gone);
    }
}

fn renamed_link(link: Link, keep: NodeKey, gone: NodeKey) -> Link
    ensures { result ≡ renamed_link keep gone link }
{
    let from = if link.from == gone { keep } else { link.from };
    Link { from, ..link }
}

impl Node {
    // Puts a link to the node in. It succeeds where there is room.
    pub fn add_link(&mut self, link: Link) -> Result<(), NoMemory>
        requires groups { in_groups self.old.links.items ≡ self.old.links.items }
        requires few { length self.old.links.items ≤ 2 ^ 32 }
        ensures plain { OnOk result (plain self.new ≡ with_link link (plain self.old)) }
        ensures room { OnOk result (0 < self.old.links.spare → self.new.links.spare + 1 ≡ self.old.links.spare) }
        ensures few { OnOk result (length self.old.links.items < 2 ^ 32) }
        ensures err { OnErr result (self.new ≡ self.old) }
        ensures full { OnErr result (self.old.links.spare ≡ 0) }
    {
        self.links.add(link)
    }

    // Makes room for so many more links.
    pub fn reserve_links(&mut self, more: u32) -> Result<(), NoMemory>
        requires few { length self.old.links.items ≤ 2 ^ 32 }
        ensures plain { plain self.new ≡ plain self.old }
        ensures ok { OnOk result (more ≤ self.new.links.spare) }
        ensures grows { self.old.links.spare ≤ self.new.links.spare }
        ensures err { OnErr result (self.new ≡ self.old) }
        ensures full { OnErr result (self.old.links.spare < more) }
    {
        self.links.reserve(more)
    }

    pub fn drop_link(&mut self, index: usize)
        requires { index < length self.old.links.items }
        ensures { plain self.new ≡ without_link index (plain self.old) }
    {
        let links = &mut self.links;
        links.items.remove(index);
    }

    // Takes the links out.
    pub fn take_links(&mut self) -> Sieve
        requires groups { in_groups self.old.links.items ≡ self.old.links.items }
        requires few { length self.old.links.items ≤ 2 ^ 32 }
        ensures links { result ≡ record { items = self.old.links.items; index = 0 } }
        ensures plain { plain self.new ≡ relinked [] (plain self.old) }
    {
        let none = SmallVec::new(*self.links.items.allocator());
        let links = mem::replace(&mut self.links, Links { items: none });
        Sieve::new(links)
    }

    // Puts links that were judged in place of its own.
    pub fn put_links(&mut self, links: Sieve)
        requires { length links.items ≤ links.index }
        ensures plain { plain self.new ≡ relinked links.items (plain self.old) }
        ensures groups { in_groups self.new.links.items ≡ self.new.links.items }
        ensures few { length self.new.links.items ≤ 2 ^ 32 }
    {
        self.links = links.finish();
    }

    pub fn fold_to(&mut self, value: u8)
        ensures { plain self.new ≡ folded value (plain self.old) }
    {
        self.kind = Kind::Constant;
        self.state = value;
        self.due = 0;
        self.priority = 0;
        let links = &mut self.links;
        links.items.clear();
    }

    // Each link from `gone` comes from `keep`.
    fn rename(&mut self, keep: NodeKey, gone: NodeKey)
        ensures plain { plain self.new ≡ renamed keep gone (plain self.old) }
        ensures room { self.new.links.spare ≡ self.old.links.spare }
    {
        self.links.rename(keep, gone);
    }

    // Its own place, then the others that it stands for.
    fn places(&self) -> Result<Vec<Pos>, NoMemory>
        ensures { IfOk result (λ places. places.items ≡ self.now.pos ∷ self.now.also.items.items) }
    {
        let mut places = Vec::new(*self.also.items.allocator());
        places.push(self.pos)?;
        places.extend_from_slice(&self.also.items)?;
        Ok(places)
    }

    // Stands for these places too.
    fn stand_for(&mut self, places: &[Pos]) -> Result<(), NoMemory>
        ensures plain { OnOk result (plain self.new ≡ with_places places.now (plain self.old)) }
        ensures room { self.new.links.spare ≡ self.old.links.spare }
        ensures err { OnErr result (plain self.new ≡ plain self.old) }
    {
        self.also.items.extend_from_slice(places)?;
        Ok(())
    }
}

// Lets `keep` stand for the places of `gone`, and drops `gone` and the links into it.
pub fn take_over(
    nodes: &mut Arena<OfNodes, Node>,
    keep: NodeKey,
    gone: NodeKey,
) -> Result<(), NoMemory>
    requires keep { Lives (plain_nodes nodes.old.entries) keep }
    requires gone { Lives (plain_nodes nodes.old.entries) gone }
    ensures nodes { OnOk result (plain_nodes nodes.new.entries ≡ taken_over (plain_nodes nodes.old.entries) keep gone) }
    ensures err { OnErr result (plain_graph nodes.new ≡ plain_graph nodes.old) }
{
    let places = nodes.get(gone).unwrap().places()?;
    nodes.get_mut(keep).unwrap().stand_for(&places)?;
    nodes.remove(gone);
    Ok(())
}

// Puts links that were judged into the node under the key, if there is one.
pub fn put_links(nodes: &mut Arena<OfNodes, Node>, key: NodeKey, links: Sieve)
    requires { length links.items ≤ links.index }
    ensures nodes { plain_nodes nodes.new.entries ≡ set_links (plain_nodes nodes.old.entries) key links.items }
    ensures stored { IsStored (plain_nodes nodes.old.entries) → IsStored (plain_nodes nodes.new.entries) }
{
    if let Some(node) = nodes.get_mut(key) {
        node.put_links(links);
    }
}

// In all nodes each link from `gone` comes from `keep`.
pub fn rename_in_all(nodes: &mut Arena<OfNodes, Node>, keep: NodeKey, gone: NodeKey)
    ensures { plain_nodes nodes.new.entries ≡ map (option_map (renamed keep gone)) (plain_nodes nodes.old.entries) }
{
    for number in 0..nodes.made() {
        rename_at(nodes, Key::new(number), keep, gone);
    }
}

// The same, where all links from `gone` go into nodes under these keys. It looks at no other node.
pub fn rename_among(
    nodes: &mut Arena<OfNodes, Node>,
    keep: NodeKey,
    gone: NodeKey,
    targets: &[NodeKey],
)
    requires differ { keep ≢ gone }
    requires fan { IsFanOut (plain_nodes nodes.old.entries) gone targets.now }
    ensures { plain_nodes nodes.new.entries ≡ map (option_map (renamed keep gone)) (plain_nodes nodes.old.entries) }
{
    for key in targets {
        rename_at(nodes, *key, keep, gone);
    }
}

fn rename_at(nodes: &mut Arena<OfNodes, Node>, key: NodeKey, keep: NodeKey, gone: NodeKey)
    ensures { plain_nodes nodes.new.entries ≡ change (renamed keep gone) (plain_nodes nodes.old.entries) key }
{
    if let Some(node) = nodes.get_mut(key) {
        node.rename(keep, gone);
    }
}

// Drops the nodes under these keys.
pub fn drop_all(nodes: &mut Arena<OfNodes, Node>, keys: &[NodeKey])
    ensures { plain_nodes nodes.new.entries ≡ drop_set (plain_nodes nodes.old.entries) keys.now }
{
    for key in keys {
        nodes.remove(*key);
    }
}
