//! Two nodes, and the strengths that their links bring.

ghost use Rattle.std.specs.Prelude.{◌≡◌, ◌<◌, ◌≤◌, ◌^◌, ◌+◌, ℕ, IfOk, length};
ghost use Rattle.graph.specs.declared.Group.{Group};
ghost use Rattle.link_counts.specs.Counted.{count_at, tally};

use super::*;
use graph::Group;
use rp_text::NoMemory;
use std::alloc::Global;
use std::test::Fail;

/// Links to the back that bring 3, 9 and 9.
fn three_links() -> Counts
    ensures { (group : Group) (strength : ℕ) → count_at result group strength ≤ 3 }
{
    let mut counts = Counts::new();
    counts.add(Group::Back, 3);
    counts.add(Group::Back, 9);
    counts.add(Group::Back, 9);
    counts
}

/// One link to the side that brings 4.
fn one_link() -> Counts
    ensures { (group : Group) (strength : ℕ) → count_at result group strength ≤ 3 }
{
    let mut counts = Counts::new();
    counts.add(Group::Side, 4);
    counts
}

/// A node with such links, and one with none.
fn two_nodes(alloc: Global, links: Counts) -> Result<Tables, NoMemory>
    requires { (group : Group) (strength : ℕ) → count_at links group strength ≤ 3 }
    ensures count { IfOk result (λ tables. length tables ≡ 2) }
    ensures few { IfOk result (λ tables. (group : Group) (strength : ℕ) → tally tables 0 group strength ≤ 3) }
{
    let mut tables = Tables::new(alloc, 2)?;
    tables.push(links)?;
    tables.push(Counts::new())?;
    Ok(tables)
}

/// One of the links of a group of the first node that bring most brings another strength.
fn change_most(tables: &mut Tables, group: Group, to: u8)
    requires some { 0 < length tables.old }
    requires small { to < 16 }
    requires few { (group : Group) (strength : ℕ) → tally tables.old 0 group strength < 2 ^ 31 }
    ensures { length tables.new ≡ length tables.old }
{
    let most = tables.greatest(0, group);
    if most > 0 {
        tables.shift(0, group, most, to);
    }
}

#[test]
fn the_greatest_is_seen(rt: HostRuntime) -> Result<(), Fail> {
    let mut tables = two_nodes(rt.alloc(), three_links())?;
    assert_eq!(rt; tables.greatest(0, Group::Back), 9);
    assert_eq!(rt; tables.greatest(0, Group::Side), 0);
    assert_eq!(rt; tables.greatest(1, Group::Back), 0);
    change_most(&mut tables, Group::Back, 15);
    assert_eq!(rt; tables.greatest(0, Group::Back), 15);
    assert_eq!(rt; tables.greatest(1, Group::Back), 0);
    Ok(())
}

#[test]
fn a_lone_link_is_seen(rt: HostRuntime) -> Result<(), Fail> {
    let mut tables = two_nodes(rt.alloc(), one_link())?;
    assert_eq!(rt; tables.greatest(0, Group::Side), 4);
    assert_eq!(rt; tables.greatest(0, Group::Back), 0);
    change_most(&mut tables, Group::Side, 15);
    assert_eq!(rt; tables.greatest(0, Group::Side), 15);
    assert_eq!(rt; tables.greatest(0, Group::Back), 0);
    assert_eq!(rt; tables.greatest(1, Group::Side), 0);
    Ok(())
}
