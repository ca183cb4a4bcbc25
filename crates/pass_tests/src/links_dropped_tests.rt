//! Links that Clamp and Dedup drop.

use crate::left::assert_left;
use clamp_dedup::{Clamp, Dedup};
use graph::{Kind, Link, Pos};
use hand_graph::{back, side};
use pass_frame::{Pass, Then};
use rp_text::{NoMemory, push_u64};
use std::alloc::Global;
use std::process::Abort;
use std::test::Fail;

const COMPARATOR: Kind = Kind::Comparator {
    subtract: false,
    direct: None,
    far: None,
};

fn at(x: i32, y: i32, z: i32) -> Pos {
    Pos { x, y, z }
}

#[test]
fn wire_length(rt: HostRuntime) -> Result<(), Fail> {
    assert_left(
        &rt,
        rt.alloc(),
        &mut Clamp,
        &[
            (at(0, 1, 0), Kind::Lever, 0, 0),
            (at(15, 1, 0), Kind::Wire, 0, 0),
            (at(16, 1, 0), Kind::Wire, 0, 0),
        ],
        &[(1, back(0, 14)), (2, back(0, 15))],
        true,
        b"graph 3 1\n\
        node 0 lever 0 1 0 0\n\
        node 1 wire 15 1 0 0\n\
        node 2 wire 16 1 0 0\n\
        link 0 1 back 14\n",
    )?;
    Ok(())
}

// Every third of these links weighs too much, from the first on.
fn weight(number: u32) -> u8 {
    if number % 3 == 0 {
        15
    } else {
        (number % 15) as u8
    }
}

fn many_links(alloc: Global) -> Result<Vec<(u32, Link)>, NoMemory> {
    let mut links = Vec::new(alloc);
    for number in 0..300 {
        links.push((1, back(0, weight(number))))?;
    }
    Ok(links)
}

// The line of the link of this number, where it stays.
fn push_line(text: &mut Vec<u8>, number: u32) -> Result<(), NoMemory> {
    if number % 3 != 0 {
        text.extend_from_slice(b"link 0 1 back ")?;
        push_u64(text, u64::from(number % 15))?;
        text.push(b'\n')?;
    }
    Ok(())
}

#[test]
fn many_links_into_one_node(rt: HostRuntime) -> Result<(), Fail> {
    let links = many_links(rt.alloc())?;
    let mut want = Vec::new(rt.alloc());
    want.extend_from_slice(
        b"graph 2 200\n\
        node 0 lever 0 0 0 0\n\
        node 1 lamp 1 0 0 0\n",
    )?;
    for number in 0..300 {
        push_line(&mut want, number)?;
    }
    assert_left(
        &rt,
        rt.alloc(),
        &mut Clamp,
        &[
            (at(0, 0, 0), Kind::Lever, 0, 0),
            (at(1, 0, 0), Kind::Lamp, 0, 0),
        ],
        &links,
        true,
        &want,
    )?;
    Ok(())
}

// The text of the graph that is left of two ways into one block.
const ONE_WAY: &[u8] = b"graph 3 2\n\
    node 0 lever 0 1 0 0\n\
    node 1 comparator 5 1 0 0 compare\n\
    node 2 lamp 6 1 0 0\n\
    link 0 1 back 2\n\
    link 1 2 back 0\n";

fn assert_one_way_left<P: Pass>(
    rt: &impl Abort,
    alloc: Global,
    pass: &mut P,
) -> Result<(), NoMemory> {
    assert_left(
        rt,
        alloc,
        pass,
        &[
            (at(0, 1, 0), Kind::Lever, 0, 0),
            (at(5, 1, 0), COMPARATOR, 0, 0),
            (at(6, 1, 0), Kind::Lamp, 0, 0),
        ],
        &[(1, back(0, 3)), (1, back(0, 2)), (2, back(1, 0))],
        true,
        ONE_WAY,
    )
}

#[test]
fn two_ways_into_one_block(rt: HostRuntime) -> Result<(), Fail> {
    assert_one_way_left(&rt, rt.alloc(), &mut Dedup)?;
    let mut clamp_first = Then {
        first: Clamp,
        second: Dedup,
    };
    assert_one_way_left(&rt, rt.alloc(), &mut clamp_first)?;
    let mut dedup_first = Then {
        first: Dedup,
        second: Clamp,
    };
    assert_one_way_left(&rt, rt.alloc(), &mut dedup_first)?;
    Ok(())
}

// One link of each source and group stays, of equal ones the first.
#[test]
fn links_from_two_sources_in_two_groups(rt: HostRuntime) -> Result<(), Fail> {
    assert_left(
        &rt,
        rt.alloc(),
        &mut Dedup,
        &[
            (at(0, 0, 0), Kind::Lever, 0, 0),
            (at(1, 0, 0), Kind::Lever, 0, 0),
            (at(2, 0, 0), COMPARATOR, 0, 0),
        ],
        &[
            (2, back(0, 4)),
            (2, back(1, 7)),
            (2, back(0, 4)),
            (2, side(0, 4)),
            (2, back(1, 6)),
            (2, side(0, 5)),
        ],
        true,
        b"graph 3 3\n\
        node 0 lever 0 0 0 0\n\
        node 1 lever 1 0 0 0\n\
        node 2 comparator 2 0 0 0 compare\n\
        link 0 2 back 4\n\
        link 1 2 back 6\n\
        link 0 2 side 4\n",
    )?;
    Ok(())
}

fn assert_nothing_done<P: Pass>(
    rt: &impl Abort,
    alloc: Global,
    pass: &mut P,
) -> Result<(), NoMemory> {
    assert_left(
        rt,
        alloc,
        pass,
        &[
            (at(0, 0, 0), Kind::Lever, 1, 0),
            (at(1, 0, 0), Kind::Wire, 0, 0),
        ],
        &[(1, back(0, 14))],
        false,
        b"graph 2 1\n\
        node 0 lever 0 0 0 1\n\
        node 1 wire 1 0 0 0\n\
        link 0 1 back 14\n",
    )
}

#[test]
fn light_and_single_links_stay(rt: HostRuntime) -> Result<(), Fail> {
    assert_nothing_done(&rt, rt.alloc(), &mut Clamp)?;
    assert_nothing_done(&rt, rt.alloc(), &mut Dedup)?;
    Ok(())
}
