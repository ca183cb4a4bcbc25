//! Lines of views, trailers, summaries and firings.

use build::{Click, OutKind, OutPlace, Pos};
use report::{
    Cause, Counts, LineBuf, push_fire, push_header, push_summary, push_trailer, push_view,
};
use std::test::Fail;

#[test]
fn headers(rt: HostRuntime) -> Result<(), Fail> {
    let none: [OutPlace; 0] = [];
    let mut out = Vec::new(rt.alloc());
    push_header(&mut out, &none)?;
    assert_eq!(rt; out.as_slice(), b"outputs 0\n".as_slice());

    let places = [
        (0, 1, 2, OutKind::Lamp),
        (10, 100, 1000, OutKind::Trapdoor),
        (-1, -20, -300, OutKind::Note),
        (i32::MIN, i32::MAX, i32::MIN, OutKind::Wire),
    ];
    let places = places.map(|(x, y, z, kind)| OutPlace {
        pos: Pos { x, y, z },
        kind,
    });
    let mut out = Vec::from_slice(rt.alloc(), b"before ")?;
    push_header(&mut out, &places)?;
    let want =
        b"before outputs 4\n0 1 2 lamp\n10 100 1000 trapdoor\n-1 -20 -300 note\n-2147483648 2147483647 -2147483648 wire\n";
    assert_eq!(rt; out.as_slice(), want.as_slice());
    Ok(())
}

#[test]
fn view_lines(rt: HostRuntime) -> Result<(), Fail> {
    let rows: [(u64, Cause, &[u8], &[u8]); 8] = [
        (0, Cause::Start, &[], b"0 start\n"),
        (0, Cause::Start, &[0, 1], b"0 start 0 1\n"),
        (1, Cause::Tick, &[9, 10], b"1 tick 9 10\n"),
        (10, Cause::of_click(Click::Use), &[1], b"10 use 1\n"),
        (11, Cause::of_click(Click::Press), &[1], b"11 press 1\n"),
        (12, Cause::of_click(Click::Leave), &[0], b"12 leave 0\n"),
        (
            100_000,
            Cause::of_click(Click::Weigh { weight: 7 }),
            &[6],
            b"100000 press 6\n",
        ),
        (
            u64::MAX,
            Cause::Press,
            &[15, 15, 15],
            b"18446744073709551615 press 15 15 15\n",
        ),
    ];
    for (time, cause, values, want) in rows {
        assert!(rt; values.iter().all(|value| *value <= 15) && values.len() <= 20);
        let mut line = LineBuf::new(rt.alloc(), 92)?;
        push_view(&mut line, time, cause, values);
        assert_eq!(rt; line.bytes(), want);
    }
    Ok(())
}

#[test]
fn one_buffer_for_each_line(rt: HostRuntime) -> Result<(), Fail> {
    let mut line = LineBuf::new(rt.alloc(), 96)?;
    push_fire(&mut line, Pos { x: 1, y: 2, z: 3 });
    assert_eq!(rt; line.bytes(), b"fire 1 2 3\n".as_slice());
    line.clear();
    assert_eq!(rt; line.bytes(), b"".as_slice());
    push_trailer(&mut line, None);
    assert_eq!(rt; line.bytes(), b"end\n".as_slice());
    Ok(())
}

#[test]
fn trailers(rt: HostRuntime) -> Result<(), Fail> {
    let counts = Counts {
        nodes: 2,
        links: 1,
        events: 3,
    };
    let most = Counts {
        nodes: u64::MAX,
        links: u64::MAX,
        events: u64::MAX,
    };
    let rows: [(Option<Counts>, &[u8]); 3] = [
        (None, b"end\n"),
        (Some(counts), b"nodes 2 links 1 events 3\nend\n"),
        (
            Some(most),
            b"nodes 18446744073709551615 links 18446744073709551615 events 18446744073709551615\nend\n",
        ),
    ];
    for (counts, want) in rows {
        let mut line = LineBuf::new(rt.alloc(), 96)?;
        push_trailer(&mut line, counts);
        assert_eq!(rt; line.bytes(), want);
    }
    Ok(())
}

#[test]
fn summaries(rt: HostRuntime) -> Result<(), Fail> {
    let counts = Counts {
        nodes: 12,
        links: 9,
        events: 0,
    };
    let lamp = OutPlace {
        pos: Pos { x: 0, y: 0, z: 0 },
        kind: OutKind::Lamp,
    };
    let others = [OutKind::Trapdoor, OutKind::Note, OutKind::Wire].map(|kind| OutPlace {
        kind,
        ..lamp
    });
    let rows: [(u32, &[OutPlace], &[u8], &[u8]); 3] = [
        (
            1,
            &[lamp, lamp, lamp, lamp],
            &[0, 1, 1, 1],
            b"bench 1\non 3 of 4\nnodes 12 links 9 events 0\nend\n",
        ),
        (
            4000,
            &others,
            &[1, 1, 15],
            b"bench 4000\non 0 of 0\nnodes 12 links 9 events 0\nend\n",
        ),
        (
            u32::MAX,
            &[others[0], lamp, others[2], lamp],
            &[1, 0, 15, 1],
            b"bench 4294967295\non 1 of 2\nnodes 12 links 9 events 0\nend\n",
        ),
    ];
    for (number, outputs, values, want) in rows {
        let mut line = LineBuf::new(rt.alloc(), 192)?;
        push_summary(&mut line, number, outputs, values, counts);
        assert_eq!(rt; line.bytes(), want);
    }
    Ok(())
}

#[test]
fn fire_lines(rt: HostRuntime) -> Result<(), Fail> {
    let rows: [(i32, i32, i32, &[u8]); 3] = [
        (0, 1, 2, b"fire 0 1 2\n"),
        (-1, 0, 65_535, b"fire -1 0 65535\n"),
        (
            i32::MIN,
            i32::MIN,
            i32::MIN,
            b"fire -2147483648 -2147483648 -2147483648\n",
        ),
    ];
    for (x, y, z, want) in rows {
        let mut line = LineBuf::new(rt.alloc(), 48)?;
        push_fire(&mut line, Pos { x, y, z });
        assert_eq!(rt; line.bytes(), want);
    }
    Ok(())
}
