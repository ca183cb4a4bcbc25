//! The links into the node of a reader, by places.

ghost use Rattle.std.specs.Prelude.{◌≡◌, ◌++◌, All, OnOk, IsTrue};
ghost use Rattle.build.specs.Plan.{in_box, block_at};
ghost use Rattle.input_search.specs.Links.{tap_links, through, back_links_of, side_links_of};
ghost use Rattle.input_search.specs.WireTaps.{IsWireTap};
ghost use Rattle.input_search.specs.Wiring.{IsWiring};

use crate::search::{Origin, Search, find_links};
use crate::wires::Wiring;
use build::Build;
use circuit::Pos;
use rp_text::NoMemory;
use wiring::{Tap, push_reader_side_taps, push_reader_taps};

fn push_tap_links(
    links: &mut Vec<Origin>,
    search: &mut Search,
    build: &Build,
    wiring: &mut Wiring,
    tap: Tap,
) -> Result<(), NoMemory>
    requires wiring { IsWiring build.now wiring.old }
    requires tap { IsWireTap build.now tap }
    ensures wiring { OnOk result (IsWiring build.now wiring.new) }
    ensures links { OnOk result (links.new.items ≡ links.old.items ++ tap_links build.now tap) }
{
    match tap {
        Tap::Direct(place) => links.push(Origin { place, weight: 0 })?,
        Tap::Wired(wire) => {
            find_links(search, build, wiring, wire)?;
            links.extend_from_slice(&search.links)?;
        }
    }
    Ok(())
}

fn push_through(
    links: &mut Vec<Origin>,
    search: &mut Search,
    build: &Build,
    wiring: &mut Wiring,
    taps: &[Tap],
) -> Result<(), NoMemory>
    requires wiring { IsWiring build.now wiring.old }
    requires taps { All (IsWireTap build.now) taps.now }
    ensures wiring { OnOk result (IsWiring build.now wiring.new) }
    ensures links { OnOk result (links.new.items ≡ links.old.items ++ through build.now taps.now) }
{
    for tap in taps {
        push_tap_links(links, search, build, wiring, *tap)?;
    }
    Ok(())
}

/// Appends the Back links into the node of a place.
pub(crate) fn push_back_links(
    links: &mut Vec<Origin>,
    taps: &mut Vec<Tap>,
    search: &mut Search,
    build: &Build,
    wiring: &mut Wiring,
    reader: Pos,
) -> Result<(), NoMemory>
    requires wiring { IsWiring build.now wiring.old }
    requires inside { IsTrue (in_box build.now reader) }
    ensures wiring { OnOk result (IsWiring build.now wiring.new) }
    ensures links { OnOk result (links.new.items ≡ links.old.items ++ back_links_of build.now reader (block_at build.now reader)) }
{
    taps.clear();
    push_reader_taps(taps, build, reader)?;
    push_through(links, search, build, wiring, taps)
}

/// Appends the Side links into the node of a place.
pub(crate) fn push_side_links(
    links: &mut Vec<Origin>,
    taps: &mut Vec<Tap>,
    search: &mut Search,
    build: &Build,
    wiring: &mut Wiring,
    reader: Pos,
) -> Result<(), NoMemory>
    requires wiring { IsWiring build.now wiring.old }
    requires inside { IsTrue (in_box build.now reader) }
    ensures wiring { OnOk result (IsWiring build.now wiring.new) }
    ensures links { OnOk result (links.new.items ≡ links.old.items ++ side_links_of build.now reader (block_at build.now reader)) }
{
    taps.clear();
    push_reader_side_taps(taps, build, reader)?;
    push_through(links, search, build, wiring, taps)
}
