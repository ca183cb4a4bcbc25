//! What one line of a script says.

ghost use Rattle.std.specs.Prelude.{◌≡◌, ◌∷◌, [], MatchOption};
ghost use Rattle.rp_text.specs.Words.{words};
ghost use Rattle.script.specs.LineSaid.{verb_of, coordinates_of, arguments_of, place_of, marked, mark_said, clicked, click_said, weigh_said, ticks_said, act_said, line_said};

use crate::ScriptKind;
use crate::clickable::Targets;
use circuit::{Act, Click, Pos};
use rp_text::{read_u32, word_at};

/// What a good line says.
#[derive(Clone, Copy)]
pub enum Said {
    Nothing,
    Mark { pos: Pos },
    Act { act: Act },
}

/// The first words of lines that say something.
#[derive(Clone, Copy)]
pub enum Verb {
    Mark,
    Use,
    Press,
    Leave,
    Tick,
}

/// Three numbers, which name a place unless one is too great.
#[derive(Clone, Copy)]
pub struct Coordinates {
    pub x: u32,
    pub y: u32,
    pub z: u32,
}

/// The words after the first: one, three or four, as the numbers that they are.
#[derive(Clone, Copy)]
pub enum Arguments {
    Number {
        number: Option<u32>,
    },
    Place {
        place: Option<Coordinates>,
    },
    PlaceAndNumber {
        place: Option<Coordinates>,
        number: Option<u32>,
    },
    Other,
}

// The first word, and the line after it.
fn next_word(line: &[u8]) -> Option<(&[u8], &[u8])>
    ensures { MatchOption result (words line.now ≡ []) (λ found.
        words line.now ≡ found.0.now ∷ words found.1.now) }
{
    let (word, next) = word_at(line, 0)?;
    Some((&line[word.from..word.to], &line[next..]))
}

#[tactic(auto, unfolding(crate::specs::LineSaid::verb_of))]
fn verb_of(word: &[u8]) -> Option<Verb>
    ensures { result ≡ verb_of word.now }
{
    if word == b"mark".as_slice() {
        Some(Verb::Mark)
    } else if word == b"use".as_slice() {
        Some(Verb::Use)
    } else if word == b"press".as_slice() {
        Some(Verb::Press)
    } else if word == b"leave".as_slice() {
        Some(Verb::Leave)
    } else if word == b"tick".as_slice() {
        Some(Verb::Tick)
    } else {
        None
    }
}

fn read_coordinates(x: &[u8], y: &[u8], z: &[u8]) -> Option<Coordinates>
    ensures { result ≡ coordinates_of x.now y.now z.now }
{
    Some(Coordinates {
        x: read_u32(x)?,
        y: read_u32(y)?,
        z: read_u32(z)?,
    })
}

// The words of the rest of a line.
fn arguments_of(line: &[u8]) -> Arguments
    ensures { result ≡ arguments_of (words line.now) }
{
    let Some((first, rest)) = next_word(line) else {
        return Arguments::Other;
    };
    let Some((second, rest)) = next_word(rest) else {
        return Arguments::Number {
            number: read_u32(first),
        };
    };
    let Some((third, rest)) = next_word(rest) else {
        return Arguments::Other;
    };
    let place = read_coordinates(first, second, third);
    let Some((fourth, rest)) = next_word(rest) else {
        return Arguments::Place { place };
    };
    if next_word(rest).is_some() {
        return Arguments::Other;
    }
    Arguments::PlaceAndNumber {
        place,
        number: read_u32(fourth),
    }
}

// A number above 2,147,483,647 is no place.
fn place_of(at: Coordinates) -> Option<Pos>
    ensures { result ≡ place_of at }
{
    Some(Pos {
        x: i32::try_from(at.x).ok()?,
        y: i32::try_from(at.y).ok()?,
        z: i32::try_from(at.z).ok()?,
    })
}

fn mark_said<T: Targets>(place: Option<Coordinates>, targets: &T) -> Result<Said, ScriptKind>
    ensures { result ≡ mark_said (T.wire targets.now) place }
{
    let Some(at) = place else {
        return Err(ScriptKind::Number);
    };
    match place_of(at) {
        Some(pos) if targets.wire(pos) => Ok(Said::Mark { pos }),
        _ => Err(ScriptKind::NotWire),
    }
}

fn clicked<T: Targets>(at: Coordinates, click: Click, targets: &T) -> Result<Said, ScriptKind>
    ensures { result ≡ clicked (T.takes targets.now) click (place_of at) }
{
    match place_of(at) {
        Some(pos) if targets.takes(pos, click) => Ok(Said::Act {
            act: Act::Click { pos, click },
        }),
        _ => Err(ScriptKind::NotClickable),
    }
}

fn click_said<T: Targets>(
    place: Option<Coordinates>,
    click: Click,
    targets: &T,
) -> Result<Said, ScriptKind>
    ensures { result ≡ click_said (T.takes targets.now) click place }
{
    match place {
        Some(at) => clicked(at, click, targets),
        None => Err(ScriptKind::Number),
    }
}

fn weigh_said<T: Targets>(
    place: Option<Coordinates>,
    number: Option<u32>,
    targets: &T,
) -> Result<Said, ScriptKind>
    ensures { result ≡ weigh_said (T.takes targets.now) place number }
{
    match (place, number) {
        (Some(at), Some(weight)) if 1 <= weight && weight <= 15 => {
            let weight = weight as u8;
            clicked(at, Click::Weigh { weight }, targets)
        }
        _ => Err(ScriptKind::Number),
    }
}

fn ticks_said(number: Option<u32>) -> Result<Said, ScriptKind>
    ensures { result ≡ ticks_said number }
{
    match number {
        Some(count) => Ok(Said::Act {
            act: Act::Ticks { count },
        }),
        None => Err(ScriptKind::Number),
    }
}

fn act_said<T: Targets>(verb: Verb, arguments: Arguments, targets: &T) -> Result<Said, ScriptKind>
    ensures { result ≡ act_said (T.takes targets.now) (T.wire targets.now) verb arguments }
{
    match (verb, arguments) {
        (Verb::Mark, Arguments::Place { place }) => mark_said(place, targets),
        (Verb::Use, Arguments::Place { place }) => click_said(place, Click::Use, targets),
        (Verb::Press, Arguments::Place { place }) => click_said(place, Click::Press, targets),
        (Verb::Press, Arguments::PlaceAndNumber { place, number }) => {
            weigh_said(place, number, targets)
        }
        (Verb::Leave, Arguments::Place { place }) => click_said(place, Click::Leave, targets),
        (Verb::Tick, Arguments::Number { number }) => ticks_said(number),
        _ => Err(ScriptKind::Word),
    }
}

/// What a line says, or what is wrong with it. A line without words, or whose first word begins
/// with `#`, says nothing.
#[tactic(auto, unfolding(crate::specs::LineSaid::line_said))]
pub fn line_said<T: Targets>(line: &[u8], targets: &T) -> Result<Said, ScriptKind>
    ensures { result ≡ line_said (T.takes targets.now) (T.wire targets.now) (words line.now) }
{
    let Some((first, rest)) = next_word(line) else {
        return Ok(Said::Nothing);
    };
    if first.starts_with(b"#") {
        return Ok(Said::Nothing);
    }
    match verb_of(first) {
        Some(verb) => act_said(verb, arguments_of(rest), targets),
        None => Err(ScriptKind::Word),
    }
}
