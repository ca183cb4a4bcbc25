//! What comes next in an open compound or list.

ghost use Rattle.std.specs.Prelude.{◌≡◌, ◌≢◌, ◌≤◌, ◌<◌, ◌∷◌, ◌++◌, ◌↔◌, length, IsTrue, IfOk, IfErr};
ghost use Rattle.nbt.specs.Plain.{plain_tree};
ghost use Rattle.nbt.specs.Spelling.{payload, type_of, number_size, max_depth, IsNest, MayHold, CanStand};
ghost use Rattle.nbt.specs.Faults.{IsBegun};
ghost use Rattle.nbt.specs.Reading.{stack_of, IsPayload, IsPieceOf, IsNext, StopsAtType, StopsAtEmpty, StopsAtElements, StopsInPayload, StopsAtNext};

use crate::front::{cut_text, cut_u32};
use crate::leaves::{cut_elements, cut_leaf, cut_length, cut_short, number_size, raw_of};
use crate::open::{Open, Piece, Stop};
use crate::refusals::NbtKind;
use crate::trees::Tree;
use rp_text::Raw;
use std::alloc::Global;

/// How deep compounds and lists may stand in one another; the root has depth 1.
pub const MAX_DEPTH: usize = 512;

fn is_nest(kind: u8) -> bool
    ensures { IsTrue result ↔ IsNest kind }
{
    kind == 9 || kind == 10
}

/// The type byte of what something of this depth holds.
fn cut_type(bytes: &[u8], depth: usize) -> Result<(u8, &[u8]), Stop>
    ensures ok { IfOk result (λ x. bytes.now ≡ x.0 ∷ x.1.now) }
    ensures known { IfOk result (λ x. x.0 ≤ 12) }
    ensures allowed { IfOk result (λ x. MayHold depth x.0) }
    ensures err { IfErr result (StopsAtType depth bytes.now) }
{
    let Some((kind, rest)) = bytes.split_first() else {
        return Err(cut_short());
    };
    if *kind > 12 {
        return Err(Stop::At {
            left: bytes.len(),
            kind: NbtKind::BadType,
        });
    }
    if is_nest(*kind) && depth >= MAX_DEPTH {
        return Err(Stop::At {
            left: bytes.len(),
            kind: NbtKind::TooDeep,
        });
    }
    Ok((*kind, rest))
}

/// The length of a list of type End, behind its element type.
fn cut_empty_list(bytes: &[u8]) -> Result<(Tree, &[u8]), Stop>
    ensures ok { IfOk result (λ x. IsPayload 9 (0 ∷ bytes.now) (plain_tree x.0) x.1.now) }
    ensures err { IfErr result (StopsAtEmpty bytes.now) }
{
    let Some((count, rest)) = cut_u32(bytes) else {
        return Err(cut_short());
    };
    let length = count.cast_signed();
    if length > 0 {
        return Err(Stop::At {
            left: bytes.len(),
            kind: NbtKind::BadLength,
        });
    }
    Ok((Tree::EmptyList { length }, rest))
}

/// The length and the items of a list of numbers, behind its element type.
fn cut_numbers(alloc: Global, element: u8, bytes: &[u8]) -> Result<(Tree, &[u8]), Stop>
    requires least { 1 ≤ element }
    requires greatest { element ≤ 6 }
    ensures ok { IfOk result (λ x. IsPayload 9 (element ∷ bytes.now) (plain_tree x.0) x.1.now) }
    ensures err { IfErr result (StopsAtElements (number_size element) bytes.now) }
{
    let (_, elements, rest) = cut_elements(bytes, number_size(element))?;
    let raw = raw_of(alloc, elements)?;
    Ok((Tree::Numbers { element, raw }, rest))
}

/// The payload of a list that something of this depth holds, or its beginning where its items are
/// no numbers.
fn cut_list(alloc: Global, name: Raw, depth: usize, bytes: &[u8]) -> Result<(Piece, &[u8]), Stop>
    requires { depth < max_depth }
    ensures ok { IfOk result (λ x. IsPieceOf depth 9 name.items.items bytes.now x.0 x.1.now) }
    ensures err { IfErr result (StopsInPayload depth 9 bytes.now) }
{
    let (element, rest) = cut_type(bytes, depth + 1)?;
    match element {
        0 => {
            let (tree, rest) = cut_empty_list(rest)?;
            Ok((Piece::Tree { name, tree }, rest))
        }
        1..=6 => {
            let (tree, rest) = cut_numbers(alloc, element, rest)?;
            Ok((Piece::Tree { name, tree }, rest))
        }
        _ => {
            let (left, rest) = cut_length(rest)?;
            let items = Vec::new(alloc);
            Ok((
                Piece::Open(Open::List {
                    name,
                    element,
                    left,
                    items,
                }),
                rest,
            ))
        }
    }
}

/// The payload of a tree that something of this depth holds, or its beginning.
fn cut_payload(
    alloc: Global,
    kind: u8,
    name: Raw,
    depth: usize,
    bytes: &[u8],
) -> Result<(Piece, &[u8]), Stop>
    requires least { 1 ≤ kind }
    requires greatest { kind ≤ 12 }
    requires allowed { MayHold depth kind }
    ensures ok { IfOk result (λ x. IsPieceOf depth kind name.items.items bytes.now x.0 x.1.now) }
    ensures err { IfErr result (StopsInPayload depth kind bytes.now) }
{
    match kind {
        9 => cut_list(alloc, name, depth, bytes),
        10 => {
            let fields = Vec::new(alloc);
            Ok((Piece::Open(Open::Compound { name, fields }), bytes))
        }
        _ => {
            let (tree, rest) = cut_leaf(alloc, kind, bytes)?;
            Ok((Piece::Tree { name, tree }, rest))
        }
    }
}

/// What comes next in `top`, which `outer` holds, outmost first.
pub fn cut_next<'a>(
    alloc: Global,
    top: &Open,
    outer: &Vec<Open>,
    bytes: &'a [u8],
) -> Result<(Piece, &'a [u8]), Stop>
    requires { IsBegun (stack_of top.now outer.now.items) }
    ensures ok { IfOk result (λ x. IsNext (stack_of top.now outer.now.items)
        bytes.now x.0 x.1.now) }
    ensures err { IfErr result (StopsAtNext (stack_of top.now outer.now.items) bytes.now) }
{
    let depth = outer.len() + 1;
    match top {
        Open::Compound { .. } => {
            let (kind, rest) = cut_type(bytes, depth)?;
            if kind == 0 {
                return Ok((Piece::End, rest));
            }
            let Some((name, rest)) = cut_text(rest) else {
                return Err(cut_short());
            };
            let name = raw_of(alloc, name)?;
            cut_payload(alloc, kind, name, depth, rest)
        }
        Open::List { element, left, .. } => {
            if *left == 0 {
                return Ok((Piece::End, bytes));
            }
            let name = Raw {
                items: Vec::new(alloc),
            };
            cut_payload(alloc, *element, name, depth, bytes)
        }
    }
}
