//! The reader: it keeps the open compounds and lists in a vector and goes over the bytes once.

ghost use Rattle.std.specs.Prelude.{◌≡◌, ◌∷◌, ◌++◌, IfOk, IfErr, MatchResult};
ghost use Rattle.nbt.specs.Plain.{PlainRoot, plain_tree, plain_root};
ghost use Rattle.nbt.specs.Spelling.{short_text, spelling, IsText, CanBeSpelled, Spells};
ghost use Rattle.nbt.specs.Faults.{begun_name, IsBegun, IsRefusal};
ghost use Rattle.nbt.specs.Reading.{plain_open, stack_of, grown, closed, HasRoom, IsCompound, IsRootOf, IsStep, StopsAt, StopsAtNext};

use crate::front::cut_text;
use crate::leaves::{cut_short, raw_of};
use crate::open::{Open, Piece, Step, Stop};
use crate::pieces::cut_next;
use crate::refusals::{NbtKind, NbtRefusal};
use crate::trees::{Field, Root, Tree};
use rp_text::Raw;
use std::alloc::{AllocError, Global};

// Makes room for the first item, and for that alone: most compounds of a hostile file hold one field.
fn make_room<T: Drop>(items: &mut Vec<T>) -> Result<(), AllocError>
    ensures { items.new.items ≡ items.old.items }
{
    if items.is_empty() {
        items.reserve_exact(1)?;
    }
    Ok(())
}

/// `holder` with one more tree.
fn attach(holder: Open, name: Raw, tree: Tree) -> Result<Open, AllocError>
    requires { HasRoom (plain_open holder) }
    ensures { IfOk result (λ o. plain_open o
        ≡ grown (plain_open holder) name.items.items (plain_tree tree)) }
{
    match holder {
        Open::Compound {
            name: own,
            mut fields,
        } => {
            make_room(&mut fields)?;
            fields.push(Field { name, tree })?;
            Ok(Open::Compound { name: own, fields })
        }
        Open::List {
            name: own,
            element,
            left,
            mut items,
        } => {
            make_room(&mut items)?;
            items.push(tree)?;
            Ok(Open::List {
                name: own,
                element,
                left: left - 1,
                items,
            })
        }
    }
}

/// What was open as a tree, and its name.
fn close(whole: Open) -> (Raw, Tree)
    ensures name { result.0.items.items ≡ begun_name (plain_open whole) }
    ensures tree { plain_tree result.1 ≡ closed (plain_open whole) }
{
    match whole {
        Open::Compound { name, fields } => (name, Tree::Compound(fields)),
        Open::List {
            name,
            element,
            items,
            ..
        } => (name, Tree::List { element, items }),
    }
}

/// The compound as a root.
fn root_of(whole: Open) -> Root
    requires { IsCompound (plain_open whole) }
    ensures { IsRootOf (plain_open whole) (plain_root result) }
{
    match whole {
        Open::Compound { name, fields } => Root { name, fields },
        Open::List { .. } => unreachable!(),
    }
}

/// Reads what comes next in `top`, which `outer` holds, outmost first.
fn step<'a>(
    alloc: Global,
    top: Open,
    outer: &mut Vec<Open>,
    bytes: &'a [u8],
) -> Result<Step<'a>, Stop>
    requires { IsBegun (stack_of top outer.old.items) }
    ensures ok { IfOk result (IsStep (stack_of top outer.old.items) bytes.now outer.new.items) }
    ensures err { IfErr result (StopsAtNext (stack_of top outer.old.items) bytes.now) }
{
    let (piece, rest) = cut_next(alloc, &top, outer, bytes)?;
    match piece {
        Piece::Tree { name, tree } => {
            let top = attach(top, name, tree)?;
            Ok(Step::More { top, rest })
        }
        Piece::Open(inner) => {
            outer.push(top)?;
            Ok(Step::More { top: inner, rest })
        }
        Piece::End => match outer.pop() {
            Some(holder) => {
                let (name, tree) = close(top);
                let top = attach(holder, name, tree)?;
                Ok(Step::More { top, rest })
            }
            None => Ok(Step::Whole {
                root: root_of(top),
                rest,
            }),
        },
    }
}

/// The fields of the root, and the bytes behind it.
fn read_fields(alloc: Global, name: Raw, bytes: &[u8]) -> Result<(Root, &[u8]), Stop>
    requires { IsText name.items.items }
    ensures ok { IfOk result (λ x. CanBeSpelled (plain_root x.0)) }
    ensures spelled { IfOk result (λ x. 10 ∷ (short_text name.items.items ++ bytes.now)
        ≡ spelling (plain_root x.0) ++ x.1.now) }
    ensures err { IfErr result (StopsAt (10 ∷ (short_text name.items.items ++ bytes.now))) }
{
    let mut top = Open::Compound {
        name,
        fields: Vec::new(alloc),
    };
    let mut outer = Vec::new(alloc);
    let mut rest = bytes;
    loop {
        match step(alloc, top, &mut outer, rest)? {
            Step::More {
                top: next,
                rest: behind,
            } => {
                top = next;
                rest = behind;
            }
            Step::Whole { root, rest: behind } => return Ok((root, behind)),
        }
    }
}

/// The root that all of the bytes spell.
fn read_root(alloc: Global, bytes: &[u8]) -> Result<Root, Stop>
    ensures ok { IfOk result (λ root. CanBeSpelled (plain_root root)) }
    ensures spelled { IfOk result (λ root. bytes.now ≡ spelling (plain_root root)) }
    ensures err { IfErr result (StopsAt bytes.now) }
{
    let Some((kind, rest)) = bytes.split_first() else {
        return Err(cut_short());
    };
    if *kind != 10 {
        return Err(Stop::At {
            left: bytes.len(),
            kind: NbtKind::RootNotCompound,
        });
    }
    let Some((name, rest)) = cut_text(rest) else {
        return Err(cut_short());
    };
    let name = raw_of(alloc, name)?;
    let (root, rest) = read_fields(alloc, name, rest)?;
    if !rest.is_empty() {
        return Err(Stop::At {
            left: rest.len(),
            kind: NbtKind::Trailing,
        });
    }
    Ok(root)
}

/// Reads an NBT file that is not compressed. It takes memory for what was met in the bytes alone,
/// and goes over them once. A refusal names the first fault from the left and its place, a count of
/// bytes from the start of the file.
pub fn read(alloc: Global, bytes: &[u8]) -> Result<Root, NbtRefusal>
    // What is read is spelled so.
    ensures ok { IfOk result (λ root. Spells bytes.now (plain_root root)) }

    // What is spelled so is read, unless memory runs out.
    ensures spelled { (root : PlainRoot) → Spells bytes.now root
        → MatchResult result (λ found. plain_root found ≡ root)
        (λ refusal. refusal ≡ NbtRefusal.NoMemory) }

    // Which fault it is. No root has bytes with a fault.
    ensures fault { IfErr result (IsRefusal bytes.now) }
{
    match read_root(alloc, bytes) {
        Ok(root) => Ok(root),
        Err(Stop::At { left, kind }) => {
            let place = (bytes.len() - left) as u64;
            Err(NbtRefusal::At { place, kind })
        }
        Err(Stop::NoMemory) => Err(NbtRefusal::NoMemory),
    }
}
