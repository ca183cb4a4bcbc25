//! Payloads that hold no compound and no list.

ghost use Rattle.std.specs.Prelude.{◌≡◌, ◌≤◌, ◌*◌, ◌<◌, ◌^◌, ◌++◌, length, IfSome, IfNone, IfOk, IfErr, FitsSigned, ◌≢◌};
ghost use Rattle.std.specs.List.{AllByRecursion};
ghost use Rattle.std.specs.Int.{w32, w64};
ghost use Rattle.nbt.specs.Plain.{plain_tree};
ghost use Rattle.nbt.specs.Spelling.{unsigned, all_signed, number_size};
ghost use Rattle.nbt.specs.Reading.{IsLeaf, IsCutLeaf, StopsAtLength, StopsAtElements, StopsInLeaf};

use crate::front::{cut, cut_text, cut_u32};
use crate::open::Stop;
use crate::refusals::NbtKind;
use crate::trees::{IntList, LongList, Tree};
use byteorder::{BigEndian, ByteOrder};
use rp_text::Raw;
use std::alloc::{AllocError, Global};

const MAX_LENGTH: u32 = 0x7fff_ffff;

/// The file ends here.
pub fn cut_short() -> Stop
    ensures { result ≡ Stop.At 0 NbtKind.Truncated }
{
    Stop::At {
        left: 0,
        kind: NbtKind::Truncated,
    }
}

/// How many bytes a payload of the types 1 to 6 has.
pub fn number_size(kind: u8) -> usize
    ensures { result ≡ number_size kind }
{
    match kind {
        1 => 1,
        2 => 2,
        4 | 6 => 8,
        _ => 4,
    }
}

/// The length of an array or of a list with items.
pub fn cut_length(bytes: &[u8]) -> Result<(usize, &[u8]), Stop>
    ensures ok { IfOk result (λ x. bytes.now ≡ unsigned w32 x.0 ++ x.1.now) }
    ensures limit { IfOk result (λ x. x.0 < 2 ^ 31) }
    ensures err { IfErr result (StopsAtLength bytes.now) }
{
    let Some((count, rest)) = cut_u32(bytes) else {
        return Err(cut_short());
    };
    if count > MAX_LENGTH {
        return Err(Stop::At {
            left: bytes.len(),
            kind: NbtKind::BadLength,
        });
    }
    Ok((count as usize, rest))
}

/// Raw bytes of their own.
pub fn raw_of(alloc: Global, bytes: &[u8]) -> Result<Raw, AllocError>
    ensures { IfOk result (λ raw. raw.items.items ≡ bytes.now) }
{
    let items = Vec::from_slice(alloc, bytes)?;
    Ok(Raw { items })
}

/// A number of the types 1 to 6.
pub fn cut_number(kind: u8, bytes: &[u8]) -> Option<(Tree, &[u8])>
    requires least { 1 ≤ kind }
    requires greatest { kind ≤ 6 }
    ensures some { IfSome result (λ x. IsLeaf kind bytes.now (plain_tree x.0) x.1.now) }
    ensures none { IfNone result (IsCutLeaf kind bytes.now) }
{
    let (head, rest) = cut(bytes, number_size(kind))?;
    let tree = match kind {
        1 => Tree::Byte(head[0].cast_signed()),
        2 => Tree::Short(BigEndian::read_i16(head)),
        3 => Tree::Int(BigEndian::read_i32(head)),
        4 => Tree::Long(BigEndian::read_i64(head)),
        5 => Tree::Float([head[0], head[1], head[2], head[3]]),
        _ => Tree::Double([
            head[0], head[1], head[2], head[3], head[4], head[5], head[6], head[7],
        ]),
    };
    Some((tree, rest))
}

/// The numbers of four bytes each that the bytes are.
fn ints_of(alloc: Global, bytes: &[u8], count: usize) -> Result<IntList, AllocError>
    requires { length bytes.now ≡ count * 4 }
    ensures items { IfOk result (λ xs. all_signed w32 xs.items.items ≡ bytes.now) }
    ensures fit { IfOk result (λ xs. AllByRecursion (FitsSigned w32) xs.items.items) }
    ensures count { IfOk result (λ xs. length xs.items.items ≡ count) }
{
    let mut items = Vec::with_capacity(alloc, count)?;
    let mut rest = bytes;
    for _ in 0..count {
        let (head, behind) = rest.split_at(4);
        items.push(BigEndian::read_i32(head))?;
        rest = behind;
    }
    Ok(IntList { items })
}

/// The numbers of eight bytes each that the bytes are.
fn longs_of(alloc: Global, bytes: &[u8], count: usize) -> Result<LongList, AllocError>
    requires { length bytes.now ≡ count * 8 }
    ensures items { IfOk result (λ xs. all_signed w64 xs.items.items ≡ bytes.now) }
    ensures fit { IfOk result (λ xs. AllByRecursion (FitsSigned w64) xs.items.items) }
    ensures count { IfOk result (λ xs. length xs.items.items ≡ count) }
{
    let mut items = Vec::with_capacity(alloc, count)?;
    let mut rest = bytes;
    for _ in 0..count {
        let (head, behind) = rest.split_at(8);
        items.push(BigEndian::read_i64(head))?;
        rest = behind;
    }
    Ok(LongList { items })
}

/// A length, as many elements of this size, and the bytes behind them.
pub fn cut_elements(bytes: &[u8], size: usize) -> Result<(usize, &[u8], &[u8]), Stop>
    requires { size ≤ 8 }
    ensures ok { IfOk result (λ x. bytes.now ≡ unsigned w32 x.0 ++ (x.1.now ++ x.2.now)) }
    ensures limit { IfOk result (λ x. x.0 < 2 ^ 31) }
    ensures count { IfOk result (λ x. length x.1.now ≡ x.0 * size) }
    ensures err { IfErr result (StopsAtElements size bytes.now) }
{
    let (count, rest) = cut_length(bytes)?;
    let Some((elements, rest)) = cut(rest, count * size) else {
        return Err(cut_short());
    };
    Ok((count, elements, rest))
}

fn cut_bytes(alloc: Global, bytes: &[u8]) -> Result<(Tree, &[u8]), Stop>
    ensures ok { IfOk result (λ x. IsLeaf 7 bytes.now (plain_tree x.0) x.1.now) }
    ensures err { IfErr result (StopsInLeaf 7 bytes.now) }
{
    let (_, elements, rest) = cut_elements(bytes, 1)?;
    let raw = raw_of(alloc, elements)?;
    Ok((Tree::Bytes(raw), rest))
}

fn cut_string(alloc: Global, bytes: &[u8]) -> Result<(Tree, &[u8]), Stop>
    ensures ok { IfOk result (λ x. IsLeaf 8 bytes.now (plain_tree x.0) x.1.now) }
    ensures err { IfErr result (StopsInLeaf 8 bytes.now) }
{
    let Some((text, rest)) = cut_text(bytes) else {
        return Err(cut_short());
    };
    let raw = raw_of(alloc, text)?;
    Ok((Tree::Text(raw), rest))
}

fn cut_ints(alloc: Global, bytes: &[u8]) -> Result<(Tree, &[u8]), Stop>
    ensures ok { IfOk result (λ x. IsLeaf 11 bytes.now (plain_tree x.0) x.1.now) }
    ensures err { IfErr result (StopsInLeaf 11 bytes.now) }
{
    let (count, elements, rest) = cut_elements(bytes, 4)?;
    let ints = ints_of(alloc, elements, count)?;
    Ok((Tree::Ints(ints), rest))
}

fn cut_longs(alloc: Global, bytes: &[u8]) -> Result<(Tree, &[u8]), Stop>
    ensures ok { IfOk result (λ x. IsLeaf 12 bytes.now (plain_tree x.0) x.1.now) }
    ensures err { IfErr result (StopsInLeaf 12 bytes.now) }
{
    let (count, elements, rest) = cut_elements(bytes, 8)?;
    let longs = longs_of(alloc, elements, count)?;
    Ok((Tree::Longs(longs), rest))
}

/// A payload of another type than List and Compound.
pub fn cut_leaf(alloc: Global, kind: u8, bytes: &[u8]) -> Result<(Tree, &[u8]), Stop>
    requires least { 1 ≤ kind }
    requires greatest { kind ≤ 12 }
    requires leaf { (kind ≢ 9) × (kind ≢ 10) }
    ensures ok { IfOk result (λ x. IsLeaf kind bytes.now (plain_tree x.0) x.1.now) }
    ensures err { IfErr result (StopsInLeaf kind bytes.now) }
{
    match kind {
        7 => cut_bytes(alloc, bytes),
        8 => cut_string(alloc, bytes),
        11 => cut_ints(alloc, bytes),
        12 => cut_longs(alloc, bytes),
        _ => {
            let Some((number, rest)) = cut_number(kind, bytes) else {
                return Err(cut_short());
            };
            Ok((number, rest))
        }
    }
}
