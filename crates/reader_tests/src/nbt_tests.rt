//! Trees of tags, by bytes.

use nbt::{NbtKind, NbtRefusal, Root, Tree, find_field, read, write, written_is_read};
use std::alloc::{AllocError, Global};
use std::test::Fail;

/// A file with every type: empty lists and arrays, a list of lists, a list of compounds, and two
/// fields of one name.
const EVERY_TYPE: &[u8] = b"\x0a\x00\x04root\
    \x01\x00\x01a\xff\
    \x02\x00\x01b\x01\x00\
    \x03\x00\x01c\x80\x00\x00\x00\
    \x04\x00\x01d\x00\x00\x00\x00\x00\x00\x00\x07\
    \x05\x00\x01e\x3f\x80\x00\x00\
    \x06\x00\x01f\x40\x09\x21\xfb\x54\x44\x2d\x18\
    \x07\x00\x01g\x00\x00\x00\x02\x01\x02\
    \x08\x00\x01h\x00\x02hi\
    \x09\x00\x01i\x00\x00\x00\x00\x00\
    \x09\x00\x01j\x03\x00\x00\x00\x01\x00\x00\x00\x05\
    \x09\x00\x01k\x09\x00\x00\x00\x02\x01\x00\x00\x00\x01\x07\x00\x00\x00\x00\x00\
    \x09\x00\x01l\x0a\x00\x00\x00\x02\x01\x00\x01x\x01\x00\x00\
    \x0a\x00\x01m\x00\
    \x0b\x00\x01n\x00\x00\x00\x01\xff\xff\xff\xff\
    \x0c\x00\x01o\x00\x00\x00\x00\
    \x09\x00\x01p\x08\x00\x00\x00\x00\
    \x01\x00\x01a\x02\
    \x00";

fn refusal(alloc: Global, bytes: &[u8]) -> Option<NbtRefusal> {
    read(alloc, bytes).err()
}

/// So many compounds inside one another.
fn nested(alloc: Global, depth: usize) -> Result<Vec<u8>, AllocError> {
    let mut bytes = Vec::new(alloc);
    for _ in 0..depth {
        bytes.extend_from_slice(b"\x0a\x00\x00")?;
    }
    for _ in 0..depth {
        bytes.push(0)?;
    }
    Ok(bytes)
}

#[test]
fn hostile_files(rt: HostRuntime) {
    let cases: [(&[u8], u64, NbtKind); 13] = [
        (
            b"\x0a\x00\x00\x07\x00\x01a\xff\xff\xff\xff\x00",
            7,
            NbtKind::BadLength,
        ),
        (b"\x0a\x00\x00\x0d", 3, NbtKind::BadType),
        (b"\x01", 0, NbtKind::RootNotCompound),
        (
            b"\x0a\x00\x00\x07\x00\x01a\x7f\xff\xff\xff\x00",
            12,
            NbtKind::Truncated,
        ),
        (
            b"\x0a\x00\x00\x09\x00\x01a\x0d\x00\x00\x00\x01",
            7,
            NbtKind::BadType,
        ),
        (
            b"\x0a\x00\x00\x09\x00\x01a\x00\x00\x00\x00\x01\x00",
            8,
            NbtKind::BadLength,
        ),
        (
            b"\x0a\x00\x00\x0c\x00\x01a\xff\xff\xff\xff",
            7,
            NbtKind::BadLength,
        ),
        (
            b"\x0a\x00\x00\x09\x00\x01a\x0a\xff\xff\xff\xff",
            8,
            NbtKind::BadLength,
        ),
        (
            b"\x0a\x00\x00\x0b\x00\x01a\xff\xff\xff",
            10,
            NbtKind::Truncated,
        ),
        (b"\x0a\x00\x00\x00\x00", 4, NbtKind::Trailing),
        (b"\x0a\x00\x00", 3, NbtKind::Truncated),
        (b"\x0a", 1, NbtKind::Truncated),
        (b"", 0, NbtKind::Truncated),
    ];
    for (bytes, place, kind) in &cases {
        let fault = NbtRefusal::At {
            place: *place,
            kind: *kind,
        };
        assert_eq!(rt; refusal(rt.alloc(), bytes), Some(fault));
    }
    let below_zero = b"\x0a\x00\x00\x09\x00\x01a\x00\xff\xff\xff\xff\x00";
    assert_eq!(rt; refusal(rt.alloc(), below_zero), None);
}

#[test]
fn hostile_nbt(rt: HostRuntime) -> Result<(), Fail> {
    let deepest = nested(rt.alloc(), 512)?;
    assert_eq!(rt; refusal(rt.alloc(), &deepest), None);
    let deeper = nested(rt.alloc(), 513)?;
    let fault = NbtRefusal::At {
        place: 1536,
        kind: NbtKind::TooDeep,
    };
    assert_eq!(rt; refusal(rt.alloc(), &deeper), Some(fault));
    Ok(())
}

#[test]
fn every_proper_prefix(rt: HostRuntime) {
    for k in 0..EVERY_TYPE.len() {
        let fault = NbtRefusal::At {
            place: k as u64,
            kind: NbtKind::Truncated,
        };
        assert_eq!(rt; refusal(rt.alloc(), &EVERY_TYPE[..k]), Some(fault));
    }
}

fn byte_of(root: &Root, name: &[u8]) -> Option<i8> {
    match find_field(&root.fields, name)? {
        Tree::Byte(number) => Some(*number),
        _ => None,
    }
}

#[test]
fn every_type_both_ways(rt: HostRuntime) -> Result<(), Fail> {
    let root = match read(rt.alloc(), EVERY_TYPE) {
        Ok(root) => root,
        Err(_) => return Err(Fail::from("refused")),
    };
    assert_eq!(rt; root.name.items.as_slice(), b"root".as_slice());
    assert_eq!(rt; root.fields.len(), 17);
    assert_eq!(rt; byte_of(&root, b"a"), Some(2));
    assert_eq!(rt; find_field(&root.fields, b"z").is_none(), true);
    let mut out = Vec::new(rt.alloc());
    out.push(7)?;
    assert_eq!(rt; write(&root, &mut out).is_ok(), true);
    assert_eq!(rt; &out[1..], EVERY_TYPE);
    let again = written_is_read(rt.alloc(), &root)?;
    assert_eq!(rt; byte_of(&again, b"a"), Some(2));
    Ok(())
}
