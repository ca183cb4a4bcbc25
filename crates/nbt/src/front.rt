//! What stands at the front of bytes, and the bytes behind it; `None` where the bytes end first.

ghost use Rattle.std.specs.Prelude.{◌≡◌, ◌<◌, ◌^◌, ◌++◌, length, IfSome, IfNone};
ghost use Rattle.std.specs.Int.{w16, w32};
ghost use Rattle.nbt.specs.Spelling.{unsigned, short_text, IsText};
ghost use Rattle.nbt.specs.Reading.{IsCutText};

use byteorder::{BigEndian, ByteOrder};

/// The first `count` bytes.
pub fn cut(bytes: &[u8], count: usize) -> Option<(&[u8], &[u8])>
    ensures some { IfSome result (λ x. bytes.now ≡ x.0.now ++ x.1.now) }
    ensures count { IfSome result (λ x. length x.0.now ≡ count) }
    ensures none { IfNone result (length bytes.now < count) }
{
    if bytes.len() < count {
        return None;
    }
    Some(bytes.split_at(count))
}

/// A number of two bytes.
pub fn cut_u16(bytes: &[u8]) -> Option<(u16, &[u8])>
    ensures some { IfSome result (λ x. bytes.now ≡ unsigned w16 x.0 ++ x.1.now) }
    ensures limit { IfSome result (λ x. x.0 < 2 ^ 16) }
    ensures none { IfNone result (length bytes.now < 2) }
{
    let (head, rest) = cut(bytes, 2)?;
    Some((BigEndian::read_u16(head), rest))
}

/// A number of four bytes.
pub fn cut_u32(bytes: &[u8]) -> Option<(u32, &[u8])>
    ensures some { IfSome result (λ x. bytes.now ≡ unsigned w32 x.0 ++ x.1.now) }
    ensures limit { IfSome result (λ x. x.0 < 2 ^ 32) }
    ensures none { IfNone result (length bytes.now < 4) }
{
    let (head, rest) = cut(bytes, 4)?;
    Some((BigEndian::read_u32(head), rest))
}

/// A name or a text.
pub fn cut_text(bytes: &[u8]) -> Option<(&[u8], &[u8])>
    ensures some { IfSome result (λ x. bytes.now ≡ short_text x.0.now ++ x.1.now) }
    ensures text { IfSome result (λ x. IsText x.0.now) }
    ensures none { IfNone result (IsCutText bytes.now) }
{
    let (count, rest) = cut_u16(bytes)?;
    let (text, rest) = cut(rest, usize::from(count))?;
    Some((text, rest))
}
