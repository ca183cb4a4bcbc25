//! Numbers as decimal text.

ghost use Rattle.std.specs.Prelude.{◌≡◌, ℕ, ◌<◌, ◌+◌, ◌^◌, ◌++◌, Some, length, decimal, IfSome, OnOk, OnErr, vec_capacity, vec_len};
ghost use Rattle.std.specs.Char.{is_ascii_digit};
ghost use Rattle.std.specs.List.{list_all};
ghost use Rattle.rp_text.specs.Numbers.{is_plain as is_plain_decimal, u32_of};

use crate::{NoMemory, push_bytes};
use itoa::Buffer;
use std::str;

/// The number that the word writes in plain decimal: digits alone, without a sign and without a
/// leading zero, where `0` itself is allowed. `None` for any other word, and for a number above
/// 4,294,967,295.
pub fn read_u32(word: &[u8]) -> Option<u32>
    ensures value { result ≡ u32_of word.now }

    // It reads just the texts that numbers of 32 bits are written as.
    ensures text { IfSome result (λ n. word.now ≡ decimal n) }
    ensures every { (n : ℕ) → n < 2 ^ 32 → word.now ≡ decimal n → result ≡ Some n }
{
    if !is_plain(word) {
        return None;
    }
    str::from_utf8(word).ok()?.parse().ok()
}

// Whether the word is digits alone, at least one, and no 0 before others.
fn is_plain(word: &[u8]) -> bool
    ensures { result ≡ is_plain_decimal word.now }
{
    match word {
        [] => false,
        [b'0'] => true,
        [first, ..] => *first != b'0' && is_digits(word),
    }
}

fn is_digits(bytes: &[u8]) -> bool
    ensures { result ≡ list_all is_ascii_digit bytes.now }
{
    bytes.iter().all(u8::is_ascii_digit)
}

/// Appends the decimal digits of `n` to `out`.
pub fn push_u64(out: &mut Vec<u8>, n: u64) -> Result<(), NoMemory>
    ensures ok { OnOk result (out.new.items ≡ out.old.items ++ decimal n) }
    ensures err { OnErr result (out.new.items ≡ out.old.items) }
    ensures full { OnErr result (vec_capacity out.old < vec_len out.old + length (decimal n)) }
{
    let mut buffer = Buffer::new();
    push_bytes(out, buffer.format(n).as_bytes())
}

#[cfg(test)]
mod tests {
    use super::*;
    use std::test::Fail;

    #[test]
    fn numbers_of_words(rt: HostRuntime) {
        let rows: [(&[u8], Option<u32>); 25] = [
            (b"0", Some(0)),
            (b"7", Some(7)),
            (b"10", Some(10)),
            (b"65535", Some(65_535)),
            (b"1234567890", Some(1_234_567_890)),
            (b"4294967295", Some(4_294_967_295)),
            (b"4294967296", None),
            (b"4294967300", None),
            (b"9999999999", None),
            (b"42949672950", None),
            (b"100000000000000000000000000000000000000000", None),
            (b"", None),
            (b"00", None),
            (b"01", None),
            (b"007", None),
            (b"+1", None),
            (b"+", None),
            (b"-1", None),
            (b"-0", None),
            (b"1a", None),
            (b"a1", None),
            (b" 1", None),
            (b"1 ", None),
            (b"1_0", None),
            (b"1\xd9\xa2", None),
        ];
        for (word, want) in rows {
            assert_eq!(rt; read_u32(word), want, "{word:?}");
        }
    }

    #[test]
    fn digits_of_numbers(rt: HostRuntime) -> Result<(), Fail> {
        let rows: [(u64, &[u8]); 7] = [
            (0, b"n=0"),
            (9, b"n=9"),
            (10, b"n=10"),
            (100, b"n=100"),
            (4_294_967_296, b"n=4294967296"),
            (9_999_999_999_999_999_999, b"n=9999999999999999999"),
            (18_446_744_073_709_551_615, b"n=18446744073709551615"),
        ];
        for (n, want) in rows {
            let mut out = Vec::new(rt.alloc());
            push_bytes(&mut out, b"n=")?;
            push_u64(&mut out, n)?;
            assert_eq!(rt; out.as_slice(), want, "{n}");
        }
        Ok(())
    }
}
