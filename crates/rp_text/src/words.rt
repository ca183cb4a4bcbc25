//! The words of a line.

ghost use Rattle.std.specs.Prelude.{◌≡◌, ◌∷◌, [], ℕ, ◌≤◌, ◌<◌, length, drop, not, IfNone, IfSome, MatchOption};
ghost use Rattle.std.specs.List.{prefix_len};
ghost use Rattle.rp_text.specs.Words.{is_blank as is_blank_byte, words, IsBetweenWords, IsFirstWord, IsWord};
ghost use Rattle.rp_text.specs.Spans.{bytes_of, StandsIn};

use crate::Span;

/// The first word of `line` that begins at or after `from`, and the place after it. `None` where
/// no word begins there.
///
/// Words are runs of bytes other than space and tab. A word that began before `from` is passed
/// over. A caller that begins at 0 and goes on from each place after a word gets all words of the
/// line.
pub fn word_at(line: &[u8], from: usize) -> Option<(Span, usize)>
    requires { from ≤ length line.now }
    ensures none { IfNone result ((start to : ℕ) → IsWord line.now start to → start < from) }
    ensures first { IfSome result (λ found. IsFirstWord line.now from found.0) }
    ensures next { IfSome result (λ found. found.1 ≡ found.0.to) }
    ensures within { IfSome result (λ found. StandsIn line.now from found.0 found.1) }

    // The words from here on are this word and those from the place after it on.
    ensures words { IsBetweenWords line.now from →
        MatchOption result (words (drop from line.now) ≡ []) (λ found.
        words (drop from line.now) ≡ bytes_of line.now found.0 ∷ words (drop found.1 line.now)) }
    ensures between { IfSome result (λ found. IsBetweenWords line.now found.1) }
{
    let between = between_words(line, from);
    let start = between + leading_blanks(&line[between..]);
    if start == line.len() {
        return None;
    }
    let to = start + leading_word_bytes(&line[start..]);
    Some((Span { from: start, to }, to))
}

// `from`, or where a word stands around it, the place after that word.
fn between_words(line: &[u8], from: usize) -> usize
    requires { from ≤ length line.now }
    ensures low { from ≤ result }
    ensures high { result ≤ length line.now }
    ensures between { IsBetweenWords line.now result }
    ensures same { IsBetweenWords line.now from → result ≡ from }
    ensures passed { (start to : ℕ) → IsWord line.now start to → from ≤ start → result ≤ start }
{
    if from > 0 && !is_blank(line[from - 1]) {
        from + leading_word_bytes(&line[from..])
    } else {
        from
    }
}

// How many blanks the bytes begin with.
fn leading_blanks(bytes: &[u8]) -> usize
    ensures value { result ≡ prefix_len is_blank_byte bytes.now }
    ensures short { result ≤ length bytes.now }
{
    bytes.iter().take_while(|byte| is_blank(**byte)).count()
}

// How many bytes of a word the bytes begin with.
fn leading_word_bytes(bytes: &[u8]) -> usize
    ensures value { result ≡ prefix_len (λ b. not (is_blank_byte b)) bytes.now }
    ensures short { result ≤ length bytes.now }
{
    bytes.iter().take_while(|byte| !is_blank(**byte)).count()
}

fn is_blank(byte: u8) -> bool
    ensures { result ≡ is_blank_byte byte }
{
    byte == b' ' || byte == b'\t'
}

#[cfg(test)]
mod tests {
    use super::*;

    #[test]
    fn words_of_a_line(rt: HostRuntime) {
        // The line, the place, and where the word begins and ends.
        let rows: [(&[u8], usize, Option<(usize, usize)>); 20] = [
            (b"", 0, None),
            (b" \t ", 0, None),
            (b"a", 1, None),
            (b"a", 0, Some((0, 1))),
            (b"use 1", 0, Some((0, 3))),
            (b"use 1", 3, Some((4, 5))),
            (b"use 1", 4, Some((4, 5))),
            (b"use 1", 1, Some((4, 5))),
            (b"use 1", 2, Some((4, 5))),
            (b"use 1", 5, None),
            (b"use", 1, None),
            (b"  a  ", 0, Some((2, 3))),
            (b"  a  ", 3, None),
            (b"\ta\tb", 0, Some((1, 2))),
            (b"\ta\tb", 2, Some((3, 4))),
            (b"a \t b", 1, Some((4, 5))),
            (b"a\rb\nc d", 0, Some((0, 5))),
            (b"a\x0bb", 0, Some((0, 3))),
            (b"\x00 \xff", 0, Some((0, 1))),
            (b"\x00 \xff", 1, Some((2, 3))),
        ];
        for (line, from, want) in rows {
            assert!(rt; from <= line.len());
            let found = word_at(line, from);
            let places = found.map(|(span, _)| (span.from, span.to));
            assert_eq!(rt; places, want, "{line:?} at {from}");
            let after = found.map(|(_, next)| next);
            assert_eq!(rt; after, want.map(|(_, to)| to), "after {line:?} at {from}");
        }
    }
}
