//! The lines of a text.

ghost use Rattle.std.specs.Prelude.{◌≡◌, ◌∷◌, [], ◌≤◌, ◌↔◌, length, drop, ◌==◌, position, IsNone, IfSome, MatchOption};
ghost use Rattle.std.specs.Str.Lines.{lines, strip_carriage_return};
ghost use Rattle.rp_text.specs.Lines.{line_from};
ghost use Rattle.rp_text.specs.Spans.{bytes_of, StandsIn};

use crate::Span;

/// The line of `text` that begins at `from`, and the place after it, where the next line begins
/// or the text ends. `None` at the end of the text.
///
/// A line ends with LF; the last line may lack it. The span is without the LF, and without one CR
/// before that LF. A CR at the end of a last line without LF belongs to the line. A caller that
/// begins at 0 and goes on from each place after a line gets all lines of the text.
pub fn line_at(text: &[u8], from: usize) -> Option<(Span, usize)>
    requires { from ≤ length text.now }
    ensures none { IsNone result ↔ (from ≡ length text.now) }
    ensures exact { IfSome result (λ found. found ≡ line_from text.now from) }
    ensures within { IfSome result (λ found. StandsIn text.now from found.0 found.1) }

    // The lines from here on are this line and those from the place after it on.
    ensures lines { MatchOption result (lines (drop from text.now) ≡ []) (λ found.
        lines (drop from text.now) ≡ bytes_of text.now found.0 ∷ lines (drop found.1 text.now)) }
{
    if from == text.len() {
        return None;
    }
    let rest = &text[from..];
    let Some(length) = line_feed_place(rest) else {
        let to = text.len();
        return Some((Span { from, to }, to));
    };
    let to = from + without_carriage_return(&rest[..length]).len();
    Some((Span { from, to }, from + length + 1))
}

// The place of the first LF, if there is one.
fn line_feed_place(text: &[u8]) -> Option<usize>
    ensures { result ≡ position (λ b. b == 10) text.now }
{
    text.iter().position(|byte| *byte == b'\n')
}

// The line without the one CR at its end, if it has one.
fn without_carriage_return(line: &[u8]) -> &[u8]
    ensures { result.now ≡ strip_carriage_return line.now }
{
    match line {
        [kept @ .., b'\r'] => kept,
        _ => line,
    }
}

#[cfg(test)]
mod tests {
    use super::*;

    #[test]
    fn lines_of_a_text(rt: HostRuntime) {
        // The text, the place, and where the line begins and ends and what comes after it.
        let rows: [(&[u8], usize, Option<(usize, usize, usize)>); 21] = [
            (b"", 0, None),
            (b"a", 1, None),
            (b"a\n", 2, None),
            (b"a", 0, Some((0, 1, 1))),
            (b"a\n", 0, Some((0, 1, 2))),
            (b"\n", 0, Some((0, 0, 1))),
            (b"\n\n", 1, Some((1, 1, 2))),
            (b"\r\n", 0, Some((0, 0, 2))),
            (b"a\r\n", 0, Some((0, 1, 3))),
            (b"a\r\r\n", 0, Some((0, 2, 4))),
            (b"a\r", 0, Some((0, 2, 2))),
            (b"\r", 0, Some((0, 1, 1))),
            (b"a\rb\n", 0, Some((0, 3, 4))),
            (b"a\r\nb", 3, Some((3, 4, 4))),
            (b"ab\ncd\n", 0, Some((0, 2, 3))),
            (b"ab\ncd\n", 1, Some((1, 2, 3))),
            (b"ab\ncd\n", 2, Some((2, 2, 3))),
            (b"ab\ncd\n", 3, Some((3, 5, 6))),
            (b"ab\r\ncd", 3, Some((3, 3, 4))),
            (b"a \t\n", 0, Some((0, 3, 4))),
            (b"\x00\xff\n", 0, Some((0, 2, 3))),
        ];
        for (text, from, want) in rows {
            assert!(rt; from <= text.len());
            let found = line_at(text, from).map(|(span, next)| (span.from, span.to, next));
            assert_eq!(rt; found, want, "{text:?} at {from}");
        }
    }
}
