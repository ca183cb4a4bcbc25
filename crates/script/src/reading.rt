//! The text of a script.

ghost use Rattle.std.specs.Prelude.{◌≡◌, ◌∷◌, [], ◌<◌, ◌≤◌, Ok, length, IfOk, IfErr, MatchOption};
ghost use Rattle.std.specs.Str.Lines.{lines};
ghost use Rattle.script.specs.Acts.{ticks_of};
ghost use Rattle.script.specs.Clickable.{takes_click, is_wire_at};
ghost use Rattle.script.specs.Fit.{IsFit};
ghost use Rattle.script.specs.Scripts.{script_of, Refuses};

use crate::clickable::Targets;
use crate::lines::{Said, line_said};
use crate::play::Script;
use crate::{ScriptKind, ScriptRefusal};
use build::Build;
use circuit::Act;
use rp_text::line_at;
use std::alloc::Global;

/// The most ticks of a script.
const MOST_TICKS: u32 = 100_000;

/// Reads the script of a build, as `read_script_on` does.
pub fn read_script(alloc: Global, text: &[u8], build: &Build) -> Result<Script, ScriptRefusal>
    requires { length text.now ≤ 1048576 }
    ensures ok { IfOk result (λ script. script_of (takes_click build.now) (is_wire_at build.now) text.now ≡ Ok script) }
    ensures refused { IfErr result (Refuses (script_of (takes_click build.now) (is_wire_at build.now) text.now)) }

    // Each click is taken and each mark is a wire.
    ensures fit { IfOk result (IsFit (takes_click build.now) (is_wire_at build.now)) }
{
    read_script_on(alloc, text, build)
}

/// Reads a script: the acts that its lines say, and the places that they mark.
///
/// Lines end with LF, one CR before it isn't part of the line, and the last line may lack its LF.
/// Words are separated by spaces and tabs. A line without words, or whose first word begins with
/// `#`, says nothing.
///
/// | Line | Meaning |
/// |---|---|
/// | `mark x y z` | the wire there is shown, for the whole run, wherever the line stands |
/// | `use x y z`, `press x y z`, `leave x y z` | a click |
/// | `press x y z n` | a weight of n on a weighted plate, 1 to 15 |
/// | `tick n` | n ticks pass, which may be none |
///
/// The first bad line is refused, with the first kind of `ScriptKind` that it has. A number above
/// 2,147,483,647 is no place, so nothing stands there.
pub fn read_script_on<T: Targets>(
    alloc: Global,
    text: &[u8],
    targets: &T,
) -> Result<Script, ScriptRefusal>
    requires { length text.now ≤ 1048576 }
    ensures ok { IfOk result (λ script. script_of (T.takes targets.now) (T.wire targets.now) text.now ≡ Ok script) }
    ensures refused { IfErr result (Refuses (script_of (T.takes targets.now) (T.wire targets.now) text.now)) }

    // Each click is taken and each mark is a wire.
    ensures fit { IfOk result (IsFit (T.takes targets.now) (T.wire targets.now)) }
{
    let mut script = Script::new(alloc);
    let mut line = 0;
    let mut ticks = 0;
    let mut rest = text;
    while let Some((bytes, others)) = next_line(rest) {
        rest = others;
        line += 1;
        match line_said(bytes, targets) {
            Ok(Said::Nothing) => {}
            Ok(Said::Mark { pos }) => script.mark(pos)?,
            Ok(Said::Act { act }) => {
                let count = ticks_of(act);
                if count > MOST_TICKS - ticks {
                    let kind = ScriptKind::TooManyTicks;
                    return Err(ScriptRefusal::Line { line, kind });
                }
                ticks += count;
                script.push_plain(act)?;
            }
            Err(kind) => return Err(ScriptRefusal::Line { line, kind }),
        }
    }
    Ok(script)
}

// The first line, and the text after it.
fn next_line(text: &[u8]) -> Option<(&[u8], &[u8])>
    ensures lines { MatchOption result (lines text.now ≡ []) (λ found.
        lines text.now ≡ found.0.now ∷ lines found.1.now) }
    ensures shorter { MatchOption result (length text.now ≡ 0) (λ found.
        length found.1.now < length text.now) }
{
    let (line, next) = line_at(text, 0)?;
    Some((&text[line.from..line.to], &text[next..]))
}

fn ticks_of(act: Act) -> u32
    ensures { result ≡ ticks_of act }
{
    match act {
        Act::Click { .. } => 0,
        Act::Ticks { count } => count,
    }
}
