//! What a text goes on with.

ghost use Rattle.std.specs.Prelude.{◌≡◌, ◌<◌, ◌+◌, ◌^◌, ◌∷◌, ◌++◌, ℕ, List, true, false, IsErrOf, OnOk, IfSome, None, decimal, length, codes};
ghost use Rattle.std.specs.Char.{is_ascii_digit};
ghost use Rattle.report.specs.declared.OrderKind.{OrderKind};
ghost use Rattle.circuit.specs.declared.Pos.{Pos};
ghost use Rattle.world_order.specs.BadLine.{Names, StartsWith, begins_with, is_fire, is_unended};
ghost use Rattle.world_order.specs.LineForms.{IsFireLine, IsFirstLine, IsNotLine, IsNumberBefore, word_len};

use report::OrderKind;
use rp_text::read_u32;

/// Whether the text goes on with this line, which ends with an LF.
pub fn expect(rest: &[u8], line: &[u8]) -> Result<(), OrderKind>
    ensures ok { OnOk result (StartsWith rest.now line.now) }
    ensures refused { (kind : OrderKind) → IsErrOf result kind → IsNotLine rest.now line.now kind }
{
    if is_unended(rest) {
        return Err(OrderKind::Short);
    }
    if !rest.starts_with(line) {
        return Err(OrderKind::Differs);
    }
    Ok(())
}

/// Whether no LF stands in the text.
pub fn is_unended(rest: &[u8]) -> bool
    ensures { result ≡ is_unended rest.now }
{
    rest.iter().all(|byte| *byte != b'\n')
}

/// Whether the text begins like a line of a firing.
pub fn is_fire(rest: &[u8]) -> bool
    ensures { result ≡ is_fire rest.now }
{
    rest.starts_with(b"fire ")
}

/// Whether the text begins like a line of counts.
pub fn is_counts(rest: &[u8]) -> bool
    ensures { result ≡ begins_with (codes "nodes ") rest.now }
{
    rest.starts_with(b"nodes ")
}

// How many bytes stand before the first such byte, or all.
fn word_len(rest: &[u8], end: u8) -> usize
    ensures { result ≡ word_len end rest.now }
{
    rest.iter().take_while(|byte| **byte != end).count()
}

/// The length of the first line, with its LF.
pub fn line_len(rest: &[u8]) -> usize
    requires { is_unended rest.now ≡ false }
    ensures { IsFirstLine rest.now result }
{
    let len = word_len(rest, b'\n');
    prove!(len < rest.len());
    len + 1
}

/// The number that ends at the first such byte, and the place behind that byte.
pub fn number_before(rest: &[u8], end: u8) -> Option<(u32, usize)>
    requires { is_ascii_digit end ≡ false }
    ensures some { IfSome result (λ found. IsNumberBefore end rest.now found.0 found.1) }
    ensures none { result ≡ None → (n : ℕ) (more : List ℕ) → n < 2 ^ 32 → rest.now ≡ decimal n ++ (end ∷ more) → ⊥ }
{
    let len = word_len(rest, end);
    if len >= rest.len() {
        return None;
    }
    let Some(number) = read_u32(&rest[..len]) else {
        return None;
    };
    Some((number, len + 1))
}

/// A line of a firing: the numbers of its place, and its length with its LF.
#[derive(Clone, Copy, Debug, PartialEq, Eq)]
pub struct FireLine {
    pub x: u32,
    pub y: u32,
    pub z: u32,
    pub len: usize,
}

/// The line of a firing that the text goes on with.
pub fn fire_line(rest: &[u8]) -> Option<FireLine>
    requires { is_fire rest.now ≡ true }
    ensures some { IfSome result (IsFireLine rest.now) }
    ensures none { result ≡ None → (place : Pos) → Names rest.now place → ⊥ }
{
    let at_x = b"fire ".len();
    let Some((x, len_x)) = number_before(&rest[at_x..], b' ') else {
        return None;
    };
    let at_y = at_x + len_x;
    let Some((y, len_y)) = number_before(&rest[at_y..], b' ') else {
        return None;
    };
    let at_z = at_y + len_y;
    let Some((z, len_z)) = number_before(&rest[at_z..], b'\n') else {
        return None;
    };
    Some(FireLine {
        x,
        y,
        z,
        len: at_z + len_z,
    })
}
