//! Varints: seven bits a byte, low ones first.

ghost use Rattle.std.specs.Prelude.{◌≡◌, ◌++◌, OnOk};
ghost use Rattle.schem_write.specs.Varint.{varint};

use rp_text::NoMemory;

/// Appends the shortest varint of a number.
pub fn push_varint(out: &mut Vec<u8>, number: usize) -> Result<(), NoMemory>
    ensures { OnOk result (out.new.items ≡ out.old.items ++ varint number) }
{
    let mut rest = number;
    while rest >= 128 {
        out.push(128 + (rest % 128) as u8)?;
        rest /= 128;
    }
    out.push(rest as u8)?;
    Ok(())
}
