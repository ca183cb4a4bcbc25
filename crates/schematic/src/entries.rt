//! The entries of a palette that count.

ghost use Rattle.std.specs.Prelude.{◌≡◌, ◌||◌, ℕ, List, not, IfOk};
ghost use Rattle.schematic.specs.Palette.{entries_of};
ghost use Rattle.schematic.specs.Presence.{is_int_entry, all_ints};
ghost use Rattle.std.specs.Str.{bytes_eq};
ghost use Rattle.nbt.specs.Plain.{plain_field};
ghost use Rattle.schematic.specs.Code.{plain_held, plain_entries, has_name};

use nbt::{Field, Fields, Tree};
use rp_text::NoMemory;
use std::alloc::Global;
use std::collections::BTreeSet;

/// Adds a name, and says whether it is new.
fn add_name<'a>(names: &mut BTreeSet<&'a [u8]>, name: &'a [u8]) -> Result<bool, NoMemory>
    ensures added { IfOk result (λ added. added ≡ not (has_name names.old.keys name.now)) }
    ensures names { IfOk result (λ added. (q : List ℕ) → has_name names.new.keys q ≡ (bytes_eq q name.now || has_name names.old.keys q)) }
{
    Ok(names.insert(name)?)
}

/// The fields that count, in their order: of equal names the last.
#[tactic(auto, unfolding(crate::specs::Palette::entries_of))]
pub fn entries_of(alloc: Global, fields: Option<&Fields>) -> Result<Vec<&Field>, NoMemory>
    ensures { IfOk result (λ entries. plain_entries entries.items ≡ entries_of (plain_held fields.entry)) }
{
    let mut entries = Vec::new(alloc);
    let Some(fields) = fields else {
        return Ok(entries);
    };
    let mut names = BTreeSet::new(alloc);
    let mut index = fields.len();
    while index > 0 {
        index -= 1;
        let field = &fields[index];
        if add_name(&mut names, &field.name.items)? {
            entries.push(field)?;
        }
    }
    entries.reverse();
    Ok(entries)
}

fn is_int_entry(entry: &Field) -> bool
    ensures { result ≡ is_int_entry (plain_field entry.now) }
{
    matches!(entry.tree, Tree::Int(_))
}

/// Whether all entries are Ints.
pub fn all_ints(entries: &[&Field]) -> bool
    ensures { result ≡ all_ints (plain_entries entries.now) }
{
    for entry in entries {
        if !is_int_entry(entry) {
            return false;
        }
    }
    true
}
