//! Fields of compounds.

ghost use Rattle.std.specs.Prelude.{◌≡◌, ◌++◌, ◌∷◌, [], IfOk, OnOk};
ghost use Rattle.nbt.specs.Plain.{plain_tree, int};
ghost use Rattle.schem_write.specs.Written.{size};
ghost use Rattle.schem_write.specs.Code.{plain_pairs};

use nbt::{Field, Fields, Tree};
use rp_text::{NoMemory, Raw};
use std::alloc::Global;

/// A list of the same bytes.
pub fn raw(alloc: Global, bytes: &[u8]) -> Result<Raw, NoMemory>
    ensures { IfOk result (λ raw. raw.items.items ≡ bytes.now) }
{
    let items = Vec::from_slice(alloc, bytes)?;
    Ok(Raw { items })
}

/// Adds a field behind the others.
pub fn push(fields: &mut Fields, name: &[u8], tree: Tree) -> Result<(), NoMemory>
    ensures { OnOk result (plain_pairs fields.new.items ≡ plain_pairs fields.old.items ++ ((name.now, plain_tree tree) ∷ [])) }
{
    let name = raw(*fields.allocator(), name)?;
    fields.push(Field { name, tree })?;
    Ok(())
}

/// Adds an Int.
pub fn push_int(fields: &mut Fields, name: &[u8], number: i32) -> Result<(), NoMemory>
    ensures { OnOk result (plain_pairs fields.new.items ≡ plain_pairs fields.old.items ++ ((name.now, int number) ∷ [])) }
{
    push(fields, name, Tree::Int(number))
}

/// Adds a size as a Short, which is read as unsigned.
pub fn push_size(fields: &mut Fields, name: &[u8], number: u16) -> Result<(), NoMemory>
    ensures { OnOk result (plain_pairs fields.new.items ≡ plain_pairs fields.old.items ++ ((name.now, size number) ∷ [])) }
{
    push(fields, name, Tree::Short(number.cast_signed()))
}
