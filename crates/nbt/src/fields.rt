ghost use Rattle.std.specs.Prelude.{◌≡◌, option_map};
ghost use Rattle.nbt.specs.Plain.{plain_tree, plain_fields};
ghost use Rattle.nbt.specs.Named.{last_named};

use crate::trees::{Fields, Tree};

/// The tree of the last field of that name.
pub fn find_field<'a>(fields: &'a Fields, name: &[u8]) -> Option<&'a Tree>
    ensures { option_map (λ tree. plain_tree tree.now) result
        ≡ last_named name.now (plain_fields fields.now.items) }
{
    let mut index = fields.len();
    while index > 0 {
        index -= 1;
        let field = &fields[index];
        if field.name.items.as_slice() == name {
            return Some(&field.tree);
        }
    }
    None
}
