//! The writer. Its parts leave what they wrote before want of memory; `write` takes it back.

ghost use Rattle.std.specs.Prelude.{◌≡◌, ◌≤◌, ◌<◌, ◌/◌, ◌^◌, ◌∷◌, ◌++◌, [], length, OnOk, OnErr};
ghost use Rattle.std.specs.Int.{w8, w16, w32, w64};
ghost use Rattle.nbt.specs.Plain.{plain_tree, plain_fields, plain_trees, plain_root};
ghost use Rattle.nbt.specs.Spelling.{unsigned, signed, short_text, all_signed, payload, type_of, number_size, item_payloads, field_spellings, spelling, CanBeSpelled};
ghost use Rattle.nbt.specs.Writing.{IsLonger, CanStandSomewhere, ItemsCanStandSomewhere, FieldsCanStandSomewhere};

use crate::leaves::number_size;
use crate::trees::{Field, Root, Tree};
use rp_text::{NoMemory, push_bytes};

fn push_u8(out: &mut Vec<u8>, number: u8) -> Result<(), NoMemory>
    ensures ok { OnOk result (out.new.items ≡ out.old.items ++ (number ∷ [])) }
    ensures err { OnErr result (IsLonger out.old.items out.new.items) }
{
    out.push(number)?;
    Ok(())
}

#[tactic(auto, unfolding(crate::specs::Spelling::unsigned))]
fn push_u32(out: &mut Vec<u8>, number: u32) -> Result<(), NoMemory>
    ensures ok { OnOk result (out.new.items ≡ out.old.items ++ unsigned w32 number) }
    ensures err { OnErr result (IsLonger out.old.items out.new.items) }
{
    push_bytes(out, &number.to_be_bytes())
}

#[tactic(auto, unfolding(crate::specs::Spelling::signed))]
fn push_i8(out: &mut Vec<u8>, number: i8) -> Result<(), NoMemory>
    ensures ok { OnOk result (out.new.items ≡ out.old.items ++ signed w8 number) }
    ensures err { OnErr result (IsLonger out.old.items out.new.items) }
{
    push_bytes(out, &number.to_be_bytes())
}

#[tactic(auto, unfolding(crate::specs::Spelling::signed))]
fn push_i16(out: &mut Vec<u8>, number: i16) -> Result<(), NoMemory>
    ensures ok { OnOk result (out.new.items ≡ out.old.items ++ signed w16 number) }
    ensures err { OnErr result (IsLonger out.old.items out.new.items) }
{
    push_bytes(out, &number.to_be_bytes())
}

#[tactic(auto, unfolding(crate::specs::Spelling::signed))]
fn push_i32(out: &mut Vec<u8>, number: i32) -> Result<(), NoMemory>
    ensures ok { OnOk result (out.new.items ≡ out.old.items ++ signed w32 number) }
    ensures err { OnErr result (IsLonger out.old.items out.new.items) }
{
    push_bytes(out, &number.to_be_bytes())
}

#[tactic(auto, unfolding(crate::specs::Spelling::signed))]
fn push_i64(out: &mut Vec<u8>, number: i64) -> Result<(), NoMemory>
    ensures ok { OnOk result (out.new.items ≡ out.old.items ++ signed w64 number) }
    ensures err { OnErr result (IsLonger out.old.items out.new.items) }
{
    push_bytes(out, &number.to_be_bytes())
}

/// A name or a text.
#[tactic(auto, unfolding(crate::specs::Spelling::unsigned, crate::specs::Spelling::short_text))]
fn push_text(out: &mut Vec<u8>, bytes: &[u8]) -> Result<(), NoMemory>
    requires { length bytes.now < 2 ^ 16 }
    ensures ok { OnOk result (out.new.items ≡ out.old.items ++ short_text bytes.now) }
    ensures err { OnErr result (IsLonger out.old.items out.new.items) }
{
    let count = bytes.len() as u16;
    push_bytes(out, &count.to_be_bytes())?;
    push_bytes(out, bytes)
}

/// Bytes behind their length.
fn push_counted(out: &mut Vec<u8>, bytes: &[u8]) -> Result<(), NoMemory>
    requires { length bytes.now < 2 ^ 31 }
    ensures ok { OnOk result (out.new.items
        ≡ out.old.items ++ (unsigned w32 (length bytes.now) ++ bytes.now)) }
    ensures err { OnErr result (IsLonger out.old.items out.new.items) }
{
    push_u32(out, bytes.len() as u32)?;
    push_bytes(out, bytes)
}

fn push_ints(out: &mut Vec<u8>, numbers: &[i32]) -> Result<(), NoMemory>
    requires { length numbers.now < 2 ^ 31 }
    ensures ok { OnOk result (out.new.items
        ≡ out.old.items ++ (unsigned w32 (length numbers.now) ++ all_signed w32 numbers.now)) }
    ensures err { OnErr result (IsLonger out.old.items out.new.items) }
{
    push_u32(out, numbers.len() as u32)?;
    for number in numbers {
        push_i32(out, *number)?;
    }
    Ok(())
}

fn push_longs(out: &mut Vec<u8>, numbers: &[i64]) -> Result<(), NoMemory>
    requires { length numbers.now < 2 ^ 31 }
    ensures ok { OnOk result (out.new.items
        ≡ out.old.items ++ (unsigned w32 (length numbers.now) ++ all_signed w64 numbers.now)) }
    ensures err { OnErr result (IsLonger out.old.items out.new.items) }
{
    push_u32(out, numbers.len() as u32)?;
    for number in numbers {
        push_i64(out, *number)?;
    }
    Ok(())
}

fn push_empty_list(out: &mut Vec<u8>, count: i32) -> Result<(), NoMemory>
    ensures ok { OnOk result (out.new.items ≡ out.old.items ++ (0 ∷ signed w32 count)) }
    ensures err { OnErr result (IsLonger out.old.items out.new.items) }
{
    push_u8(out, 0)?;
    push_i32(out, count)
}

/// The element type of a list, and how many items it has.
fn push_list_head(out: &mut Vec<u8>, element: u8, count: usize) -> Result<(), NoMemory>
    requires { count < 2 ^ 31 }
    ensures ok { OnOk result (out.new.items ≡ out.old.items ++ (element ∷ unsigned w32 count)) }
    ensures err { OnErr result (IsLonger out.old.items out.new.items) }
{
    push_u8(out, element)?;
    push_u32(out, count as u32)
}

fn push_numbers(out: &mut Vec<u8>, element: u8, raw: &[u8]) -> Result<(), NoMemory>
    requires { length raw.now / number_size element < 2 ^ 31 }
    ensures ok { OnOk result (out.new.items ≡ out.old.items
        ++ (element ∷ (unsigned w32 (length raw.now / number_size element) ++ raw.now))) }
    ensures err { OnErr result (IsLonger out.old.items out.new.items) }
{
    push_list_head(out, element, raw.len() / number_size(element))?;
    push_bytes(out, raw)
}

#[cycle(write)]
fn push_payload(out: &mut Vec<u8>, tree: &Tree) -> Result<(), NoMemory>
    requires { CanStandSomewhere (plain_tree tree.now) }
    ensures ok { OnOk result (out.new.items ≡ out.old.items ++ payload (plain_tree tree.now)) }
    ensures err { OnErr result (IsLonger out.old.items out.new.items) }
{
    match tree {
        Tree::Byte(number) => push_i8(out, *number),
        Tree::Short(number) => push_i16(out, *number),
        Tree::Int(number) => push_i32(out, *number),
        Tree::Long(number) => push_i64(out, *number),
        Tree::Float(raw) => push_bytes(out, raw),
        Tree::Double(raw) => push_bytes(out, raw),
        Tree::Bytes(raw) => push_counted(out, &raw.items),
        Tree::Text(raw) => push_text(out, &raw.items),
        Tree::Ints(numbers) => push_ints(out, &numbers.items),
        Tree::Longs(numbers) => push_longs(out, &numbers.items),
        Tree::EmptyList { length } => push_empty_list(out, *length),
        Tree::Numbers { element, raw } => push_numbers(out, *element, &raw.items),
        Tree::List { element, items } => {
            push_list_head(out, *element, items.len())?;
            push_items(out, items)
        }
        Tree::Compound(fields) => push_fields(out, fields),
    }
}

#[cycle(write)]
fn push_items(out: &mut Vec<u8>, items: &Vec<Tree>) -> Result<(), NoMemory>
    requires { ItemsCanStandSomewhere (plain_trees items.now.items) }
    ensures ok { OnOk result (out.new.items
        ≡ out.old.items ++ item_payloads (plain_trees items.now.items)) }
    ensures err { OnErr result (IsLonger out.old.items out.new.items) }
{
    for item in items {
        push_payload(out, item)?;
    }
    Ok(())
}

/// The fields of a compound, and the byte that ends it.
#[cycle(write)]
fn push_fields(out: &mut Vec<u8>, fields: &Vec<Field>) -> Result<(), NoMemory>
    requires { FieldsCanStandSomewhere (plain_fields fields.now.items) }
    ensures ok { OnOk result (out.new.items
        ≡ out.old.items ++ (field_spellings (plain_fields fields.now.items) ++ (0 ∷ []))) }
    ensures err { OnErr result (IsLonger out.old.items out.new.items) }
{
    for field in fields {
        push_u8(out, type_of(&field.tree))?;
        push_text(out, &field.name.items)?;
        push_payload(out, &field.tree)?;
    }
    push_u8(out, 0)
}

/// The byte of a tree's type.
fn type_of(tree: &Tree) -> u8
    ensures { result ≡ type_of (plain_tree tree.now) }
{
    match tree {
        Tree::Byte(_) => 1,
        Tree::Short(_) => 2,
        Tree::Int(_) => 3,
        Tree::Long(_) => 4,
        Tree::Float(_) => 5,
        Tree::Double(_) => 6,
        Tree::Bytes(_) => 7,
        Tree::Text(_) => 8,
        Tree::EmptyList { .. } | Tree::Numbers { .. } | Tree::List { .. } => 9,
        Tree::Compound(_) => 10,
        Tree::Ints(_) => 11,
        Tree::Longs(_) => 12,
    }
}

/// Writes the one spelling of the root at the end of `out`. Where memory runs out, `out` is as it
/// was.
pub fn write(root: &Root, out: &mut Vec<u8>) -> Result<(), NoMemory>
    requires { CanBeSpelled (plain_root root.now) }
    ensures ok { OnOk result (out.new.items ≡ out.old.items ++ spelling (plain_root root.now)) }
    ensures err { OnErr result (out.new.items ≡ out.old.items) }
{
    let before = out.len();
    let written = push_root(out, root);
    if written.is_err() {
        out.truncate(before);
    }
    written
}

fn push_root(out: &mut Vec<u8>, root: &Root) -> Result<(), NoMemory>
    requires { CanBeSpelled (plain_root root.now) }
    ensures ok { OnOk result (out.new.items ≡ out.old.items ++ spelling (plain_root root.now)) }
    ensures err { OnErr result (IsLonger out.old.items out.new.items) }
{
    push_u8(out, 10)?;
    push_text(out, &root.name.items)?;
    push_fields(out, &root.fields)
}
