//! The values of a line, and where each of them ends.

ghost use Rattle.std.specs.Prelude.{◌≡◌, ◌+◌, ◌*◌, ◌^◌, ◌<◌, ◌≤◌, ◌++◌, ◌∷◌, [], false, All, length, set, slice_index_or, vec_capacity, vec_len};
ghost use Rattle.std.specs.Bool.{OnTrue};
ghost use Rattle.report.specs.ViewLine.{value_text};
ghost use Rattle.view_text.specs.Parts.{HasValues, IsKept};

/// Room for the longest time, a space and the longest cause.
pub const HEAD_ROOM: usize = 32;

/// Makes the values of a line anew. It takes no memory.
fn make_anew(line: &mut Vec<u8>, ends: &mut [u32], values: &[u8])
    requires small { All (λ value. value ≤ 15) values.now }
    requires whole { length ends.old ≡ length values.now }
    requires head { 32 ≤ length line.old.items }
    requires room { 33 + 3 * length values.now ≤ vec_capacity line.old }
    requires short { 33 + 3 * length values.now < 2 ^ 32 }
    ensures values { HasValues line.new.items ends.new values.now }
    ensures head { 32 ≤ length line.new.items }
    ensures room { vec_capacity line.old ≤ vec_capacity line.new }
{
    line.truncate(HEAD_ROOM);
    for index in 0..values.len() {
        push_value(line, values[index]);
        ends[index] = line.len() as u32;
    }
    append(line, b'\n');
}

/// Makes the values of a line anew where it is stale. It takes no memory.
pub fn freshen(line: &mut Vec<u8>, ends: &mut [u32], values: &[u8], is_stale: bool)
    requires { IsKept line.old.items (vec_capacity line.old) ends.old values.now is_stale }
    ensures { IsKept line.new.items (vec_capacity line.new) ends.new values.now false }
{
    if is_stale {
        make_anew(line, ends, values);
    }
}

/// Puts a value in place of the one at an index, if its text is as long. It tells whether it did.
pub fn mend(line: &mut Vec<u8>, ends: &[u32], values: &[u8], index: usize, value: u8) -> bool
    requires known { HasValues line.old.items ends.now values.now }
    requires head { 32 ≤ length line.old.items }
    requires whole { length ends.now ≡ length values.now }
    requires small { All (λ value. value ≤ 15) values.now }
    requires inside { index < length values.now }
    requires value { value ≤ 15 }
    ensures mended { OnTrue result (HasValues line.new.items ends.now (set values.now index value)) }
    ensures head { length line.new.items ≡ length line.old.items }
    ensures room { vec_capacity line.new ≡ vec_capacity line.old }
{
    let is_as_long = text_len(values[index]) == text_len(value);
    if is_as_long {
        put_digit(line, ends, values, index, value);
    }
    is_as_long
}

/// Puts the last digit of a value in place of that of the one at an index.
fn put_digit(line: &mut Vec<u8>, ends: &[u32], values: &[u8], index: usize, value: u8)
    requires known { HasValues line.old.items ends.now values.now }
    requires head { 32 ≤ length line.old.items }
    requires whole { length ends.now ≡ length values.now }
    requires small { All (λ value. value ≤ 15) values.now }
    requires inside { index < length values.now }
    requires value { value ≤ 15 }
    requires as_long { length (value_text value) ≡ length (value_text (slice_index_or values.now index 0)) }
    ensures values { HasValues line.new.items ends.now (set values.now index value) }
    ensures head { length line.new.items ≡ length line.old.items }
    ensures room { vec_capacity line.new ≡ vec_capacity line.old }
{
    let last = ends[index] as usize - 1;
    line[last] = b'0' + value % 10;
}

/// How many bytes the text of a value has.
fn text_len(value: u8) -> usize
    requires { value ≤ 15 }
    ensures { result ≡ length (value_text value) }
{
    if value < 10 { 2 } else { 3 }
}

fn push_value(line: &mut Vec<u8>, value: u8)
    requires value { value ≤ 15 }
    requires room { vec_len line.old + 3 ≤ vec_capacity line.old }
    ensures text { line.new.items ≡ line.old.items ++ value_text value }
    ensures short { vec_len line.new ≤ vec_len line.old + 3 }
    ensures room { vec_capacity line.old ≤ vec_capacity line.new }
{
    append(line, b' ');
    if value < 10 {
        append(line, b'0' + value);
    } else {
        append(line, b'1');
        append(line, b'0' + value % 10);
    }
}

// Puts a byte at the end of a line that has room for it.
fn append(line: &mut Vec<u8>, byte: u8)
    requires { vec_len line.old < vec_capacity line.old }
    ensures items { line.new.items ≡ line.old.items ++ byte ∷ [] }
    ensures capacity { vec_capacity line.old ≤ vec_capacity line.new }
{
    match line.push(byte) {
        Ok(()) => {}
        Err(_) => unreachable!(),
    }
}
