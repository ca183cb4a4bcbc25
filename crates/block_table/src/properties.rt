//! A state's text: a name, and properties in brackets.

ghost use Rattle.std.specs.Prelude.{◌≡◌, ◌∷◌, ◌<◌, ◌==◌, IfSome, length, map, position, is_some};
ghost use Rattle.std.specs.Option.{option_map, option_copied};
ghost use Rattle.std.specs.Str.{bytes_eq};
ghost use Rattle.block_table.specs.StateText.{parts, parts_after, pieces, property_of, properties_of, properties_in, state_of, without_namespace, chosen, IsFormed};

fn place_of(text: &[u8], byte: u8) -> Option<usize>
    ensures { result ≡ position (λ b. b == byte) text.now }
{
    text.iter().position(|b| *b == byte)
}

/// The bytes before the first one that is this, and those behind it where there is one.
fn cut(text: &[u8], byte: u8) -> (&[u8], Option<&[u8]>)
    ensures parts { parts byte text.now ≡ result.0.now ∷ parts_after byte (option_copied result.1) }
    ensures shorter { IfSome result.1 (λ rest. length rest.now < length text.now) }
{
    match place_of(text, byte) {
        Some(place) => (&text[..place], Some(&text[place + 1..])),
        None => (text, None),
    }
}

/// A key and its value.
#[derive(Clone, Copy)]
struct Property<'a> {
    key: &'a [u8],
    value: &'a [u8],
}

fn property_of(text: &[u8]) -> Option<Property<'_>>
    ensures { option_map (λ p. record { key = p.key.now; value = p.value.now }) result ≡ property_of text.now }
{
    let (key, rest) = cut(text, b'=');
    let (value, rest) = cut(rest?, b'=');
    if rest.is_some() || key.is_empty() || value.is_empty() {
        return None;
    }
    Some(Property { key, value })
}

/// What stands between commas begins here; in an empty text nothing does.
fn first_piece(text: &[u8]) -> Option<&[u8]>
    ensures { parts_after 44 (option_copied result) ≡ pieces text.now }
{
    if text.is_empty() { None } else { Some(text) }
}

/// Whether a text is properties joined by commas, or none.
fn is_formed(text: &[u8]) -> bool
    ensures { result ≡ is_some (properties_of text.now) }
{
    let mut rest = first_piece(text);
    while let Some(text) = rest {
        let (piece, after) = cut(text, b',');
        if property_of(piece).is_none() {
            return false;
        }
        rest = after;
    }
    true
}

/// A name, and the text of its properties, which has the form.
#[derive(Clone, Copy)]
pub(crate) struct StateText<'a> {
    pub(crate) name: &'a [u8],
    pub(crate) properties: &'a [u8],
}

pub(crate) fn state_of(text: &[u8]) -> Option<StateText<'_>>
    ensures value { option_map (λ s. record { name = s.name.now; properties = properties_in s.properties.now }) result ≡ state_of text.now }
    ensures formed { IfSome result (λ s. IsFormed s.properties.now) }
{
    let (name, rest) = cut(text, b'[');
    let Some(rest) = rest else {
        return Some(StateText {
            name,
            properties: &[],
        });
    };
    let (bracketed, more) = cut(rest, b'[');
    if more.is_some() {
        return None;
    }
    let (properties, end) = cut(bracketed, b']');
    if end?.is_empty() && is_formed(properties) {
        Some(StateText { name, properties })
    } else {
        None
    }
}

/// A text without the `minecraft:` that may stand first.
pub(crate) fn without_namespace(text: &[u8]) -> &[u8]
    ensures { result.now ≡ without_namespace text.now }
{
    let namespace = "minecraft:".as_bytes();
    if text.starts_with(namespace) {
        &text[namespace.len()..]
    } else {
        text
    }
}

fn place_in(listed: &[&str], value: &[u8]) -> Option<usize>
    ensures { result ≡ position (λ v. bytes_eq v.now value.now) listed.now }
{
    listed.iter().position(|v| v.as_bytes() == value)
}

/// The place, in the list of a key's values, of the value that counts.
pub(crate) fn chosen(properties: &[u8], key: &str, listed: &[&str]) -> Option<usize>
    requires { IsFormed properties.now }
    ensures { result ≡ chosen key.now (map (λ v. v.now) listed.now) (properties_in properties.now) }
{
    let mut chosen = 0;
    let mut rest = first_piece(properties);
    while let Some(text) = rest {
        let (piece, after) = cut(text, b',');
        let property = property_of(piece)?;
        if property.key == key.as_bytes() {
            chosen = place_in(listed, property.value)?;
        }
        rest = after;
    }
    Some(chosen)
}
