// What answers are put together from. Functions, no `Display`: the types are other crates'.
use input_types::event::{KeyEvent, RawKeyEvent};
use input_types::key_code::KeyCode;
use input_types::phys_key_code::PhysKeyCode;
use key_names::plain_name;
use names::phys_names::phys_name;
use std::io;
use std::io::Write;

// In a table: with `{b:02x}` an answer takes a fifth longer, and `encode_to_slice` wants a row for all of it.
const HEX: [u8; 16] = *b"0123456789abcdef";

pub(crate) fn put<W: Write>(out: &mut W, text: &str) -> io::Result<()> {
    out.write_all(text.as_bytes())
}

// Bytes in hex; a dash for none.
pub(crate) fn put_bytes<W: Write>(out: &mut W, bytes: &[u8]) -> io::Result<()> {
    if bytes.is_empty() {
        return put(out, "-");
    }
    for b in bytes {
        let pair = [HEX[(*b / 16) as usize], HEX[(*b % 16) as usize]];
        out.write_all(&pair)?;
    }
    Ok(())
}

pub(crate) fn put_char<W: Write>(out: &mut W, c: char) -> io::Result<()> {
    let code = c as u32;
    write!(out, "{code:x}")
}

// What there is, put as it is put, or a word where there is nothing.
pub(crate) fn put_optional<W: Write, T, F: FnOnce(&mut W, T) -> io::Result<()>>(
    out: &mut W,
    value: Option<T>,
    nothing: &str,
    put_value: F,
) -> io::Result<()>
    requires { F.IsAlwaysCallable put_value }
{
    match value {
        Some(value) => put_value(out, value),
        None => put(out, nothing),
    }
}

// A place by the name of its case: a letter is a capital, a digit stands after K.
pub(crate) fn put_place<W: Write>(out: &mut W, place: PhysKeyCode) -> io::Result<()> {
    let name = phys_name(place);
    match name.as_bytes() {
        [b] if b.is_ascii_digit() => write!(out, "K{name}"),
        [b] => out.write_all(&[b.to_ascii_uppercase()]),
        _ => put(out, name),
    }
}

pub(crate) fn put_key<W: Write>(out: &mut W, key: KeyCode) -> io::Result<()> {
    match key {
        KeyCode::Char(c) => {
            put(out, "c:")?;
            put_char(out, c)
        }
        KeyCode::Composed(bytes) => {
            put(out, "s:")?;
            put_bytes(out, bytes)
        }
        KeyCode::RawCode(n) => write!(out, "r:{n}"),
        KeyCode::Physical(place) => {
            put(out, "p:")?;
            put_place(out, place)
        }
        KeyCode::Numpad(n) => write!(out, "n:{n}"),
        KeyCode::Function(n) => write!(out, "f:{n}"),
        _ => put(out, plain_name(key)),
    }
}

fn put_raw<W: Write>(out: &mut W, raw: &RawKeyEvent) -> io::Result<()> {
    put(out, " ")?;
    put_key(out, raw.key)?;
    let modifiers = raw.modifiers.bits;
    let leds = raw.leds.bits;
    write!(out, " {modifiers} {leds} ")?;
    put_optional(out, raw.phys_code, "-", put_place)
}

pub(crate) fn put_event<W: Write>(out: &mut W, event: &KeyEvent) -> io::Result<()> {
    put(out, if event.key_is_down { "d " } else { "u " })?;
    put_key(out, event.key)?;
    let modifiers = event.modifiers.bits;
    let leds = event.leds.bits;
    write!(out, " {modifiers} {leds}")?;
    match &event.raw {
        Some(raw) => put_raw(out, raw),
        None => put(out, " -"),
    }
}
