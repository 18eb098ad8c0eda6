// The answer to each query that needs no seat.
ghost use Rattle.std.specs.Prelude.{ℕ, ◌≤◌, length, Ok};

use crate::event_words::{composed_text, with_event};
use crate::print::{put, put_bytes, put_char, put_event, put_key, put_optional, put_place};
use crate::refusal::{Bad, Refusal};
use crate::reports::{answer_read, answer_write, flags_in};
use crate::words::{Words, optional, read_bits, read_bytes, read_char, read_key, read_place};
use dialect::dialect::Dialect;
use dialect::kitty::Kitty;
use encoding::encode;
use frames::frames::Frames;
use input_types::control::{ctrl_mapping, is_ascii_control};
use input_types::event::RawKeyEvent;
use input_types::key_code::KeyCode;
use input_types::modifiers::{KeyboardLedStatus, Modifiers};
use input_types::phys_key_code::PhysKeyCode;
use key_names::read_key_name;
use layout::us::{Us, us_layout_unshift};
use modifier_names::reading::read_modifiers;
use name_writing::flags::{write_leds, write_modifiers};
use name_writing::keys::{write_key_name, write_phys_name};
use names::composed::composed;
use names::fault::NameFault;
use names::phys_names::read_phys_name;
use normal::Normal;
use std::alloc::Global;
use std::io::Write;

#[inline(never)]
pub(crate) fn answer_encode<W: Write, D: Dialect>(
    heap: Global,
    out: &mut W,
    dialect: &D,
    words: &mut Words,
) -> Result<(), Refusal> {
    let flags = flags_in(words.next()?)?;
    with_event(heap, words, |event| {
        let mut row = [0u8; 512];
        let count = encode(&Us, dialect, flags, &event, &mut row)?;
        Ok(put_bytes(out, &row[..count])?)
    })
}

// Does something with the key that the last word stands for, which borrows the text of a composed key.
#[inline(never)]
fn with_key<F: FnOnce(KeyCode) -> Result<(), Refusal>>(
    heap: Global,
    words: &mut Words,
    put: F,
) -> Result<(), Refusal>
    requires { F.IsAlwaysCallable put }
{
    let word = words.last()?;
    let text = composed_text(heap, word)?;
    put(read_key(word, text.as_slice())?)
}

// Does something with the place that the last word stands for.
#[inline(never)]
fn with_place<F: FnOnce(PhysKeyCode) -> Result<(), Refusal>>(
    words: &mut Words,
    put: F,
) -> Result<(), Refusal>
    requires { F.IsAlwaysCallable put }
{
    put(read_place(words.last()?)?)
}

// The same of a character.
#[inline(never)]
fn with_char<F: FnOnce(char) -> Result<(), Refusal>>(
    words: &mut Words,
    put: F,
) -> Result<(), Refusal>
    requires { F.IsAlwaysCallable put }
{
    put(read_char(words.last()?)?)
}

// The same of bits.
#[inline(never)]
fn with_bits<F: FnOnce(u16) -> Result<(), Refusal>>(
    words: &mut Words,
    put: F,
) -> Result<(), Refusal>
    requires { F.IsAlwaysCallable put }
{
    put(read_bits(words.last()?)?)
}

// The same of bytes.
#[inline(never)]
fn with_text<F: FnOnce(&[u8]) -> Result<(), Refusal>>(
    heap: Global,
    words: &mut Words,
    put: F,
) -> Result<(), Refusal>
    requires { F.IsAlwaysCallable put }
{
    let text = read_bytes(heap, words.last()?)?;
    put(text.as_slice())
}

// The name that `write` puts to the front of a row.
#[inline(never)]
fn put_name<W: Write, T, F: FnOnce(T, &mut [u8]) -> Result<usize, NameFault>>(
    out: &mut W,
    named: T,
    write: F,
) -> Result<(), Refusal>
    requires callable { F.IsAlwaysCallable write }
    requires within { (x : _) (row : _) (count : ℕ) (after : _) → F.post write x row (Ok count) after → count ≤ length after.now }
{
    let mut row = [0u8; 512];
    let count = write(named, &mut row)?;
    Ok(put_bytes(out, &row[..count])?)
}

// The number of a key in the table of functional keys.
fn function_code(words: &mut Words) -> Result<Option<u32>, Bad> {
    let word = words.next()?;
    let phys_code = optional(words.last()?, read_place)?;
    let raw = RawKeyEvent {
        key: read_key(word, b"")?,
        modifiers: Modifiers::NONE,
        leds: KeyboardLedStatus::NONE,
        phys_code,
        raw_code: 0,
        repeat_count: 1,
        key_is_down: true,
    };
    Ok(raw.kitty_function_code())
}

#[inline(never)]
fn answer_code<W: Write>(out: &mut W, words: &mut Words) -> Result<(), Refusal> {
    let code = function_code(words)?;
    Ok(put_optional(out, code, "none", |out, code| write!(out, "{code}"))?)
}

// A report in the dialect that the next word names.
#[inline(never)]
fn answer_written<W: Write>(out: &mut W, words: &mut Words) -> Result<(), Refusal> {
    match words.next()? {
        "kitty" => answer_write(out, &Kitty, words),
        "frame" => answer_write(out, &Frames, words),
        _ => Err(Bad::Words.into()),
    }
}

#[inline(never)]
fn answer_told<W: Write>(heap: Global, out: &mut W, words: &mut Words) -> Result<(), Refusal> {
    match words.next()? {
        "kitty" => answer_read(heap, out, &Kitty, words),
        "frame" => answer_read(heap, out, &Frames, words),
        _ => Err(Bad::Words.into()),
    }
}

// What each query asks for is a function of its own, here and above, that is not put into its caller: a function
// clears the room of its locals at each call, and a query would pay for those of all others.
#[inline(always)]
pub(crate) fn answer_other<W: Write>(
    heap: Global,
    out: &mut W,
    verb: &str,
    words: &mut Words,
) -> Result<(), Refusal> {
    match verb {
        "tophys" => with_key(heap, words, |key| {
            Ok(put_optional(out, key.to_phys(), "none", put_place)?)
        }),
        "ismod" => with_key(heap, words, |key| {
            let truth = key.is_modifier();
            Ok(write!(out, "{truth}")?)
        }),
        "tokey" => with_place(words, |place| Ok(put_key(out, place.to_key_code())?)),
        "isphysmod" => with_place(words, |place| {
            let truth = place.is_modifier();
            Ok(write!(out, "{truth}")?)
        }),
        "ctrl" => with_char(words, |c| {
            Ok(put_optional(out, ctrl_mapping(c), "none", put_char)?)
        }),
        "asciictl" => with_char(words, |c| {
            Ok(put_optional(out, is_ascii_control(c), "none", put_char)?)
        }),
        "unshift" => with_char(words, |c| Ok(put_char(out, us_layout_unshift(c))?)),
        "xterm" => with_bits(words, |bits| {
            let number = Modifiers { bits }.encode_xterm();
            Ok(write!(out, "{number}")?)
        }),
        "nopos" => with_bits(words, |bits| {
            let left = Modifiers { bits }.remove_positional_mods().bits;
            Ok(write!(out, "{left}")?)
        }),
        "keystr" => with_key(heap, words, |key| put_name(out, key, write_key_name)),
        "physstr" => with_place(words, |place| put_name(out, place, write_phys_name)),
        "modstr" => with_bits(
            words,
            |bits| put_name(out, Modifiers { bits }, write_modifiers),
        ),
        "ledstr" => with_bits(words, |bits| {
            let leds = KeyboardLedStatus {
                bits: (bits & 0xff) as u8,
            };
            put_name(out, leds, write_leds)
        }),
        "kittycode" => answer_code(out, words),
        "normshift" => with_event(
            heap,
            words,
            |event| Ok(put_event(out, &event.normalize_shift())?),
        ),
        "normctrl" => with_event(
            heap,
            words,
            |event| Ok(put_event(out, &event.normalize_ctrl())?),
        ),
        "resurface" => with_event(heap, words, |event| {
            Ok(put_event(out, &event.resurface_positional_modifier_key())?)
        }),
        "keyname" => with_text(heap, words, |text| {
            let key = read_key_name(text)?;
            put(out, "ok ")?;
            Ok(put_key(out, key)?)
        }),
        "physname" => with_text(heap, words, |text| {
            let place = read_phys_name(text)?;
            put(out, "ok ")?;
            Ok(put_place(out, place)?)
        }),
        "mods" => with_text(heap, words, |text| {
            let bits = read_modifiers(text)?.bits;
            Ok(write!(out, "ok {bits}")?)
        }),
        "composed" => with_text(heap, words, |text| Ok(put_key(out, composed(text)?)?)),
        "write" => answer_written(out, words),
        "read" => answer_told(heap, out, words),
        _ => Err(Bad::Verb.into()),
    }
}
