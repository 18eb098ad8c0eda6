// Events as numbers and bytes. A field may have any value: one that stands for nothing makes no event.
ghost use Rattle.std.specs.Prelude.{◌≡◌};
ghost use Rattle.std.specs.Option.{option_map};
ghost use Rattle.tables.specs.Tables.{beside};
ghost use Rattle.input_types.specs.declared.key_code.KeyCode.TheVariants.{Physical as Physically};
ghost use Rattle.event_numbers.specs.Numbered.{places};
ghost use Rattle.event_numbers.specs.Events.{character, key_by, answer_by, known_place, modifiers_by, lights_by, raw_with, raw_by, event_by};

use crate::numbered::{place_by, plain_key};
use input_types::event::{KeyEvent, RawKeyEvent};
use input_types::key_code::KeyCode;
use input_types::modifiers::{KeyboardLedStatus, Modifiers};
use input_types::phys_key_code::PhysKeyCode;

// A key: its kind, and what it holds, 0 where it holds nothing. The text of a composed key comes apart, as bytes.
#[repr(C)]
#[derive(Clone, Copy, Debug, PartialEq, Eq)]
pub struct KeyNumbers {
    pub kind: u32,
    pub value: u32,
}

// A raw event, if `present` is 1 and not 0. The place is 0 where it is not known, and else one more than its number.
#[repr(C)]
#[derive(Clone, Copy, Debug, PartialEq, Eq)]
pub struct RawNumbers {
    pub present: u32,
    pub key: KeyNumbers,
    pub modifiers: u32,
    pub leds: u32,
    pub place: u32,
}

// An event; `down` is 1 for a press and 0 for a release.
#[repr(C)]
#[derive(Clone, Copy, Debug, PartialEq, Eq)]
pub struct EventNumbers {
    pub key: KeyNumbers,
    pub modifiers: u32,
    pub leds: u32,
    pub down: u32,
    pub raw: RawNumbers,
}

// A match, here and below: no `map` passes the variant of a type that names a lifetime.
#[inline(always)]
fn character(code: u32) -> Option<KeyCode<'static>>
    ensures { result ≡ character code }
{
    match char::from_u32(code) {
        Some(c) => Some(KeyCode::Char(c)),
        None => None,
    }
}

#[inline(always)]
fn physical(number: u32) -> Option<KeyCode<'static>>
    ensures { result ≡ option_map Physically (beside places number) }
{
    match place_by(number) {
        Some(place) => Some(KeyCode::Physical(place)),
        None => None,
    }
}

// The key of these numbers and this text, which only a composed key holds.
#[inline(always)]
pub fn key_by<'a>(key: KeyNumbers, text: &'a [u8]) -> Option<KeyCode<'a>>
    ensures { result ≡ key_by key.kind key.value text.entry }
{
    match key.kind {
        0 => character(key.value),
        1 => Some(KeyCode::Composed(text)),
        2 => Some(KeyCode::RawCode(key.value)),
        3 => physical(key.value),
        39 => Some(KeyCode::Numpad(key.value.min(255) as u8)),
        46 => Some(KeyCode::Function(key.value.min(255) as u8)),
        kind => plain_key(kind),
    }
}

#[inline(always)]
fn answer_by(number: u32) -> Option<bool>
    ensures { result ≡ answer_by number }
{
    match number {
        0 => Some(false),
        1 => Some(true),
        _ => None,
    }
}

#[inline(always)]
fn known_place(number: u32) -> Option<Option<PhysKeyCode>>
    ensures { result ≡ known_place number }
{
    match number {
        0 => Some(None),
        n => place_by(n - 1).map(Some),
    }
}

#[inline(always)]
fn modifiers_by(bits: u32) -> Modifiers
    ensures { result ≡ modifiers_by bits }
{
    Modifiers {
        bits: bits.min(0xffff) as u16,
    }
}

#[inline(always)]
fn lights_by(bits: u32) -> KeyboardLedStatus
    ensures { result ≡ lights_by bits }
{
    KeyboardLedStatus {
        bits: bits.min(0xff) as u8,
    }
}

// The raw event of these numbers, whether or not they say that there is one.
#[inline(always)]
fn raw_with<'a>(raw: RawNumbers, down: bool, text: &'a [u8]) -> Option<RawKeyEvent<'a>>
    ensures { result ≡ raw_with raw down (key_by raw.key.kind raw.key.value text.entry) (known_place raw.place) }
{
    let key = key_by(raw.key, text)?;
    let phys_code = known_place(raw.place)?;
    Some(RawKeyEvent {
        key,
        modifiers: modifiers_by(raw.modifiers),
        leds: lights_by(raw.leds),
        phys_code,
        raw_code: 0,
        repeat_count: 1,
        key_is_down: down,
    })
}

#[inline(always)]
fn raw_by<'a>(raw: RawNumbers, down: bool, text: &'a [u8]) -> Option<Option<RawKeyEvent<'a>>>
    ensures { result ≡ raw_by raw down text.entry }
{
    if answer_by(raw.present)? {
        raw_with(raw, down, text).map(Some)
    } else {
        Some(None)
    }
}

// The event of these numbers, with the texts of its key and of its raw key.
#[inline(always)]
pub fn event_by<'a>(
    event: &EventNumbers,
    text: &'a [u8],
    raw_text: &'a [u8],
) -> Option<KeyEvent<'a>>
    ensures { result ≡ event_by event.now text.entry raw_text.entry }
{
    let key = key_by(event.key, text)?;
    let down = answer_by(event.down)?;
    let raw = raw_by(event.raw, down, raw_text)?;
    Some(KeyEvent {
        key,
        modifiers: modifiers_by(event.modifiers),
        leds: lights_by(event.leds),
        repeat_count: 1,
        key_is_down: down,
        raw,
    })
}
