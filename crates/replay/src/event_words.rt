// The words of an event.
ghost use Rattle.std.specs.Prelude.{◌≡◌, ◌≢◌, cond, codes, MatchResult};

use crate::refusal::{Bad, Refusal};
use crate::words::{Words, optional, read_bits, read_bytes, read_key, read_number, read_place};
use input_types::event::{KeyEvent, RawKeyEvent};
use input_types::modifiers::{KeyboardLedStatus, Modifiers};
use input_types::phys_key_code::PhysKeyCode;
use std::alloc::Global;

#[derive(Clone, Copy)]
struct PartWords<'a> {
    key: &'a str,
    modifiers: Modifiers,
    leds: KeyboardLedStatus,
}

#[derive(Clone, Copy)]
struct EventWords<'a> {
    down: bool,
    own: PartWords<'a>,
    // With the place of its key, where that is told.
    raw: Option<(PartWords<'a>, Option<PhysKeyCode>)>,
}

// By the words of a query: in the event, down is a bool.
fn direction(word: &str) -> Result<bool, Bad>
    ensures { MatchResult result (λ down. word.now ≡ cond down (codes "d") (codes "u")) (λ _. (word.now ≢ codes "d") × (word.now ≢ codes "u")) }
{
    match word {
        "d" => Ok(true),
        "u" => Ok(false),
        _ => Err(Bad::Direction),
    }
}

fn part_words<'a>(words: &mut Words<'a>) -> Result<PartWords<'a>, Bad> {
    let key = words.next()?;
    let modifiers = words.next()?;
    let leds = words.next()?;
    Ok(PartWords {
        key,
        modifiers: Modifiers {
            bits: read_bits(modifiers)?,
        },
        leds: KeyboardLedStatus {
            bits: read_number(leds)?,
        },
    })
}

fn event_words<'a>(words: &mut Words<'a>) -> Result<EventWords<'a>, Bad> {
    let down = direction(words.next()?)?;
    let own = part_words(words)?;
    if words.are_just("-") {
        return Ok(EventWords {
            down,
            own,
            raw: None,
        });
    }
    let raw = part_words(words)?;
    let phys = optional(words.last()?, read_place)?;
    Ok(EventWords {
        down,
        own,
        raw: Some((raw, phys)),
    })
}

// The bytes of a composed key, and none of another.
pub(crate) fn composed_text(heap: Global, key: &str) -> Result<Vec<u8>, Bad> {
    match key.strip_prefix("s:") {
        Some(bytes) => read_bytes(heap, bytes),
        None => Ok(Vec::new(heap)),
    }
}

fn raw_event<'a>(
    raw: PartWords,
    phys: Option<PhysKeyCode>,
    down: bool,
    text: &'a [u8],
) -> Result<RawKeyEvent<'a>, Bad> {
    let key = read_key(raw.key, text)?;
    Ok(RawKeyEvent {
        key,
        modifiers: raw.modifiers,
        leds: raw.leds,
        phys_code: phys,
        raw_code: 0,
        repeat_count: 1,
        key_is_down: down,
    })
}

fn event_of<'a>(
    words: &EventWords,
    own_text: &'a [u8],
    raw_text: &'a [u8],
) -> Result<KeyEvent<'a>, Bad> {
    let key = read_key(words.own.key, own_text)?;
    let raw = words
        .raw
        .map(|(raw, phys)| raw_event(raw, phys, words.down, raw_text))
        .transpose()?;
    Ok(KeyEvent {
        key,
        modifiers: words.own.modifiers,
        leds: words.own.leds,
        repeat_count: 1,
        key_is_down: words.down,
        raw,
    })
}

// Does something with the event that the words stand for, which borrows the texts of composed keys. Not put into its
// caller, whose other queries would pay for its locals.
#[inline(never)]
pub(crate) fn with_event<F: FnOnce(KeyEvent) -> Result<(), Refusal>>(
    heap: Global,
    words: &mut Words,
    put: F,
) -> Result<(), Refusal>
    requires { F.IsAlwaysCallable put }
{
    let parts = event_words(words)?;
    let own = composed_text(heap, parts.own.key)?;
    let raw = match parts.raw {
        Some((raw, _)) => composed_text(heap, raw.key)?,
        None => Vec::new(heap),
    };
    put(event_of(&parts, own.as_slice(), raw.as_slice())?)
}
