// The check of an event: first the event itself, then its raw event.
ghost use Rattle.std.specs.Prelude.{◌≡◌, Some as Just, None as Nothing, MatchResult};
ghost use Rattle.events.specs.Kinds.{plain_kind};
ghost use Rattle.events.specs.Events.{plain_event};
ghost use Rattle.events.specs.Faults.{text_fault, unnamed, part_fault, event_fault};
ghost use Rattle.events.specs.Checks.{bytes_of};

use crate::checked::Checked;
use crate::fault::Fault;
use crate::kind::Kind;
use input_types::event::KeyEvent;
use input_types::modifiers::{KeyboardLedStatus, Modifiers};
use texts::{char_past, checked, is_allowed};

fn check_text(bytes: &[u8]) -> Result<&str, Fault>
    ensures { MatchResult result (λ t. (t.now ≡ bytes.now) × (text_fault bytes.now ≡ Nothing)) (λ f. text_fault bytes.now ≡ Just f) }
{
    let text = checked(bytes)?;
    match char_past(text, 32) {
        Some(place) => Err(Fault::TooLong(place)),
        None => Ok(text),
    }
}

#[inline(always)]
fn is_unnamed(modifiers: Modifiers, leds: KeyboardLedStatus) -> bool
    ensures { result ≡ unnamed modifiers.bits leds.bits }
{
    !(modifiers.is_named() && leds.is_named())
}

// The text of a key, which is empty unless the key is composed, or the first fault. Modifiers and lights come apart, as
// the Rust's two events hold them.
#[inline(always)]
fn check_part<'a>(
    kind: Kind<'a>,
    modifiers: Modifiers,
    leds: KeyboardLedStatus,
) -> Result<&'a str, Fault>
    ensures { MatchResult result (λ t. (t.now ≡ bytes_of (plain_kind kind.entry)) × (part_fault (plain_kind kind.entry) modifiers.bits leds.bits ≡ Nothing)) (λ f. part_fault (plain_kind kind.entry) modifiers.bits leds.bits ≡ Just f) }
{
    let unnamed = is_unnamed(modifiers, leds);
    match kind {
        Kind::Char(c) if !is_allowed(c) => Err(Fault::NotAllowed),
        Kind::Numpad(n) if n > 9 => Err(Fault::OutOfRange),
        Kind::Function(n) if n < 1 || n > 35 => Err(Fault::OutOfRange),
        _ if unnamed => Err(Fault::OutOfRange),
        Kind::Composed(bytes) => check_text(bytes),
        _ => Ok(""),
    }
}

// The event with its text checked, or the first fault, with its place.
#[inline(always)]
pub fn check<'a>(event: &'a KeyEvent<'a>) -> Result<Checked<'a>, Fault>
    ensures { MatchResult result (λ c. c.event.now ≡ event.now) (λ f. event_fault (plain_event event.now) ≡ Just f) }
{
    let text = check_part(Kind::from(event.key), event.modifiers, event.leds)?;
    if let Some(raw) = &event.raw {
        check_part(Kind::from(raw.key), raw.modifiers, raw.leds)?;
    }
    Ok(Checked { event, text })
}
