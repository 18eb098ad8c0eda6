// The bytes of one event under a setting, with no seat.
ghost use Rattle.std.specs.Prelude.{◌≡◌, ◌≤◌, MatchOption};
ghost use Rattle.event_numbers.specs.Events.{event_by};
ghost use Rattle.seat_c.specs.Encoding.{checked_answer, Encodes};

use encoding::{encode, encode_text};
use event_numbers::events::{EventNumbers, event_by};
use events::fault::Fault;
use input_types::flags::KittyKeyboardFlags;
use seat_state::answer::{Answer, NO_NUMBER};
use seat_state::known::{AnyDialect, AnyLayout};

const UNLISTED: usize = 9;

fn checked_answer(sent: Result<usize, Fault>) -> Answer
    ensures { result ≡ checked_answer sent }
{
    match sent {
        Ok(count) => Answer::done(count),
        Err(fault) => Answer {
            refusal: usize::from(fault.number()),
            value: fault.place(),
        },
    }
}

fn listed(flags: u32) -> Option<KittyKeyboardFlags>
    ensures { MatchOption result (32 ≤ flags) (λ f. f.bits ≡ flags) }
{
    if flags >= 32 {
        return None;
    }
    KittyKeyboardFlags::from_bits(flags as u16)
}

// What a caller asks for.
#[derive(Clone, Copy)]
struct Asked<'a> {
    layout: u32,
    dialect: u32,
    flags: u32,
    event: &'a EventNumbers,
    text: &'a [u8],
    raw_text: &'a [u8],
}

impl Asked<'_> {
    // The short way of a press of a character with no modifiers and no raw event, which mostly is plain text. These
    // numbers are looked at before an event is made of them, so that the compiler leaves out all that other events hold.
    #[inline(always)]
    fn encode_alone(self, out: &mut [u8; 512]) -> Option<Answer>
        ensures { MatchOption result (out.new ≡ out.old) (λ a. Encodes self.entry.layout self.entry.dialect self.entry.flags (event_by self.entry.event.now self.entry.text self.entry.raw_text) out.old a out.new) }
    {
        let numbers = self.event;
        if numbers.key.kind != 0 || numbers.modifiers != 0 || numbers.raw.present != 0 {
            return None;
        }
        let Ok(_) = AnyLayout::try_from(self.layout) else {
            return None;
        };
        let Ok(dialect) = AnyDialect::try_from(self.dialect) else {
            return None;
        };
        let event = event_by(numbers, self.text, self.raw_text)?;
        let flags = listed(self.flags)?;
        let count = encode_text(&dialect, flags, &event, out)?;
        Some(Answer::done(count))
    }

    // The way of every event.
    #[inline(always)]
    fn encode(self, out: &mut [u8; 512]) -> Answer
        ensures { Encodes self.entry.layout self.entry.dialect self.entry.flags (event_by self.entry.event.now self.entry.text self.entry.raw_text) out.old result out.new }
    {
        let Ok(layout) = AnyLayout::try_from(self.layout) else {
            return Answer::refused(NO_NUMBER);
        };
        let Ok(dialect) = AnyDialect::try_from(self.dialect) else {
            return Answer::refused(NO_NUMBER);
        };
        let Some(event) = event_by(self.event, self.text, self.raw_text) else {
            return Answer::refused(NO_NUMBER);
        };
        let Some(flags) = listed(self.flags) else {
            return Answer::refused(UNLISTED);
        };
        checked_answer(encode(&layout, &dialect, flags, &event, out))
    }
}

// Writes what an event sends to the front of `out`, whose rest stays, and answers how many bytes.
#[unsafe(no_mangle)]
pub extern "C" fn seat_encode(
    layout: u32,
    dialect: u32,
    flags: u32,
    event: &EventNumbers,
    text: &[u8],
    raw_text: &[u8],
    out: &mut [u8; 512],
) -> Answer
    ensures { Encodes layout dialect flags (event_by event.now text.entry raw_text.entry) out.old result out.new }
{
    let asked = Asked {
        layout,
        dialect,
        flags,
        event,
        text,
        raw_text,
    };
    match asked.encode_alone(out) {
        Some(answer) => answer,
        None => asked.encode(out),
    }
}
