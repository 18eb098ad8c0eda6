// From an event to bytes: check, rules and dialect in one call.
#![tactic(auto)]

ghost use Rattle.std.specs.Prelude.{ℕ, MatchOption, MatchResult};
ghost use Rattle.events.specs.Events.{plain_event};
ghost use Rattle.encoding.specs.Sent.{Sends, Refuses, NoText};

use dialect::dialect::Dialect;
use events::checking::check;
use events::fault::Fault;
use input_types::event::KeyEvent;
use input_types::flags::KittyKeyboardFlags;
use layout::Layout;
use report::told::Told;
use rules::telling::{tell, tell_text};

// Writes what an event sends to the front of `out`, whose rest stays, and answers how many bytes: none if the event is silent.
// An event with a fault leaves `out` as it was. The caller lends it, since a key allocates nothing.
#[inline(always)]
pub fn encode<'a, L: Layout, D: Dialect>(
    layout: &L,
    dialect: &D,
    flags: KittyKeyboardFlags,
    event: &'a KeyEvent<'a>,
    out: &mut [u8; 512],
) -> Result<usize, Fault>
    ensures { MatchResult result (λ n. Sends (L.base layout.now) (D.bytes dialect.now) flags.bits (plain_event event.now) n out.old out.new) (λ f. Refuses (plain_event event.now) f out.old out.new) }
{
    let key = check(event)?;
    // No `map_or`: its closure would have to say again what `write` promises of `out`.
    match tell(layout, flags, key) {
        Some(report) => Ok(dialect.write(&report, out)),
        None => Ok(0),
    }
}

// The short way to the bytes of plain text, most of what is typed: those that `encode` writes, by any layout. Of an
// event that is no plain text, or has a fault, nothing is written, and `encode` says what it is.
#[inline(always)]
pub fn encode_text<'a, D: Dialect>(
    dialect: &D,
    flags: KittyKeyboardFlags,
    event: &'a KeyEvent<'a>,
    out: &mut [u8; 512],
) -> Option<usize>
    ensures { MatchOption result (NoText flags.bits (plain_event event.now) out.old out.new) (λ n. (base : ℕ → ℕ) → Sends base (D.bytes dialect.now) flags.bits (plain_event event.now) n out.old out.new) }
{
    let Ok(key) = check(event) else {
        return None;
    };
    let c = tell_text(flags, key)?;
    Some(dialect.write(&Told::Text(c), out))
}
