// What the rules ask of a checked event.
ghost use Rattle.std.specs.Prelude.{◌≡◌, ◌≤◌, IfSome};
ghost use Rattle.events.specs.Kinds.{plain_kind};
ghost use Rattle.events.specs.Events.{reported, sum, direction, phys_raw, guess, code_raw};
ghost use Rattle.events.specs.Checks.{bytes_of};
ghost use Rattle.events.specs.Passed.{event_of};

use crate::checked::Checked;
use crate::kind::Kind;
use input_types::modifiers::{KeyboardLedStatus, Modifiers};
use input_types::phys_key_code::PhysKeyCode;
use report::ending::Direction;

impl<'a> Checked<'a> {
    #[inline(always)]
    pub fn kind(self) -> Kind<'a>
        ensures { plain_kind result ≡ (event_of self.entry).key.kind }
    {
        Kind::from(self.event.key)
    }

    // The text of a composed key; empty for any other.
    #[inline(always)]
    pub fn text(self) -> &'a str
        ensures { result.now ≡ bytes_of (event_of self.entry).key.kind }
    {
        self.text
    }

    #[inline(always)]
    pub fn is_down(self) -> bool
        ensures { result ≡ (event_of self.entry).down }
    {
        self.event.key_is_down
    }

    // The event's own modifiers.
    #[inline(always)]
    pub fn modifiers(self) -> Modifiers
        ensures { result.bits ≡ (event_of self.entry).modifiers }
    {
        self.event.modifiers
    }

    #[inline(always)]
    pub fn leds(self) -> KeyboardLedStatus
        ensures { result.bits ≡ (event_of self.entry).leds }
    {
        self.event.leds
    }

    // The raw event's modifiers, or the event's own if there is no raw event.
    #[inline(always)]
    pub fn reported_modifiers(self) -> Modifiers
        ensures { result.bits ≡ reported (event_of self.entry) }
    {
        match &self.event.raw {
            Some(raw) => raw.modifiers,
            None => self.modifiers(),
        }
    }

    // The reported modifiers and the event's lights as one number.
    #[inline(always)]
    pub fn modifier_sum(self) -> u8
        ensures { result ≡ sum (event_of self.entry) }
    {
        self.reported_modifiers().kitty_sum(self.leds())
    }

    #[inline(always)]
    pub fn told_direction(self) -> Direction
        ensures { result ≡ direction (event_of self.entry) }
    {
        if self.is_down() {
            Direction::Press
        } else {
            Direction::Release
        }
    }

    // The physical key that the raw event names.
    #[inline(always)]
    pub fn raw_phys(self) -> Option<PhysKeyCode>
        ensures { result ≡ phys_raw (event_of self.entry).raw }
    {
        self.event.raw.as_ref()?.phys_code
    }

    // The physical key that the raw event names, or else the place of the event's key. A match: the closure of
    // `or_else` would have to say again what `to_phys` promises.
    #[inline(always)]
    pub fn guessed_phys(self) -> Option<PhysKeyCode>
        ensures { result ≡ guess (event_of self.entry) }
    {
        match self.raw_phys() {
            Some(phys) => Some(phys),
            None => self.event.key.to_phys(),
        }
    }

    // The number of the raw event's key among the functional keys, a plain `u32` with its bound in a clause.
    #[inline(always)]
    pub fn raw_code(self) -> Option<u32>
        ensures value { result ≡ code_raw (event_of self.entry).raw }
        ensures bound { IfSome result (λ n. n ≤ 57654) }
    {
        self.event.raw.as_ref()?.kitty_function_code()
    }
}
