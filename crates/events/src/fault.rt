// What can be wrong with an event.
ghost use Rattle.std.specs.Prelude.{◌≡◌, Some};
ghost use Rattle.events.specs.declared.fault.Fault.TheVariants.{NotText as Torn};
ghost use Rattle.events.specs.Refusals.{meaning, number, place};

use std::fmt;
use texts::NotText;

#[derive(Clone, Copy, Debug, PartialEq, Eq)]
pub enum Fault {
    // A character that stands for another key.
    NotAllowed,
    // A key's number out of range, or a bit without a name.
    OutOfRange,
    // Bytes that are no text from this place on.
    NotText(usize),
    // Text with a character too many at this place.
    TooLong(usize),
}

impl Fault {
    // Not discriminants: two of the faults bear a place, and an enum that does has no cast to its number.
    pub fn number(self) -> u8
        ensures { result ≡ Rattle.events.specs.Refusals.number self }
    {
        match self {
            Fault::NotAllowed => 5,
            Fault::OutOfRange => 6,
            Fault::NotText(_) => 1,
            Fault::TooLong(_) => 7,
        }
    }

    // 0 for a fault without a place, as an answer line has it; an Option would be unpacked to that by each caller.
    pub fn place(self) -> usize
        ensures { result ≡ Rattle.events.specs.Refusals.place self }
    {
        match self {
            Fault::NotAllowed | Fault::OutOfRange => 0,
            Fault::NotText(place) | Fault::TooLong(place) => place,
        }
    }
}

// By hand, here and below: what a derive of these impls writes has no contract.
impl From<NotText> for Fault {
    ghost from_gives = { λ e r. r ≡ Torn e.place };

    fn from(e: NotText) -> Fault {
        Fault::NotText(e.place)
    }
}

impl fmt::Display for Fault {
    ghost output = { λ fault. Some (meaning fault) };

    fn fmt<W: fmt::Write>(&self, f: &mut fmt::Formatter<W>) -> fmt::Result {
        f.write_str(match self {
            Fault::NotAllowed => "a character that stands for another key",
            Fault::OutOfRange => "a key number out of range, or a bit without a name",
            Fault::NotText(_) => "not UTF-8 from that byte on",
            Fault::TooLong(_) => "more than 32 characters",
        })
    }
}
