// What can be wrong with a name, or with a buffer for one.
ghost use Rattle.std.specs.Prelude.{◌≡◌};
ghost use Rattle.names.specs.declared.fault.NameFault.TheVariants.{NotUtf8, Number};
ghost use Rattle.names.specs.Refusals.{refusal_of, place_of};

use numbers::NumberFault;
use texts::NotText;

#[derive(Clone, Copy, Debug, PartialEq, Eq)]
pub enum NameFault {
    // The bytes are no text from this place on.
    NotUtf8(usize),
    // The word at this place is no name.
    Unknown(usize),
    // The number in the name.
    Number(NumberFault),
    // A character that stands for another key.
    NotAllowed,
    // Text with a character too many at this place.
    TooLong(usize),
    // The name is longer than the buffer.
    NoRoom,
}

impl From<NotText> for NameFault {
    ghost from_gives = { λ e r. r ≡ NotUtf8 e.place };

    fn from(e: NotText) -> NameFault {
        NameFault::NotUtf8(e.place)
    }
}

impl From<NumberFault> for NameFault {
    ghost from_gives = { λ e r. r ≡ Number e };

    fn from(e: NumberFault) -> NameFault {
        NameFault::Number(e)
    }
}

impl NameFault {
    // The number by which documents and programs know the refusal: a match, since variants hold something.
    pub fn number(self) -> u8
        ensures { result ≡ refusal_of self }
    {
        match self {
            NameFault::NotUtf8(_) => 1,
            NameFault::Unknown(_) => 2,
            NameFault::Number(fault) => fault.number(),
            NameFault::NotAllowed => 5,
            NameFault::TooLong(_) => 7,
            NameFault::NoRoom => 13,
        }
    }

    // Where the fault stands in the bytes, or 0.
    // No Option: every refusal is told with a place, which is 0 where there is none.
    pub fn place(self) -> usize
        ensures { result ≡ place_of self }
    {
        match self {
            NameFault::NotUtf8(place) | NameFault::Unknown(place) | NameFault::TooLong(place) =>
                place,
            NameFault::Number(fault) => fault.place,
            NameFault::NotAllowed | NameFault::NoRoom => 0,
        }
    }
}
