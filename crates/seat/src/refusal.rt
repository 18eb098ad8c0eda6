// Why a seat declines a call.
ghost use Rattle.std.specs.Prelude.{◌≡◌, Some};
ghost use Rattle.seat.specs.Refusals.{refusal_meaning, refusal_number, refusal_place};
ghost use Rattle.seat.specs.declared.refusal.Refusal.TheVariants.{Event as OfEvent, NoRoom as Full};

use events::fault::Fault;
use std::fmt;
use wire::NoRoom;

#[derive(Clone, Copy, Debug, PartialEq, Eq)]
pub enum Refusal {
    // The event did not pass the check.
    Event(Fault),
    // The report is longer than what is free on the wire.
    NoRoom,
    // Settings above 31.
    Flags,
    // A count of zero, an unknown mode, or a screen above 1.
    Value,
}

impl From<Fault> for Refusal {
    ghost from_gives = { λ e r. r ≡ OfEvent e };

    fn from(fault: Fault) -> Refusal {
        Refusal::Event(fault)
    }
}

impl From<NoRoom> for Refusal {
    ghost from_gives = { λ _ r. r ≡ Full };

    fn from(_full: NoRoom) -> Refusal {
        Refusal::NoRoom
    }
}

impl Refusal {
    // The number by which documents and programs know the refusal: a match, since variants hold something.
    pub fn number(self) -> u8
        ensures { result ≡ refusal_number self }
    {
        match self {
            Refusal::Event(fault) => fault.number(),
            Refusal::NoRoom => 8,
            Refusal::Flags => 9,
            Refusal::Value => 10,
        }
    }

    // Where the fault stands in the bytes of the event's text, or 0.
    // No Option: every refusal is told with a place, which is 0 where there is none.
    pub fn place(self) -> usize
        ensures { result ≡ refusal_place self }
    {
        match self {
            Refusal::Event(fault) => fault.place(),
            Refusal::NoRoom | Refusal::Flags | Refusal::Value => 0,
        }
    }
}

impl fmt::Display for Refusal {
    ghost output = { λ refusal. Some (refusal_meaning refusal) };

    fn fmt<W: fmt::Write>(&self, f: &mut fmt::Formatter<W>) -> fmt::Result {
        match self {
            Refusal::Event(fault) => fault.fmt(f),
            Refusal::NoRoom => f.write_str("a report longer than what is free"),
            Refusal::Flags => f.write_str("settings above 31"),
            Refusal::Value => f.write_str("a count of zero, an unknown mode, or a screen above 1"),
        }
    }
}
