// Why a line of a script cannot be read.
use names::fault::NameFault;
use numbers::NumberKind;
use std::alloc::AllocError;
use thiserror::Error;

#[derive(Clone, Copy, Debug, Error)]
pub enum Why {
    #[error("not UTF-8 from that byte on")]
    NotText,
    #[error("no such word here")]
    Unknown,
    #[error("a word is missing, or one too many")]
    Count,
    #[error("no seat is open")]
    NoSeat,
    #[error("no whole number")]
    Number,
    #[error("a page has at most 1048576 bytes")]
    LargePage,
    #[error("no character has this code")]
    Code,
    #[error("a name refused with {number}, {meaning}")]
    Name { number: u8, meaning: &'static str },
    #[error("no memory is left")]
    Memory,
}

// The byte of the line at which the fault stands, from 0.
#[derive(Clone, Copy, Debug)]
pub struct Wrong {
    pub place: usize,
    pub why: Why,
}

impl From<AllocError> for Wrong {
    fn from(_full: AllocError) -> Wrong {
        Wrong {
            place: 0,
            why: Why::Memory,
        }
    }
}

fn meaning(fault: NameFault) -> &'static str {
    match fault {
        NameFault::NotUtf8(_) => "not UTF-8 from that byte on",
        NameFault::Unknown(_) => "unknown",
        NameFault::Number(fault) => match fault.kind {
            NumberKind::OutOfRange => "its number is out of range",
            NumberKind::Empty | NumberKind::NotDigit | NumberKind::TooBig =>
                "its number cannot be read",
        },
        NameFault::NotAllowed => "a character that stands for another key",
        NameFault::TooLong(_) => "more than 32 characters",
        NameFault::NoRoom => "longer than its buffer",
    }
}

// A name that begins at this place of the line.
pub(crate) fn wrong_name(place: usize, fault: NameFault) -> Wrong {
    Wrong {
        place: place.saturating_add(fault.place()),
        why: Why::Name {
            number: fault.number(),
            meaning: meaning(fault),
        },
    }
}
