// Why a query gets a refusal in place of an answer.
use events::fault::Fault;
use names::fault::NameFault;
use reading::faults::ReadFault;
use std::io;
use thiserror::Error;

// Why a query cannot be read.
#[derive(Clone, Copy, Debug, Error)]
pub enum Bad {
    #[error("verb")]
    Verb,
    #[error("words")]
    Words,
    #[error("key")]
    Key,
    #[error("place")]
    Place,
    #[error("bits")]
    Bits,
    #[error("number")]
    Number,
    #[error("hex")]
    Hex,
    #[error("direction")]
    Direction,
    #[error("report")]
    Report,
    #[error("memory")]
    Memory,
    #[error("seat")]
    Seat,
}

#[derive(Debug, Drop, Error)]
pub enum Refusal {
    #[error("bad {0}")]
    Bad(#[from] Bad),
    // What the library refuses, by its number and place.
    #[error("declined {number} {place}")]
    Declined { number: u8, place: usize },
    #[error("the answer cannot be written")]
    Output(#[from] io::Error),
}

// One `From` for the four kinds of fault would need a trait over them.
impl From<NameFault> for Refusal {
    fn from(fault: NameFault) -> Refusal {
        Refusal::Declined {
            number: fault.number(),
            place: fault.place(),
        }
    }
}

impl From<Fault> for Refusal {
    fn from(fault: Fault) -> Refusal {
        Refusal::Declined {
            number: fault.number(),
            place: fault.place(),
        }
    }
}

impl From<ReadFault> for Refusal {
    fn from(fault: ReadFault) -> Refusal {
        Refusal::Declined {
            number: fault.number(),
            place: 0,
        }
    }
}

impl From<seat::refusal::Refusal> for Refusal {
    fn from(refusal: seat::refusal::Refusal) -> Refusal {
        Refusal::Declined {
            number: refusal.number(),
            place: refusal.place(),
        }
    }
}
