// A reader goes on from numbers that a caller kept of it, where these are a reader's.
ghost use Rattle.std.specs.Prelude.{◌≡◌, MatchOption};
ghost use Rattle.request.specs.Keeping.{digits_as};

use crate::{Reader, State};

// How far a request has come; the digits read last, 0 where there are none and else their number and one; and the
// flags before a mode.
#[repr(C)]
#[derive(Clone, Copy, Debug, PartialEq, Eq)]
pub struct Kept {
    pub stage: u32,
    pub number: u32,
    pub flags: u32,
}

fn digits(n: Option<u16>) -> u32
    ensures { result ≡ digits_as n }
{
    match n {
        None => 0,
        Some(n) => u32::from(n) + 1,
    }
}

impl Reader {
    ghost use Rattle.request.specs.Keeping.{kept_of, NoReader};

    // The reader of these numbers, if there is one.
    pub fn resume(kept: Kept) -> Option<Reader>
        ensures { MatchOption result (NoReader kept) (λ r. kept_of r.state ≡ kept) }
    {
        let n = match kept.number {
            0 => None,
            k => Some(u16::try_from(k - 1).ok()?),
        };
        let flags = u16::try_from(kept.flags).ok()?;
        let state = match (kept.stage, n, flags) {
            (0, None, 0) => State::Start,
            (1, None, 0) => State::Escape,
            (2, None, 0) => State::Bracket,
            (3, None, 0) => State::Query,
            (4, n, 0) => State::Push(n),
            (5, n, 0) => State::Pop(n),
            (6, n, 0) => State::Set(n),
            (7, n, flags) => State::Mode(flags, n),
            _ => return None,
        };
        Some(Reader { state })
    }

    // The numbers of the reader.
    pub fn kept(&self) -> Kept
        ensures { result ≡ kept_of self.now.state }
    {
        let (stage, number, flags) = match self.state {
            State::Start => (0, 0, 0),
            State::Escape => (1, 0, 0),
            State::Bracket => (2, 0, 0),
            State::Query => (3, 0, 0),
            State::Push(n) => (4, digits(n), 0),
            State::Pop(n) => (5, digits(n), 0),
            State::Set(n) => (6, digits(n), 0),
            State::Mode(flags, n) => (7, digits(n), u32::from(flags)),
        };
        Kept {
            stage,
            number,
            flags,
        }
    }
}
