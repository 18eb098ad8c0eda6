// What a call answers to a caller that has no enum: a number of refusal, 0 for none, and a count or a place.
ghost use Rattle.std.specs.Prelude.{◌≡◌};
ghost use Rattle.seat_state.specs.Answers.{answer_of, done, refusal};

use seat::refusal::Refusal;

// The state is no seat's.
pub const NO_STATE: usize = 25;

// A number stands for nothing: a layout, a dialect, a kind of key, what it holds, a place, or a yes or no.
pub const NO_NUMBER: usize = 26;

// `refusal` is 0 where the call was accepted, and `value` is then a count; else it is the place of the fault, or 0.
#[repr(C)]
#[derive(Clone, Copy, Debug, PartialEq, Eq)]
pub struct Answer {
    pub refusal: usize,
    pub value: usize,
}

impl Answer {
    pub fn done(count: usize) -> Answer
        ensures { result ≡ done count }
    {
        Answer {
            refusal: 0,
            value: count,
        }
    }

    pub fn refused(number: usize) -> Answer
        ensures { result ≡ refusal number }
    {
        Answer {
            refusal: number,
            value: 0,
        }
    }
}

impl From<Result<usize, Refusal>> for Answer {
    ghost from_gives = { λ r a. a ≡ answer_of r };

    fn from(answer: Result<usize, Refusal>) -> Answer {
        match answer {
            Ok(count) => Answer::done(count),
            Err(fault) => Answer {
                refusal: usize::from(fault.number()),
                value: fault.place(),
            },
        }
    }
}
