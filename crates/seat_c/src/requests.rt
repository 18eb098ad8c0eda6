// The reader of a host's requests, fed one byte at a time.
ghost use Rattle.std.specs.Prelude.{◌≡◌};
ghost use Rattle.seat_c.specs.Requests.{ended, answered, Feeds};

use request::resuming::Kept;
use request::{Fault, Reader, Request};
use seat_state::answer::{Answer, NO_STATE};

// A request: 1 push with flags, 2 pop with a count, 3 set with flags and a mode, 4 query; 0 where none ended.
#[repr(C)]
#[derive(Clone, Copy, Debug, PartialEq, Eq)]
pub struct RequestNumbers {
    pub kind: u32,
    pub first: u32,
    pub second: u32,
}

fn ended(answer: Result<Option<Request>, Fault>) -> RequestNumbers
    ensures { result ≡ ended answer }
{
    let (kind, first, second) = match answer {
        Ok(None) | Err(_) => (0, 0, 0),
        Ok(Some(Request::Push(flags))) => (1, u32::from(flags), 0),
        Ok(Some(Request::Pop(count))) => (2, u32::from(count), 0),
        Ok(Some(Request::Set(flags, mode))) => (3, u32::from(flags), u32::from(mode)),
        Ok(Some(Request::Query)) => (4, 0, 0),
    };
    RequestNumbers {
        kind,
        first,
        second,
    }
}

fn answered(answer: Result<Option<Request>, Fault>) -> Answer
    ensures { result ≡ answered answer }
{
    match answer {
        Ok(None) => Answer::done(0),
        Ok(Some(_)) => Answer::done(1),
        Err(fault) => Answer::refused(usize::from(fault.number())),
    }
}

// Takes one byte in, and answers 1 where a request ends, which then stands in `request`. A reader begins as zeros.
#[unsafe(no_mangle)]
pub extern "C" fn seat_request_feed(
    reader: &mut Kept,
    byte: u8,
    request: &mut RequestNumbers,
) -> Answer
    ensures { Feeds reader.old byte request.old result reader.new request.new }
{
    let Some(mut resumed) = Reader::resume(*reader) else {
        return Answer::refused(NO_STATE);
    };
    let answer = resumed.feed(byte);
    *reader = resumed.kept();
    *request = ended(answer);
    answered(answer)
}
