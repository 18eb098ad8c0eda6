// What goes on from line to line, and the loop over the lines.
use crate::opening::{Opening, read_opening};
use crate::refusal::{Bad, Refusal};
use crate::requests::answer_request;
use crate::seat_verbs::{answer_call, is_call};
use crate::verbs::{answer_encode, answer_other};
use crate::words::Words;
use dialect::dialect::Dialect;
use dialect::kitty::Kitty;
use frames::frames::Frames;
use layout::Layout;
use request::Reader;
use seat::seat::Seat;
use std::alloc::Global;
use std::io;
use std::io::{BufRead, Write};
use wire::Wire;

// All but the seat, whose type differs from one to the next.
#[derive(Drop)]
pub struct Session<I, O> {
    heap: Global,
    input: I,
    out: O,
    // One buffer for all lines, which `split` would allocate each.
    line: Vec<u8>,
    requests: Reader,
}

// The line that comes after those that need no seat.
#[derive(Drop)]
enum Next {
    // It stands in the buffer still.
    Call,
    Opening(Opening),
    End,
}

fn words_of(line: &[u8]) -> Result<Words, Bad> {
    let text = std::str::from_utf8(line).map_err(|_| Bad::Words)?;
    Ok(Words::new(text.trim_end()))
}

impl<I: BufRead, O: Write> Session<I, O> {
    pub(crate) fn new(heap: Global, input: I, out: O) -> Session<I, O> {
        Session {
            heap,
            input,
            out,
            line: Vec::new(heap),
            requests: Reader::new(),
        }
    }

    pub(crate) fn finish(&mut self) -> io::Result<()> {
        self.out.flush()
    }

    // Answers the line, unless it is for the seat or opens one.
    fn answer(&mut self) -> Result<Option<Next>, Refusal> {
        let heap = self.heap;
        let out = &mut self.out;
        let words = &mut words_of(self.line.as_slice())?;
        match words.next()? {
            "encode" => answer_encode(heap, out, &Kitty, words)?,
            "frame" => answer_encode(heap, out, &Frames, words)?,
            "request" => answer_request(heap, out, &mut self.requests, words)?,
            "open" => return Ok(Some(Next::Opening(read_opening(heap, words)?))),
            verb if is_call(verb) => return Ok(Some(Next::Call)),
            verb => answer_other(heap, out, verb, words)?,
        }
        Ok(None)
    }

    // A refusal for an answer; where none can be written, the fault goes on.
    fn refuse(&mut self, refusal: Refusal) -> io::Result<()> {
        match refusal {
            Refusal::Output(fault) => Err(fault),
            _ => writeln!(self.out, "{refusal}"),
        }
    }

    // Answers lines up to one that is for the seat, or opens one.
    // The same for every seat: lines such as `encode` come by the million, and their loop is one function.
    fn next(&mut self) -> io::Result<Next> {
        // The bound is one that no input reaches.
        for _ in 0..u64::MAX {
            self.line.clear();
            if self.input.read_until(b'\n', &mut self.line)? == 0 {
                break;
            }
            match self.answer() {
                Ok(None) => self.out.write_all(b"\n")?,
                Ok(Some(next)) => return Ok(next),
                Err(refusal) => self.refuse(refusal)?,
            }
        }
        Ok(Next::End)
    }

    fn call<W: Wire, L: Layout, D: Dialect>(
        &mut self,
        seat: &mut Option<Seat<W, L, D>>,
    ) -> Result<(), Refusal> {
        let words = &mut words_of(self.line.as_slice())?;
        let seat = seat.as_mut().ok_or(Bad::Seat)?;
        answer_call(self.heap, &mut self.out, seat, words)
    }
}

// Answers lines until one opens another seat, or the input ends.
pub(crate) fn serve<I: BufRead, O: Write, W: Wire + Drop, L: Layout + Drop, D: Dialect + Drop>(
    session: &mut Session<I, O>,
    seat: Option<Seat<W, L, D>>,
) -> io::Result<Option<Opening>> {
    let mut seat = seat;
    // The bound is one that no input reaches.
    for _ in 0..u64::MAX {
        match session.next()? {
            Next::Call => match session.call(&mut seat) {
                Ok(()) => session.out.write_all(b"\n")?,
                Err(refusal) => session.refuse(refusal)?,
            },
            Next::Opening(opening) => {
                session.out.write_all(b"ok\n")?;
                return Ok(Some(opening));
            }
            Next::End => break,
        }
    }
    Ok(None)
}
