// The lines of a script, gathered into the calls of one seat after another.
use crate::keys::event_in;
use crate::words::{Word, words};
use crate::wrong::{Why, Wrong};
use request::{Reader, Request};
use script::Call;
use std::alloc::{AllocError, Global};

const LARGEST_PAGE: usize = 1048576;

#[derive(Clone, Copy)]
pub enum Wiring {
    Ring,
    Page(usize),
}

#[derive(Clone, Copy)]
pub enum Writing {
    Kitty,
    Frames,
}

#[derive(Clone, Copy)]
pub enum Bases {
    Us,
    Bare,
}

// What a seat is opened over.
#[derive(Clone, Copy)]
pub struct Opening {
    pub wire: Wiring,
    pub dialect: Writing,
    pub layout: Bases,
}

// What a line came to. A call's answer is told by the seat.
#[derive(Clone, Copy)]
pub enum Outcome {
    Opened,
    Called,
    // A request that the line ends, made of the seat as a call.
    Requested(Request),
    Misfit,
    // No request ended.
    Unfinished,
    Wrong(Wrong),
}

// A line may come to several things, if it ends several requests.
#[derive(Clone, Copy)]
pub struct Step<'a> {
    pub line: usize,
    pub text: &'a str,
    pub outcome: Outcome,
}

// What is asked of one seat, from its opening on. Lines before the first opening are asked of none.
#[derive(Drop)]
pub struct Sitting<'a> {
    pub opening: Option<Opening>,
    pub calls: Vec<Call<'a>>,
    pub steps: Vec<Step<'a>>,
}

// What a line asks for.
#[derive(Drop)]
pub enum Asked<'a> {
    Nothing,
    Open(Opening),
    Call(Call<'a>),
    // Bytes of requests, with ESC as it is written.
    Request(&'a str),
}

fn wire_in(word: Word) -> Result<Wiring, Wrong> {
    match (word.text, word.halves()) {
        ("ring", _) => Ok(Wiring::Ring),
        (_, Some(("page", size))) => match size.number()? {
            n @ 0..=LARGEST_PAGE => Ok(Wiring::Page(n)),
            _ => Err(size.wrong(Why::LargePage)),
        },
        _ => Err(word.wrong(Why::Unknown)),
    }
}

fn dialect_in(word: Word) -> Result<Writing, Wrong> {
    match word.text {
        "kitty" => Ok(Writing::Kitty),
        "frame" => Ok(Writing::Frames),
        _ => Err(word.wrong(Why::Unknown)),
    }
}

fn layout_in(word: Word) -> Result<Bases, Wrong> {
    match word.text {
        "us" => Ok(Bases::Us),
        "bare" => Ok(Bases::Bare),
        _ => Err(word.wrong(Why::Unknown)),
    }
}

fn verb_in<'a>(verb: Word<'a>, rest: &[Word<'a>]) -> Result<Asked<'a>, Wrong> {
    let call = match (verb.text, rest) {
        ("open", [wire, dialect, layout]) => {
            return Ok(Asked::Open(Opening {
                wire: wire_in(*wire)?,
                dialect: dialect_in(*dialect)?,
                layout: layout_in(*layout)?,
            }));
        }
        ("request", [bytes]) => return Ok(Asked::Request(bytes.text)),
        ("key", [key, rest @ ..]) => Call::Key(event_in(*key, rest)?),
        ("push", [flags]) => Call::Push(flags.number()?),
        ("pop", [count]) => Call::Pop(count.number()?),
        ("set", [flags, mode]) => Call::Set(flags.number()?, mode.number()?),
        ("screen", [screen]) => Call::Screen(screen.number()?),
        ("query", []) => Call::Query,
        ("drain", [room]) => Call::Drain(room.number()?),
        ("open" | "request" | "key" | "push" | "pop" | "set" | "screen" | "query" | "drain", _) =>
            return Err(verb.wrong(Why::Count)),
        _ => return Err(verb.wrong(Why::Unknown)),
    };
    Ok(Asked::Call(call))
}

// What a line asks for; an empty one, and one that begins with #, for nothing.
pub(crate) fn line_in<'a>(heap: Global, line: &'a str) -> Result<Asked<'a>, Wrong> {
    let words = words(heap, line)?;
    match words.as_slice() {
        [] => Ok(Asked::Nothing),
        [verb, ..] if verb.text.starts_with('#') => Ok(Asked::Nothing),
        [verb, rest @ ..] => verb_in(*verb, rest),
    }
}

fn call_of<'a>(request: Request) -> Call<'a> {
    match request {
        Request::Push(flags) => Call::Push(u32::from(flags)),
        Request::Pop(count) => Call::Pop(usize::from(count)),
        Request::Set(flags, mode) => Call::Set(u32::from(flags), u32::from(mode)),
        Request::Query => Call::Query,
    }
}

// What a byte ends.
fn heard(requests: &mut Reader, byte: u8) -> Option<Outcome> {
    match requests.feed(byte) {
        Ok(None) => None,
        Ok(Some(request)) => Some(Outcome::Requested(request)),
        Err(_) => Some(Outcome::Misfit),
    }
}

// What the bytes end, in which ESC stands for the byte 1b.
fn all_heard(heap: Global, requests: &mut Reader, bytes: &str) -> Result<Vec<Outcome>, AllocError> {
    let mut outcomes = Vec::new(heap);
    for (i, piece) in bytes.split("ESC").enumerate() {
        if i > 0 {
            outcomes.extend(heard(requests, 0x1b))?;
        }
        for b in piece.bytes() {
            outcomes.extend(heard(requests, b))?;
        }
    }
    Ok(outcomes)
}

impl<'a> Sitting<'a> {
    // Before the first opening.
    pub(crate) fn new(heap: Global) -> Sitting<'a> {
        Sitting {
            opening: None,
            calls: Vec::new(heap),
            steps: Vec::new(heap),
        }
    }

    pub(crate) fn opened(
        heap: Global,
        line: usize,
        text: &'a str,
        opening: Opening,
    ) -> Result<Sitting<'a>, AllocError> {
        let mut sitting = Sitting {
            opening: Some(opening),
            ..Sitting::new(heap)
        };
        sitting.step(line, text, Outcome::Opened)?;
        Ok(sitting)
    }

    fn step(&mut self, line: usize, text: &'a str, outcome: Outcome) -> Result<(), AllocError> {
        Ok(
            self.steps.push(Step {
                line,
                text,
                outcome,
            })?,
        )
    }

    fn call(
        &mut self,
        line: usize,
        text: &'a str,
        call: Call<'a>,
        outcome: Outcome,
    ) -> Result<(), AllocError> {
        self.calls.push(call)?;
        self.step(line, text, outcome)
    }

    // A request is made as a call.
    fn outcome(&mut self, line: usize, text: &'a str, outcome: Outcome) -> Result<(), AllocError> {
        match outcome {
            Outcome::Requested(request) => self.call(line, text, call_of(request), outcome),
            _ => self.step(line, text, outcome),
        }
    }

    fn request(
        &mut self,
        line: usize,
        text: &'a str,
        outcomes: &[Outcome],
    ) -> Result<(), AllocError> {
        if outcomes.is_empty() {
            return self.step(line, text, Outcome::Unfinished);
        }
        for outcome in outcomes {
            self.outcome(line, text, *outcome)?;
        }
        Ok(())
    }

    fn wrong(&mut self, line: usize, text: &'a str, wrong: Wrong) -> Result<(), AllocError> {
        self.step(line, text, Outcome::Wrong(wrong))
    }

    // A line that cannot be read as text is told without it.
    pub(crate) fn torn(&mut self, line: usize, place: usize) -> Result<(), AllocError> {
        self.wrong(
            line,
            "",
            Wrong {
                place,
                why: Why::NotText,
            },
        )
    }

    // Takes a line in, or answers what it wants opened: a seat of its own.
    pub(crate) fn line(
        &mut self,
        heap: Global,
        requests: &mut Reader,
        line: usize,
        text: &'a str,
        asked: Result<Asked<'a>, Wrong>,
    ) -> Result<Option<Opening>, AllocError> {
        match asked {
            Ok(Asked::Nothing) => {}
            Ok(Asked::Open(opening)) => return Ok(Some(opening)),
            Ok(Asked::Call(_) | Asked::Request(_)) if self.opening.is_none() => self.wrong(
                line,
                text,
                Wrong {
                    place: 0,
                    why: Why::NoSeat,
                },
            )?,
            Ok(Asked::Call(call)) => self.call(line, text, call, Outcome::Called)?,
            Ok(Asked::Request(bytes)) => {
                let outcomes = all_heard(heap, requests, bytes)?;
                self.request(line, text, outcomes.as_slice())?
            }
            Err(wrong) => self.wrong(line, text, wrong)?,
        }
        Ok(None)
    }
}
