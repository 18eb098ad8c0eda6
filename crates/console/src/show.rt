// What is printed of a sitting: a line for each line of the script, and what drained bytes read back as.
use crate::lines::{Outcome, Sitting, Step};
use crate::wrong::Wrong;
use reading::faults::ReadFault;
use reading::reader::Reader;
use report::report::Report;
use report::sequence::Sequence;
use request::Request;
use script::Call;
use seat::refusal::Refusal;
use std::io;
use std::io::Write;

// The bytes that drains handed over, those told so far, and those read back so far.
#[derive(Clone, Copy)]
struct Drained<'a> {
    bytes: &'a [u8],
    told: usize,
    read: usize,
}

impl<'a> Drained<'a> {
    // The bytes of the next drain.
    fn next(&mut self, count: usize) -> &'a [u8] {
        let from = self.told;
        self.told = from.saturating_add(count);
        self.bytes.get(from..self.told).unwrap_or(&[])
    }

    // The bytes of all drains so far that are not read back.
    fn unread(&self) -> &'a [u8] {
        self.bytes.get(self.read..self.told).unwrap_or(&[])
    }
}

fn hex<W: Write>(out: &mut W, bytes: &[u8]) -> io::Result<()> {
    for b in bytes {
        write!(out, " {b:02x}")?;
    }
    Ok(())
}

// Escape by its name, other control codes in hex, the rest as text.
fn readable<W: Write>(out: &mut W, text: &str) -> io::Result<()> {
    for c in text.chars() {
        match c {
            '\u{1b}' => write!(out, "ESC")?,
            '\0'..='\u{1f}' | '\u{7f}' => write!(out, "<{:02x}>", c as u32)?,
            _ => write!(out, "{c}")?,
        }
    }
    Ok(())
}

fn sequence<W: Write>(out: &mut W, s: &Sequence, text: &[u32]) -> io::Result<()> {
    write!(
        out,
        "key {} {}, sum {}, {}",
        s.number, s.last, s.sum, s.direction
    )?;
    if let Some(code) = s.shifted {
        write!(out, ", shifted {code}")?;
    }
    if let Some(code) = s.base {
        write!(out, ", base {code}")?;
    }
    if !text.is_empty() {
        write!(out, ", text")?;
    }
    for c in text {
        write!(out, " {c}")?;
    }
    Ok(())
}

// With the text as the reader put it into its row.
fn report<W: Write>(out: &mut W, report: &Report, row: &[u32; 32]) -> io::Result<()> {
    write!(out, "\n  reads ")?;
    match report {
        Report::Text(c) | Report::Old(c) => write!(out, "text {}", c.code() as u32),
        Report::Answer(flags) => write!(out, "answer {}", flags.bits()),
        Report::Sequence(s) => sequence(out, s, &row[..s.text.as_slice().len()]),
    }
}

// Tells the clear reports that begin the bytes, and answers how many bytes are done with. Bytes that only begin a
// report wait for the next drain; where no report begins, what is there is left out.
fn read_back<W: Write, R: Reader>(out: &mut W, reader: &R, bytes: &[u8]) -> io::Result<usize> {
    let mut done = 0usize;
    let mut row = [0; 32];
    for _ in 0..bytes.len() {
        let given = bytes.get(done..).unwrap_or(&[]);
        if given.is_empty() {
            break;
        }
        match reader.read(given, &mut row) {
            Ok(seen) => {
                report(out, &seen.report, &row)?;
                done = done.saturating_add(seen.length);
            }
            Err(ReadFault::Short) => break,
            Err(fault) => {
                write!(out, "\n  refused {}, no report begins so", fault.number())?;
                done = bytes.len();
            }
        }
    }
    Ok(done)
}

fn drain<W: Write, R: Reader>(
    out: &mut W,
    reader: Option<&R>,
    drained: &mut Drained,
    count: usize,
) -> io::Result<()> {
    let bytes = drained.next(count);
    if bytes.is_empty() {
        return write!(out, " nothing waits");
    }
    hex(out, bytes)?;
    if let Ok(text) = std::str::from_utf8(bytes) {
        write!(out, "  ")?;
        readable(out, text)?;
    }
    if let Some(reader) = reader {
        let done = read_back(out, reader, drained.unread())?;
        drained.read = drained.read.saturating_add(done);
    }
    Ok(())
}

fn count<W: Write>(out: &mut W, count: usize) -> io::Result<()> {
    match count {
        0 => write!(out, " silent"),
        1 => write!(out, " 1 byte"),
        n => write!(out, " {n} bytes"),
    }
}

fn refused<W: Write>(out: &mut W, refusal: Refusal) -> io::Result<()> {
    let number = refusal.number();
    let place = refusal.place();
    write!(out, " refused {number} at {place}, {refusal}")
}

fn answer<W: Write, R: Reader>(
    out: &mut W,
    reader: Option<&R>,
    drained: &mut Drained,
    call: &Call,
    answer: Result<usize, Refusal>,
) -> io::Result<()> {
    match (answer, call) {
        (Err(refusal), _) => refused(out, refusal),
        (Ok(n), Call::Key(_) | Call::Query) => count(out, n),
        (Ok(n), Call::Drain(_)) => drain(out, reader, drained, n),
        (Ok(_), Call::Push(_) | Call::Pop(_) | Call::Set(_, _) | Call::Screen(_)) => write!(
            out,
            " ok"
        ),
    }
}

fn request<W: Write>(out: &mut W, request: Request) -> io::Result<()> {
    match request {
        Request::Push(flags) => write!(out, " push {flags}:"),
        Request::Pop(count) => write!(out, " pop {count}:"),
        Request::Set(flags, mode) => write!(out, " set {flags} {mode}:"),
        Request::Query => write!(out, " query:"),
    }
}

fn wrong<W: Write>(out: &mut W, wrong: Wrong) -> io::Result<()> {
    let place = wrong.place;
    let why = wrong.why;
    write!(out, " wrong at {place}, {why}")
}

// The number and the words of the line; for one more thing that it came to, a mark.
fn lead<W: Write>(out: &mut W, step: &Step, last: usize) -> io::Result<()> {
    if step.line == last {
        return write!(out, ";");
    }
    if last > 0 {
        out.write_all(b"\n")?;
    }
    write!(out, "{} {}:", step.line, step.text)
}

pub(crate) fn sitting<W: Write, R: Reader>(
    out: &mut W,
    reader: Option<&R>,
    sitting: &Sitting,
    answers: &[Result<usize, Refusal>],
    bytes: &[u8],
) -> io::Result<()> {
    let mut drained = Drained {
        bytes,
        told: 0,
        read: 0,
    };
    let mut made = sitting.calls.iter().zip(answers);
    let mut last = 0;
    for step in &sitting.steps {
        lead(out, step, last)?;
        last = step.line;
        match step.outcome {
            Outcome::Opened => write!(out, " ok")?,
            Outcome::Unfinished => write!(out, " nothing ended")?,
            Outcome::Misfit => write!(out, " refused 12 at 0, the byte goes on with no request")?,
            Outcome::Wrong(fault) => wrong(out, fault)?,
            Outcome::Called => {}
            Outcome::Requested(asked) => request(out, asked)?,
        }
        if let Outcome::Called | Outcome::Requested(_) = step.outcome {
            if let Some((call, given)) = made.next() {
                answer(out, reader, &mut drained, call, *given)?;
            }
        }
    }
    if last > 0 {
        out.write_all(b"\n")?;
    }
    Ok(())
}
