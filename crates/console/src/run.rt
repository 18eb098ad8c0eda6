// Runs a script: each opening begins a seat, and the lines after it are its calls.
ghost use Rattle.std.specs.Prelude.{◌≤◌, length, IfOk};

use crate::lines::{Bases, Opening, Sitting, Wiring, Writing, line_in};
use crate::show;
use dialect::kitty::Kitty;
use frames::frames::Frames;
use layout::Layout;
use layout::bare::Bare;
use layout::us::Us;
use request::Reader;
use script::{Call, replay};
use seat::refusal::Refusal;
use std::alloc::{AllocError, Global};
use std::io;
use std::io::Write;
use wire::Wire;
use wire::page::Page;
use wire::ring::Ring;

#[derive(Clone, Copy)]
pub struct Options {
    // Every seat writes frames, whatever its opening says.
    pub frames: bool,
    // Drained bytes are read back.
    pub read: bool,
}

impl Options {
    fn opening(self, asked: Opening) -> Opening {
        let dialect = if self.frames {
            Writing::Frames
        } else {
            asked.dialect
        };
        Opening { dialect, ..asked }
    }
}

// At most 512 bytes for each call that puts any, so that no drain wants for room.
fn room_for(calls: &[Call]) -> usize {
    let telling = calls
        .iter()
        .filter(|call| matches!(call, Call::Key(_) | Call::Query))
        .count();
    telling.saturating_mul(512)
}

// Makes the calls over a fresh seat, and answers how many bytes they drained.
fn over_dialect<V: Wire + Drop, L: Layout + Drop>(
    dialect: Writing,
    wire: V,
    layout: L,
    calls: &[Call],
    answers: &mut [Result<usize, Refusal>],
    bytes: &mut [u8],
) -> usize
    ensures { result ≤ length bytes.new }
{
    match dialect {
        Writing::Kitty => replay(wire, layout, Kitty, calls, answers, bytes).drained,
        Writing::Frames => replay(wire, layout, Frames, calls, answers, bytes).drained,
    }
}

fn over_layout<V: Wire + Drop>(
    opening: Opening,
    wire: V,
    calls: &[Call],
    answers: &mut [Result<usize, Refusal>],
    bytes: &mut [u8],
) -> usize
    ensures { result ≤ length bytes.new }
{
    match opening.layout {
        Bases::Us => over_dialect(opening.dialect, wire, Us, calls, answers, bytes),
        Bases::Bare => over_dialect(opening.dialect, wire, Bare, calls, answers, bytes),
    }
}

fn over_wire(
    heap: Global,
    opening: Opening,
    calls: &[Call],
    answers: &mut [Result<usize, Refusal>],
    bytes: &mut [u8],
) -> Result<usize, AllocError>
    ensures { IfOk result (λ n. n ≤ length bytes.new) }
{
    match opening.wire {
        Wiring::Ring => Ok(over_layout(opening, Ring::new(), calls, answers, bytes)),
        Wiring::Page(size) => {
            let mut buffer = vec![in heap; 0; size]?;
            let page = Page::new(buffer.as_mut_slice());
            Ok(over_layout(opening, page, calls, answers, bytes))
        }
    }
}

// Makes the calls of a sitting, and tells of each line.
fn finish<W: Write>(heap: Global, out: &mut W, read: bool, sitting: &Sitting) -> io::Result<()> {
    let Some(opening) = sitting.opening else {
        // Nothing was asked of a seat: each step tells what was wrong with its line.
        return show::sitting(out, None::<&Kitty>, sitting, &[], &[]);
    };
    let calls = sitting.calls.as_slice();
    let mut answers = vec![in heap; Ok(0); calls.len()]?;
    let mut bytes = vec![in heap; 0; room_for(calls)]?;
    let count = over_wire(
        heap,
        opening,
        calls,
        answers.as_mut_slice(),
        bytes.as_mut_slice(),
    )?;
    let drained = &bytes.as_slice()[..count];
    match opening.dialect {
        Writing::Kitty => show::sitting(
            out,
            read.then_some(&Kitty),
            sitting,
            answers.as_slice(),
            drained,
        ),
        Writing::Frames => show::sitting(
            out,
            read.then_some(&Frames),
            sitting,
            answers.as_slice(),
            drained,
        ),
    }
}

pub(crate) fn run<W: Write>(
    heap: Global,
    out: &mut W,
    options: Options,
    script: &[u8],
) -> io::Result<()> {
    let mut sitting = Sitting::new(heap);
    let mut requests = Reader::new();
    for (i, bytes) in script.split(|b| *b == b'\n').enumerate() {
        let number = i.saturating_add(1);
        let line = match std::str::from_utf8(bytes) {
            Ok(line) => line.trim_end(),
            Err(fault) => {
                sitting.torn(number, fault.valid_up_to())?;
                continue;
            }
        };
        let asked = line_in(heap, line);
        if let Some(opening) = sitting.line(heap, &mut requests, number, line, asked)? {
            finish(heap, out, options.read, &sitting)?;
            sitting = Sitting::opened(heap, number, line, options.opening(opening))?;
            requests = Reader::new();
        }
    }
    finish(heap, out, options.read, &sitting)
}
