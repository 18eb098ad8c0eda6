// Opening a seat: the words that choose its parts.
use crate::refusal::Bad;
use crate::session::{Session, serve};
use crate::words::{Words, read_number};
use dialect::dialect::Dialect;
use dialect::kitty::Kitty;
use frames::frames::Frames;
use layout::Layout;
use layout::bare::Bare;
use layout::us::Us;
use seat::seat::Seat;
use std::alloc::Global;
use std::io;
use std::io::{BufRead, Write};
use wire::Wire;
use wire::page::Page;
use wire::ring::Ring;

// The longest page that a line may ask for.
const MOST: usize = 1048576;

#[derive(Drop)]
enum WireWord {
    Ring,
    // Its bytes, taken before the seat of before is let go.
    Page(Vec<u8>),
}

#[derive(Clone, Copy)]
enum DialectWord {
    Kitty,
    Frame,
}

#[derive(Clone, Copy)]
enum LayoutWord {
    Us,
    Bare,
}

#[derive(Drop)]
pub struct Opening {
    wire: WireWord,
    dialect: DialectWord,
    layout: LayoutWord,
}

fn read_dialect(word: &str) -> Result<DialectWord, Bad> {
    match word {
        "kitty" => Ok(DialectWord::Kitty),
        "frame" => Ok(DialectWord::Frame),
        _ => Err(Bad::Words),
    }
}

fn read_layout(word: &str) -> Result<LayoutWord, Bad> {
    match word {
        "us" => Ok(LayoutWord::Us),
        "bare" => Ok(LayoutWord::Bare),
        _ => Err(Bad::Words),
    }
}

fn read_wire(heap: Global, word: &str) -> Result<WireWord, Bad> {
    if word == "ring" {
        return Ok(WireWord::Ring);
    }
    let size = read_number(word.strip_prefix("page:").ok_or(Bad::Words)?)?;
    if size > MOST {
        return Err(Bad::Number);
    }
    let bytes = vec![in heap; 0u8; size].map_err(|_| Bad::Memory)?;
    Ok(WireWord::Page(bytes))
}

// A page is taken last, when the other words are known.
pub(crate) fn read_opening(heap: Global, words: &mut Words) -> Result<Opening, Bad> {
    let wire = words.next()?;
    let dialect = words.next()?;
    let layout = words.last()?;
    let dialect = read_dialect(dialect)?;
    let layout = read_layout(layout)?;
    Ok(Opening {
        wire: read_wire(heap, wire)?,
        dialect,
        layout,
    })
}

// This and the two functions below choose a part of the seat each.
impl Opening {
    // Opens the seat, and answers lines with it.
    pub(crate) fn serve<I: BufRead, O: Write>(
        self,
        session: &mut Session<I, O>,
    ) -> io::Result<Option<Opening>> {
        let (dialect, layout) = (self.dialect, self.layout);
        match self.wire {
            WireWord::Ring => with_wire(session, Ring::new(), dialect, layout),
            WireWord::Page(mut bytes) => {
                with_wire(session, Page::new(bytes.as_mut_slice()), dialect, layout)
            }
        }
    }
}

fn with_wire<I: BufRead, O: Write, W: Wire + Drop>(
    session: &mut Session<I, O>,
    wire: W,
    dialect: DialectWord,
    layout: LayoutWord,
) -> io::Result<Option<Opening>> {
    match layout {
        LayoutWord::Us => with_layout(session, wire, Us, dialect),
        LayoutWord::Bare => with_layout(session, wire, Bare, dialect),
    }
}

fn with_layout<I: BufRead, O: Write, W: Wire + Drop, L: Layout + Drop>(
    session: &mut Session<I, O>,
    wire: W,
    layout: L,
    dialect: DialectWord,
) -> io::Result<Option<Opening>> {
    match dialect {
        DialectWord::Kitty => serve(session, Some(Seat::open(wire, layout, Kitty))),
        DialectWord::Frame => serve(session, Some(Seat::open(wire, layout, Frames))),
    }
}
