// Calls of the open seat.
use crate::event_words::with_event;
use crate::print::{put, put_bytes};
use crate::refusal::{Bad, Refusal};
use crate::words::{Words, read_number};
use dialect::dialect::Dialect;
use layout::Layout;
use seat::refusal::Refusal as Declined;
use seat::seat::Seat;
use std::alloc::Global;
use std::io;
use std::io::Write;
use wire::Wire;

// The most bytes that a line may drain.
const MOST: usize = 65536;

fn put_count<O: Write>(out: &mut O, count: usize) -> io::Result<()> {
    write!(out, "{count}")
}

fn answer_key<O: Write, W: Wire, L: Layout, D: Dialect>(
    heap: Global,
    out: &mut O,
    seat: &mut Seat<W, L, D>,
    words: &mut Words,
) -> Result<(), Refusal> {
    with_event(heap, words, |event| {
        let count = seat.key(&event)?;
        Ok(put_count(out, count)?)
    })
}

fn answer_query<O: Write, W: Wire, L: Layout, D: Dialect>(
    out: &mut O,
    seat: &mut Seat<W, L, D>,
    words: &mut Words,
) -> Result<(), Refusal> {
    words.end()?;
    let count = seat.query()?;
    Ok(put_count(out, count)?)
}

fn answer_drain<O: Write, W: Wire, L: Layout, D: Dialect>(
    heap: Global,
    out: &mut O,
    seat: &mut Seat<W, L, D>,
    words: &mut Words,
) -> Result<(), Refusal> {
    let room = read_number(words.last()?)?;
    if room > MOST {
        return Err(Bad::Number.into());
    }
    let mut buffer = vec![in heap; 0u8; room].map_err(|_| Bad::Memory)?;
    let count = seat.drain(buffer.as_mut_slice());
    buffer.truncate(count);
    write!(out, "{count} ")?;
    Ok(put_bytes(out, buffer.as_slice())?)
}

// What a call answers that tells no count.
fn put_done<O: Write>(out: &mut O, done: Result<(), Declined>) -> Result<(), Refusal> {
    done?;
    Ok(put(out, "ok")?)
}

fn answer_set<O: Write, W: Wire, L: Layout, D: Dialect>(
    out: &mut O,
    seat: &mut Seat<W, L, D>,
    words: &mut Words,
) -> Result<(), Refusal> {
    let flags = words.next()?;
    let mode = words.last()?;
    put_done(out, seat.set(read_number(flags)?, read_number(mode)?))
}

pub(crate) fn is_call(verb: &str) -> bool {
    matches!(
        verb,
        "key" | "push" | "pop" | "set" | "screen" | "query" | "drain"
    )
}

pub(crate) fn answer_call<O: Write, W: Wire, L: Layout, D: Dialect>(
    heap: Global,
    out: &mut O,
    seat: &mut Seat<W, L, D>,
    words: &mut Words,
) -> Result<(), Refusal> {
    match words.next()? {
        "key" => answer_key(heap, out, seat, words),
        "push" => put_done(out, seat.push(read_number(words.last()?)?)),
        "pop" => put_done(out, seat.pop(read_number(words.last()?)?)),
        "set" => answer_set(out, seat, words),
        "screen" => put_done(out, seat.screen(read_number(words.last()?)?)),
        "query" => answer_query(out, seat, words),
        "drain" => answer_drain(heap, out, seat, words),
        _ => Err(Bad::Verb.into()),
    }
}
