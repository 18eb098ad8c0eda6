// Queries on reports: their bytes in a dialect, and what a reader reads.
use crate::print::{put, put_bytes, put_char, put_optional};
use crate::refusal::{Bad, Refusal};
use crate::words::{Words, optional, read_bits, read_bytes, read_char, read_number};
use dialect::dialect::Dialect;
use input_types::flags::KittyKeyboardFlags;
use pieces::found::Seen;
use reading::reader::Reader;
use report::ending::{Direction, Last};
use report::making::{Parts, after_escape, plain_text};
use report::report::Report;
use report::sequence::Sequence;
use report::text::Text;
use std::alloc::Global;
use std::io;
use std::io::Write;

pub(crate) fn flags_in(word: &str) -> Result<KittyKeyboardFlags, Bad> {
    KittyKeyboardFlags::from_bits(read_bits(word)?).ok_or(Bad::Bits)
}

// Read here: the direction's own crate writes these words and reads none.
fn direction_in(word: &str) -> Result<Direction, Bad> {
    match word {
        "press" => Ok(Direction::Press),
        "release" => Ok(Direction::Release),
        _ => Err(Bad::Direction),
    }
}

fn last_in(word: &str) -> Result<Last, Bad> {
    match word.as_bytes() {
        [byte] => Last::try_from(*byte).map_err(|_| Bad::Report),
        _ => Err(Bad::Report),
    }
}

fn push_code(text: &mut Text, word: &str) -> Result<(), Bad> {
    let c = char::from_u32(read_number(word)?).ok_or(Bad::Report)?;
    if text.push(c) {
        Ok(())
    } else {
        Err(Bad::Report)
    }
}

// Codes in decimal with colons between.
fn text_in(word: &str) -> Result<Text, Bad> {
    let mut text = Text::none();
    if word == "-" {
        return Ok(text);
    }
    for code in word.split(':') {
        push_code(&mut text, code)?;
    }
    Ok(text)
}

fn sequence_in(words: &mut Words) -> Result<Sequence, Bad> {
    let number = words.next()?;
    let shifted = words.next()?;
    let base = words.next()?;
    let sum = words.next()?;
    let direction = words.next()?;
    let last = words.next()?;
    let parts = Parts {
        number: read_number(number)?,
        shifted: optional(shifted, read_number)?,
        base: optional(base, read_number)?,
        sum: read_number(sum)?,
        direction: direction_in(direction)?,
        last: last_in(last)?,
        text: text_in(words.last()?)?,
    };
    Sequence::try_from(parts).map_err(|_| Bad::Report)
}

fn report_in(words: &mut Words) -> Result<Report, Bad> {
    match words.next()? {
        "text" => Ok(plain_text(read_char(words.last()?)?)),
        "old" => Ok(after_escape(read_char(words.last()?)?)),
        "answer" => Ok(Report::Answer(flags_in(words.last()?)?)),
        "seq" => Ok(Report::Sequence(sequence_in(words)?)),
        _ => Err(Bad::Report),
    }
}

pub(crate) fn answer_write<W: Write, D: Dialect>(
    out: &mut W,
    dialect: &D,
    words: &mut Words,
) -> Result<(), Refusal> {
    let report = report_in(words)?;
    let mut row = [0u8; 512];
    let count = dialect.write(&report.told(), &mut row);
    Ok(put_bytes(out, &row[0..count])?)
}

// The text as the reader put it into the lent buffer.
fn put_text<W: Write>(out: &mut W, codes: &[u32]) -> io::Result<()> {
    if codes.is_empty() {
        return put(out, "-");
    }
    let mut mark = "";
    for code in codes {
        write!(out, "{mark}{code}")?;
        mark = ":";
    }
    Ok(())
}

// The row goes beside the report, here and below: its text is told as the reader stored it.
fn put_sequence<W: Write>(out: &mut W, s: &Sequence, row: &[u32]) -> io::Result<()> {
    write!(out, "seq {} ", s.number)?;
    put_optional(out, s.shifted, "-", |out, code| write!(out, "{code}"))?;
    put(out, " ")?;
    put_optional(out, s.base, "-", |out, code| write!(out, "{code}"))?;
    write!(out, " {} {} {} ", s.sum, s.direction, s.last)?;
    let count = s.text.as_slice().len().min(row.len());
    put_text(out, &row[0..count])
}

fn put_report<W: Write>(out: &mut W, report: &Report, row: &[u32]) -> io::Result<()> {
    match report {
        Report::Text(c) => {
            put(out, "text ")?;
            put_char(out, c.code())
        }
        Report::Old(c) => {
            put(out, "old ")?;
            put_char(out, c.code())
        }
        Report::Answer(flags) => write!(out, "answer {}", flags.bits()),
        Report::Sequence(s) => put_sequence(out, s, row),
    }
}

fn put_seen<W: Write>(out: &mut W, seen: &Seen, row: &[u32]) -> io::Result<()> {
    write!(out, "ok {} ", seen.length)?;
    put_report(out, &seen.report, row)
}

pub(crate) fn answer_read<W: Write, R: Reader>(
    heap: Global,
    out: &mut W,
    reader: &R,
    words: &mut Words,
) -> Result<(), Refusal> {
    let bytes = read_bytes(heap, words.next()?)?;
    let room = read_number::<u32>(words.last()?)? as usize;
    let mut row = [0u32; 64];
    let text = &mut row[0..room.min(64)];
    let seen = reader.read(bytes.as_slice(), text)?;
    Ok(put_seen(out, &seen, text)?)
}
