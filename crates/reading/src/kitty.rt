// Reads a clear report of the kitty dialect.
ghost use Rattle.std.specs.Prelude.{◌≡◌, length};
ghost use Rattle.report.specs.Meanings.{fields};
ghost use Rattle.dialect.specs.KittyBytes.{kitty_bytes};
ghost use Rattle.reading.specs.Kitty.{AtFlags, short_form};
ghost use Rattle.pieces.specs.Reports.{Spoken, Sees};

use crate::faults::ReadFault;
use crate::filling::fill;
use crate::reader::Reader;
use dialect::kitty::Kitty;
use input_types::flags::KittyKeyboardFlags;
use pieces::digits::digits;
use pieces::found::{Fault, Range, Seen};
use pieces::letters::read_letter;
use report::ending::{Direction, Last};
use report::report::Report;
use report::scalar::Scalar;
use report::sequence::Sequence;
use report::text::Text;
use sequences::sequences::read_parts;

// The sequence with the short form, ESC [ E.
fn short_form() -> Sequence
    ensures { fields result ≡ short_form }
{
    Sequence {
        number: 1,
        shifted: None,
        base: None,
        sum: 0,
        direction: Direction::Press,
        last: Last::Begin,
        text: Text::none(),
    }
}

// The flags of an answer, after ESC [ ?.
// The bytes and a place, as `digits` takes them, with no struct to take apart again.
fn read_flags(bytes: &[u8], at: usize) -> Result<Seen, Fault>
    ensures { Sees AtFlags bytes.now at result }
{
    let e = digits(bytes, at, Range::Flags)?;
    let Some(n) = e.value else {
        return Err(Fault::Unknown);
    };
    if e.mark != b'u' {
        return Err(Fault::Unknown);
    }
    let flags = KittyKeyboardFlags::from_bits(n as u16).ok_or(Fault::Unknown)?;
    Ok(Seen {
        report: Report::Answer(flags),
        length: e.next,
    })
}

// The first clear report of the given bytes, and how many bytes it took.
fn find(given: &[u8]) -> Result<Seen, Fault>
    ensures { Sees (Spoken kitty_bytes) given.now 0 result }
{
    if b"\x1b[".starts_with(given) {
        return Err(Fault::Short);
    }
    if given.starts_with(b"\x1b[E") {
        return Ok(Seen {
            report: Report::Sequence(short_form()),
            length: 3,
        });
    }
    if given.starts_with(b"\x1b[?") {
        return read_flags(given, 3);
    }
    if given.starts_with(b"\x1b[") {
        let told = read_parts(given, 2)?;
        return Ok(Seen {
            report: Report::Sequence(told.sequence),
            length: told.next,
        });
    }
    let letter = read_letter(given)?;
    Ok(Seen {
        report: Report::Text(Scalar::new(letter.code)),
        length: letter.next,
    })
}

impl Reader for Kitty {
    fn read(&self, given: &[u8], text: &mut [u32]) -> Result<Seen, ReadFault> {
        fill(find(given), text)
    }
}
