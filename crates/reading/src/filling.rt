// Puts the text of a report to the front of the caller's row.
ghost use Rattle.std.specs.Prelude.{◌≡◌, IfErr};
ghost use Rattle.std.specs.Result.{is_ok};
ghost use Rattle.reading.specs.declared.faults.ReadFault.TheVariants.{Narrow};
ghost use Rattle.report.specs.Meanings.{characters, means};
ghost use Rattle.reading.specs.Reading.{text_of};
ghost use Rattle.reading.specs.Filling.{Filled, Stores};

use crate::faults::ReadFault;
use pieces::found::{Fault, Seen};
use report::report::Report;
use report::text::Text;

fn put_codes(codes: &Text, row: &mut [u32]) -> Result<(), ReadFault>
    ensures filled { Filled (characters codes.now) row.old row.new (is_ok result) }
    ensures fault { IfErr result (λ e. e ≡ Narrow) }
{
    let codes = codes.as_slice();
    if row.len() < codes.len() {
        return Err(ReadFault::Narrow);
    }
    // By the index: where `iter_mut().zip(..)` writes the row, an invariant has no name for what it holds by then.
    for (i, c) in codes.iter().enumerate() {
        row[i] = *c as u32;
    }
    Ok(())
}

// Puts the text where it fits; if not, nothing is put.
fn put_text(report: &Report, row: &mut [u32]) -> Result<(), ReadFault>
    ensures filled { Filled (text_of (means report.now)) row.old row.new (is_ok result) }
    ensures fault { IfErr result (λ e. e ≡ Narrow) }
{
    match report {
        Report::Sequence(s) => put_codes(&s.text, row),
        Report::Text(_) | Report::Old(_) | Report::Answer(_) => Ok(()),
    }
}

// What was found, where its text has room.
pub fn fill(found: Result<Seen, Fault>, text: &mut [u32]) -> Result<Seen, ReadFault>
    ensures { Stores found text.old text.new result }
{
    let seen = found?;
    put_text(&seen.report, text)?;
    Ok(seen)
}
