// What follows for every reader, from the law of its dialect.
ghost use Rattle.std.specs.Prelude.{◌≤◌, length};
ghost use Rattle.report.specs.Meanings.{Clear, means};
ghost use Rattle.reading.specs.Once.{OneAnswer, Returns};
ghost use Rattle.reading.specs.Reading.{Fills, text_of};

use crate::faults::ReadFault;
use crate::reader::Reader;
use dialect::dialect::Dialect;
use pieces::found::Seen;
use report::report::Report;

// Given bytes have one answer, so each answer comes exactly where its condition holds.
pub fn one_answer<D: Dialect>(d: &D)
    ensures { OneAnswer (D.bytes d.now) }
{
    let _ = d;
}

// Reads what the dialect writes: a clear report whose text has room comes back.
pub fn round_trip<R: Reader>(
    reader: &R,
    report: &Report,
    text: &mut [u32],
) -> Result<Seen, ReadFault>
    ensures reads { Fills (R.Dialect.bytes reader.now) (R.Dialect.bytes reader.now (means report.now)) text.old text.new result }
    ensures back { Clear (means report.now) → length (text_of (means report.now)) ≤ length text.old → Returns (means report.now) result }
{
    let mut row = [0; 512];
    let count = reader.write(&report.told(), &mut row);
    reader.read(&row[0..count], text)
}
