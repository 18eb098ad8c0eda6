// The readers of both dialects.
ghost use Rattle.std.specs.Prelude.{◌≡◌};
ghost use Rattle.report.specs.Meanings.{means};
ghost use Rattle.frames.specs.Framing.{or_none};
ghost use Rattle.seat_c.specs.Reports.{bare, report_numbers, Reads};

use reading::reader::Reader;
use report::report::Report;
use seat_state::answer::{Answer, NO_NUMBER};
use seat_state::known::AnyDialect;

// A code that is absent.
const ABSENT: u32 = 0xffff_ffff;

// A report: 1 a text, 2 a sequence, 3 an answer, 4 a character after ESC. The number is the character, the key's number
// or the flags; what only a sequence has is absent or 0 in the others. `text` is how many characters go along.
#[repr(C)]
#[derive(Clone, Copy, Debug, PartialEq, Eq)]
pub struct ReportNumbers {
    pub kind: u32,
    pub number: u32,
    pub shifted: u32,
    pub base: u32,
    pub sum: u32,
    pub direction: u32,
    pub last: u32,
    pub text: u32,
}

fn bare(kind: u32, number: u32) -> ReportNumbers
    ensures { result ≡ bare kind number }
{
    ReportNumbers {
        kind,
        number,
        shifted: ABSENT,
        base: ABSENT,
        sum: 0,
        direction: 0,
        last: 0,
        text: 0,
    }
}

fn or_absent(code: Option<u32>) -> u32
    ensures { result ≡ or_none code }
{
    code.unwrap_or(ABSENT)
}

fn report_numbers(report: &Report) -> ReportNumbers
    ensures { result ≡ report_numbers (means report.now) }
{
    match report {
        Report::Text(c) => bare(1, c.code() as u32),
        Report::Sequence(s) => ReportNumbers {
            kind: 2,
            number: s.number,
            shifted: or_absent(s.shifted),
            base: or_absent(s.base),
            sum: u32::from(s.sum),
            direction: u32::from(u8::from(s.direction)),
            last: u32::from(u8::from(s.last)),
            text: s.text.as_slice().len() as u32,
        },
        Report::Answer(flags) => bare(3, u32::from(flags.bits())),
        Report::Old(c) => bare(4, c.code() as u32),
    }
}

// Reads the first clear report of the given bytes, and answers how many bytes it took. Its text goes to the front of
// `text`, whose rest stays.
#[unsafe(no_mangle)]
pub extern "C" fn seat_read(
    dialect: u32,
    given: &[u8],
    text: &mut [u32],
    report: &mut ReportNumbers,
) -> Answer
    ensures { Reads dialect given.now text.old report.old result text.new report.new }
{
    let Ok(dialect) = AnyDialect::try_from(dialect) else {
        return Answer::refused(NO_NUMBER);
    };
    match dialect.read(given, text) {
        Ok(seen) => {
            *report = report_numbers(&seen.report);
            Answer::done(seen.length)
        }
        Err(fault) => Answer::refused(usize::from(fault.number())),
    }
}
