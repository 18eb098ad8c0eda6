// The ways to make a report, and that every report is valid by its type.
ghost use Rattle.std.specs.Prelude.{◌≡◌, false, MatchOption, MatchResult};
ghost use Rattle.report.specs.Sound.{bare, coded, fits, suits};
ghost use Rattle.report.specs.Meanings.{AllValid, characters, fields, means, text as plainly, old as escaped};
ghost use Rattle.report.specs.Made.{parted};

use crate::ending::{Direction, Last};
use crate::report::Report;
use crate::scalar::Scalar;
use crate::sequence::Sequence;
use crate::text::Text;

// Every value of `Report` is a report that there is.
pub fn reports_valid()
    ensures { AllValid }
{}

pub fn plain_text(c: char) -> Report
    ensures { means result ≡ plainly c }
{
    Report::Text(Scalar::new(c))
}

pub fn after_escape(c: char) -> Report
    ensures { means result ≡ escaped c }
{
    Report::Old(Scalar::new(c))
}

// What a sequence would consist of: some such parts make none. Its fields stand again in `Sequence`: as one
// field there, each reader of a sequence would name it too.
#[derive(Clone, Copy)]
pub struct Parts {
    pub number: u32,
    pub shifted: Option<u32>,
    pub base: Option<u32>,
    pub sum: u8,
    pub direction: Direction,
    pub last: Last,
    pub text: Text,
}

// The parts make no sequence.
#[derive(Clone, Copy, Debug, PartialEq, Eq)]
pub struct NoSequence;

fn is_code(code: Option<u32>) -> bool
    ensures { result ≡ coded code }
{
    code.is_none_or(|n| n <= 1114111)
}

impl Parts {
    fn is_bare(&self) -> bool
        ensures { result ≡ bare self.now.shifted self.now.base self.now.text.count }
    {
        self.shifted.is_none() && self.base.is_none() && self.text.as_slice().is_empty()
    }

    fn is_suited(&self) -> bool
        ensures { result ≡ suits self.now.last self.now.number self.now.shifted self.now.base self.now.text.count }
    {
        match self.last {
            Last::U => true,
            Last::Tilde => self.is_bare(),
            _ => self.is_bare() && self.number == 1,
        }
    }
}

impl TryFrom<Parts> for Sequence {
    type Error = NoSequence;

    ghost try_from_gives = { λ p r. MatchResult r (λ s. fields s ≡ parted p.number p.shifted p.base p.sum p.direction p.last (characters p.text)) (λ _. fits p.last p.number p.shifted p.base p.text.count ≡ false) };

    fn try_from(parts: Parts) -> Result<Sequence, NoSequence> {
        if parts.number > 1114111
            || !is_code(parts.shifted)
            || !is_code(parts.base)
            || !parts.is_suited()
        {
            return Err(NoSequence);
        }
        let Parts {
            number,
            shifted,
            base,
            sum,
            direction,
            last,
            text,
        } = parts;
        Ok(Sequence {
            number,
            shifted,
            base,
            sum,
            direction,
            last,
            text,
        })
    }
}

// The sequence with these parts, where there is one: the conversion above, for a caller with the numbers alone.
pub fn sequence_of(
    number: u32,
    shifted: Option<u32>,
    base: Option<u32>,
    sum: u8,
    direction: Direction,
    last: Last,
    text: Text,
) -> Option<Sequence>
    ensures { MatchOption result (fits last number shifted base text.count ≡ false) (λ s. fields s ≡ parted number shifted base sum direction last (characters text)) }
{
    Sequence::try_from(Parts {
        number,
        shifted,
        base,
        sum,
        direction,
        last,
        text,
    })
    .ok()
}
