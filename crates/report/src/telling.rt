// A report as it is told.
ghost use Rattle.std.specs.Prelude.{◌≡◌};
ghost use Rattle.report.specs.Meanings.{fields, means};
ghost use Rattle.report.specs.Telling.{told_fields, told_means, AllToldValid};

use crate::letters::{Letters, Spelling};
use crate::report::Report;
use crate::sequence::Sequence;
use crate::told::{Told, ToldSequence};

// Every value of `Told` is a report that there is.
pub fn told_valid()
    ensures { AllToldValid }
{}

impl Sequence {
    pub fn told(&self) -> ToldSequence<'_>
        ensures { told_fields result ≡ fields self.now }
    {
        ToldSequence {
            number: self.number,
            shifted: self.shifted,
            base: self.base,
            sum: self.sum,
            direction: self.direction,
            last: self.last,
            letters: Letters {
                spelling: Spelling::Row(self.text.as_slice()),
            },
        }
    }
}

impl Report {
    pub fn told(&self) -> Told<'_>
        ensures { told_means result ≡ means self.now }
    {
        match self {
            Report::Text(c) => Told::Text(*c),
            Report::Old(c) => Told::Old(*c),
            Report::Answer(flags) => Told::Answer(*flags),
            Report::Sequence(s) => Told::Sequence(s.told()),
        }
    }
}
