// A report with its characters read where they stand: what a key tells, on its way to bytes.
ghost use Rattle.std.specs.Prelude.{◌≡◌, ◌≤◌, true, length};
ghost use Rattle.report.specs.Letters.{spelled};
ghost use Rattle.report.specs.Sound.{coded, suits};

use crate::ending::{Direction, Last};
use crate::letters::Letters;
use crate::scalar::Scalar;
use input_types::flags::KittyKeyboardFlags;

#[derive(Clone, Copy)]
pub struct ToldSequence<'a> {
    pub number: u32,
    pub shifted: Option<u32>,
    pub base: Option<u32>,
    pub sum: u8,
    pub direction: Direction,
    pub last: Last,
    pub letters: Letters<'a>,
    ghost number_fits: { number ≤ 1114111 },
    ghost shifted_fits: { coded shifted ≡ true },
    ghost base_fits: { coded base ≡ true },
    ghost sum_fits: { sum ≤ 255 },
    ghost suited: { suits last number shifted base (length (spelled letters.spelling)) ≡ true },
}

#[derive(Clone, Copy)]
pub enum Told<'a> {
    Text(Scalar),
    Old(Scalar),
    Answer(KittyKeyboardFlags),
    Sequence(ToldSequence<'a>),
}
