// What the parts of a reader of sequences pass on.
ghost use Rattle.std.specs.Prelude.{◌≡◌, ◌≤◌, true};
ghost use Rattle.report.specs.Sound.{coded};

use report::ending::Direction;
use report::sequence::Sequence;

// A sequence and the place after it, each named by what it is.
#[derive(Clone, Copy)]
pub struct Told {
    pub sequence: Sequence,
    pub next: usize,
}

// What stands before the text of a sequence, in range before the rest is read.
// Its fields stand again in `Sequence`, whose facts need the last byte and the text, which are not read yet.
#[derive(Clone, Copy)]
pub struct Head {
    pub number: u32,
    pub shifted: Option<u32>,
    pub base: Option<u32>,
    pub sum: u8,
    pub direction: Direction,
    ghost number_fits: { number ≤ 1114111 },
    ghost shifted_fits: { coded shifted ≡ true },
    ghost base_fits: { coded base ≡ true },
    ghost sum_fits: { sum ≤ 255 },
}
