// What every sequence of an event bears.
ghost use Rattle.std.specs.Prelude.{◌≤◌};

use report::ending::Direction;
use report::letters::Letters;

#[derive(Clone, Copy)]
pub struct Stroke<'a> {
    pub sum: u8,
    pub direction: Direction,
    pub letters: Letters<'a>,
    ghost sum_fits: { sum ≤ 255 },
}
