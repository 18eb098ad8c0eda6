// The numbers of the directions, and the bytes that end a sequence, in both dialects: the conversions of
// `report::ending`, as functions.
ghost use Rattle.std.specs.Prelude.{◌≡◌, MatchOption, ◌≢◌};
ghost use Rattle.report.specs.declared.ending.Direction.{Direction as Way};
ghost use Rattle.report.specs.declared.ending.Last.{Last as Final};
ghost use Rattle.report.specs.Endings.{direction_number, is_press, is_begin, last_byte};

use report::ending::{Direction, Last};

pub fn direction_number(direction: Direction) -> u8
    ensures { result ≡ direction_number direction }
{
    direction.into()
}

// The direction with that number, if there is one.
pub fn direction_of(number: u8) -> Option<Direction>
    ensures { MatchOption result ((d : Way) → direction_number d ≢ number) (λ d. direction_number d ≡ number) }
{
    Direction::try_from(number).ok()
}

pub fn is_press(direction: Direction) -> bool
    ensures { result ≡ is_press direction }
{
    direction == Direction::Press
}

pub fn is_begin(last: Last) -> bool
    ensures { result ≡ is_begin last }
{
    last == Last::Begin
}

pub fn last_byte(last: Last) -> u8
    ensures { result ≡ last_byte last }
{
    last.into()
}

// The end of a sequence that the byte stands for, if there is one.
pub fn last_of(byte: u8) -> Option<Last>
    ensures { MatchOption result ((l : Final) → last_byte l ≢ byte) (λ l. last_byte l ≡ byte) }
{
    Last::try_from(byte).ok()
}
