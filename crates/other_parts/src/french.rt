// The letters and the digits of a French keyboard, whose digits come with Shift.
ghost use Rattle.std.specs.Prelude.{◌≡◌};
ghost use Rattle.other_parts.specs.Unshifted.{base_of};
ghost use Rattle.other_parts.specs.Bases;

use layout::Layout;

#[derive(Clone, Copy, Debug, PartialEq, Eq)]
pub struct French;

impl Layout for French {
    ghost base = { λ _ c. base_of c };

    ghost settled = { λ _ c. Bases.rests c };

    ghost kept = { λ _ c h. Bases.kept c h };

    fn base_of(&self, c: char) -> char {
        match c {
            '1' => '&',
            '2' => 'é',
            '3' => '"',
            '4' => '\'',
            '5' => '(',
            '6' => '-',
            '7' => 'è',
            '8' => '_',
            '9' => 'ç',
            '0' => 'à',
            c => c.to_ascii_lowercase(),
        }
    }
}
