// Sequences in two forms: with a number and a final alone, and with all that the final u can bear.
ghost use Rattle.std.specs.Prelude.{◌≡◌, ◌≤◌, true, None as Absent};
ghost use Rattle.report.specs.Sound.{coded, suits};
ghost use Rattle.report.specs.Telling.{told_means};
ghost use Rattle.rules.specs.Strokes.{bare, full, plain_stroke};

use crate::stroke::Stroke;
use report::ending::Last;
use report::letters::Letters;
use report::told::{Told, ToldSequence};

// A number and a final, with no codes and no text. The bound of numbers is
// a premise: a sequence has plain numbers as fields, and holds the fact of them.
#[inline(always)]
pub(crate) fn bare_key<'a>(number: u32, last: Last, stroke: &Stroke) -> Told<'a>
    requires { (number ≤ 1114111) × (suits last number Absent Absent 0 ≡ true) }
    ensures { told_means result ≡ bare number last (plain_stroke stroke.now) }
{
    Told::Sequence(ToldSequence {
        number,
        shifted: None,
        base: None,
        sum: stroke.sum,
        direction: stroke.direction,
        last,
        letters: Letters::none(),
    })
}

// The final u, with all that it can bear.
#[inline(always)]
pub(crate) fn full_key<'a>(
    number: u32,
    shifted: Option<u32>,
    base: Option<u32>,
    stroke: &Stroke<'a>,
) -> Told<'a>
    requires { (number ≤ 1114111) × ((coded shifted ≡ true) × (coded base ≡ true)) }
    ensures { told_means result ≡ full number shifted base (plain_stroke stroke.now) }
{
    Told::Sequence(ToldSequence {
        number,
        shifted,
        base,
        sum: stroke.sum,
        direction: stroke.direction,
        last: Last::U,
        letters: stroke.letters,
    })
}
