// The kitty keyboard protocol, as a dialect.
ghost use Rattle.std.specs.Prelude.{◌≡◌, ◌+◌, ◌≤◌, true};
ghost use Rattle.report.specs.Sound.{coded};
ghost use Rattle.report.specs.Letters.{spelled};
ghost use Rattle.report.specs.Meanings.{sequence};
ghost use Rattle.report.specs.Telling.{told_fields, told_means};
ghost use Rattle.dialect.specs.KittyBytes.{optional, alternates, event, typed, parts, plain, kitty_bytes};
ghost use Rattle.dialect.specs.Puts.{Writes};
ghost use Rattle.dialect.specs.KittyLaws.{kitty_sized, kitty_apart};

use crate::dialect::Dialect;
use crate::pen::Pen;
use report::ending::{Direction, Last};
use report::letters::Letters;
use report::told::{Told, ToldSequence};

#[derive(Clone, Copy, Debug, PartialEq, Eq)]
pub struct Kitty;

// Whether the sequence has the short form, ESC [ E.
#[inline(always)]
pub fn is_plain(s: &ToldSequence) -> bool
    ensures { result ≡ plain (told_fields s.now) }
{
    s.number == 1 && s.last == Last::Begin && s.direction == Direction::Press && s.sum == 0
}

// The room that each part needs is a premise of it, not of the pen: it differs from part to part.
// That a code is in range is one too: `Sequence` has plain numbers as fields, and holds the fact of them.
#[inline(always)]
fn put_optional(pen: &mut Pen, code: Option<u32>)
    requires { (coded code ≡ true) × (pen.old.at + 7 ≤ 512) }
    ensures wrote { Writes pen.old (optional code) pen.new }
    ensures near { pen.new.at ≤ pen.old.at + 7 }
{
    if let Some(n) = code {
        pen.code(n);
    }
}

#[inline(always)]
fn put_alternates(pen: &mut Pen, shifted: Option<u32>, base: Option<u32>)
    requires { (coded shifted ≡ true) × ((coded base ≡ true) × (pen.old.at + 16 ≤ 512)) }
    ensures wrote { Writes pen.old (alternates shifted base) pen.new }
    ensures near { pen.new.at ≤ pen.old.at + 16 }
{
    if shifted.is_none() && base.is_none() {
        return;
    }
    pen.byte(b':');
    put_optional(pen, shifted);
    if let Some(b) = base {
        pen.byte(b':');
        pen.code(b);
    }
}

// A press is not marked.
#[inline(always)]
fn put_event(pen: &mut Pen, direction: Direction)
    requires { pen.old.at + 2 ≤ 512 }
    ensures wrote { Writes pen.old (event direction) pen.new }
    ensures near { pen.new.at ≤ pen.old.at + 2 }
{
    if direction != Direction::Press {
        pen.byte(b':');
        pen.byte(b'0' + u8::from(direction));
    }
}

#[inline(always)]
fn put_typed(pen: &mut Pen, letters: Letters)
    requires { pen.old.at ≤ 200 }
    ensures wrote { Writes pen.old (typed (spelled letters.entry.spelling)) pen.new }
    ensures near { pen.new.at ≤ pen.old.at + 256 }
{
    let mut rest = letters;
    let mut mark = b';';
    for _ in 0..32usize {
        let Some((c, behind)) = rest.split_first() else {
            return;
        };
        pen.byte(mark);
        pen.code(c as u32);
        mark = b':';
        rest = behind;
    }
}

// What follows ESC [ in the long form.
#[inline(always)]
fn put_parts(pen: &mut Pen, s: &ToldSequence)
    requires { pen.old.at ≤ 2 }
    ensures { Writes pen.old (parts (told_fields s.now)) pen.new }
{
    pen.code(s.number);
    put_alternates(pen, s.shifted, s.base);
    pen.byte(b';');
    pen.code(s.sum as u32 + 1);
    put_event(pen, s.direction);
    put_typed(pen, s.letters);
    pen.byte(s.last.into());
}

#[inline(always)]
fn put_sequence(pen: &mut Pen, s: &ToldSequence)
    requires { pen.old.at ≡ 0 }
    ensures { Writes pen.old (kitty_bytes (sequence (told_fields s.now))) pen.new }
{
    if is_plain(s) {
        pen.bytes(b"\x1b[E");
    } else {
        pen.bytes(b"\x1b[");
        put_parts(pen, s);
    }
}

#[inline(always)]
fn put_report(pen: &mut Pen, report: &Told)
    requires { pen.old.at ≡ 0 }
    ensures { Writes pen.old (kitty_bytes (told_means report.now)) pen.new }
{
    match report {
        Told::Text(c) => pen.char(c.code()),
        Told::Old(c) => {
            pen.byte(0x1b);
            pen.char(c.code());
        }
        Told::Answer(flags) => {
            pen.bytes(b"\x1b[?");
            pen.code(flags.bits() as u32);
            pen.byte(b'u');
        }
        Told::Sequence(s) => put_sequence(pen, s),
    }
}

impl Dialect for Kitty {
    ghost bytes = { λ _. kitty_bytes };

    ghost sized = { λ d. kitty_sized };

    ghost apart = { λ d. kitty_apart };

    // These three lines stand in each dialect: a function of the trait for them would have a pen at its front as a
    // premise, and be one more to write for a dialect.
    #[inline(always)]
    fn write(&self, report: &Told, out: &mut [u8; 512]) -> usize {
        let mut pen = Pen::new(out, 0);
        put_report(&mut pen, report);
        pen.count()
    }
}
