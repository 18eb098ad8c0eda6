// Frames, as a dialect.
ghost use Rattle.std.specs.Prelude.{◌≡◌, ◌+◌, ◌*◌, ◌≤◌, ◌++◌, length};
ghost use Rattle.std.specs.List.{flat_map};
ghost use Rattle.report.specs.Letters.{spelled};
ghost use Rattle.report.specs.Telling.{told_fields, told_means};
ghost use Rattle.dialect.specs.Puts.{Writes};
ghost use Rattle.frames.specs.Framing.{le16, le32, or_none, field_bytes, frame_bytes, kind_number};
ghost use Rattle.frames.specs.FrameLaws.{frame_sized, frame_apart};

use dialect::dialect::Dialect;
use dialect::pen::Pen;
use report::letters::Letters;
use report::told::{Told, ToldSequence};

#[derive(Clone, Copy, Debug, PartialEq, Eq)]
pub struct Frames;

// What a frame holds, as its second word numbers it.
#[derive(Clone, Copy, Debug, PartialEq, Eq)]
pub enum FrameKind {
    Text = 1,
    Sequence = 2,
    Answer = 3,
    Old = 4,
}

fn or_none(code: Option<u32>) -> u32
    ensures { result ≡ or_none code }
{
    code.unwrap_or(0xffff_ffff)
}

// The room that each part needs is a premise of it, not of the pen: it differs from part to part.
fn put_le32(pen: &mut Pen, n: u32)
    requires { pen.old.at + 4 ≤ 512 }
    ensures { Writes pen.old (le32 n) pen.new }
{
    pen.bytes(&n.to_le_bytes());
}

// The length and the kind.
fn put_head(pen: &mut Pen, length: u16, kind: FrameKind)
    requires { pen.old.at ≡ 0 }
    ensures { Writes pen.old (le16 length ++ le16 (kind_number kind)) pen.new }
{
    pen.bytes(&length.to_le_bytes());
    pen.bytes(&(kind as u16).to_le_bytes());
}

fn put_codes(pen: &mut Pen, letters: Letters)
    requires { pen.old.at + 4 * length (spelled letters.spelling) ≤ 512 }
    ensures { Writes pen.old (flat_map le32 (spelled letters.entry.spelling)) pen.new }
{
    let mut rest = letters;
    for _ in 0..32usize {
        let Some((c, behind)) = rest.split_first() else {
            return;
        };
        put_le32(pen, c as u32);
        rest = behind;
    }
}

// What follows the kind.
fn put_fields(pen: &mut Pen, s: &ToldSequence)
    requires { pen.old.at ≤ 4 }
    ensures { Writes pen.old (field_bytes (told_fields s.now)) pen.new }
{
    let count = s.letters.count();
    put_le32(pen, s.number);
    put_le32(pen, or_none(s.shifted));
    put_le32(pen, or_none(s.base));
    pen.bytes(&[s.sum, s.direction.into(), s.last.into(), count]);
    put_codes(pen, s.letters);
}

fn put_report(pen: &mut Pen, report: &Told)
    requires { pen.old.at ≡ 0 }
    ensures { Writes pen.old (frame_bytes (told_means report.now)) pen.new }
{
    match report {
        Told::Text(c) => {
            put_head(pen, 6, FrameKind::Text);
            put_le32(pen, c.code() as u32);
        }
        Told::Old(c) => {
            put_head(pen, 6, FrameKind::Old);
            put_le32(pen, c.code() as u32);
        }
        Told::Answer(flags) => {
            put_head(pen, 3, FrameKind::Answer);
            pen.bytes(&[flags.bits() as u8]);
        }
        Told::Sequence(s) => {
            put_head(pen, 18 + 4 * s.letters.count() as u16, FrameKind::Sequence);
            put_fields(pen, s);
        }
    }
}

impl Dialect for Frames {
    ghost bytes = { λ _. frame_bytes };

    ghost sized = { λ d. frame_sized };

    ghost apart = { λ d. frame_apart };

    // These lines stand in each dialect: a function of the trait for them would be one more to write.
    fn write(&self, report: &Told, out: &mut [u8; 512]) -> usize {
        let mut pen = Pen::new(out, 0);
        put_report(&mut pen, report);
        pen.count()
    }
}
