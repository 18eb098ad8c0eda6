// The characters that go along with a sequence, read where they stand: a row of their own would be copied at each step
// from a key to bytes.
ghost use Rattle.std.specs.Prelude.{◌≡◌, ◌≤◌, true, length};
ghost use Rattle.std.proofs.Math.Utf8.{scalars};
ghost use Rattle.report.specs.Letters.{spelled};

use crate::scalar::Scalar;

#[derive(Clone, Copy)]
pub enum Spelling<'a> {
    None,
    One(Scalar),
    // Text, of which control codes are left out.
    Text(&'a str),
    Row(&'a [char]),
}

// At most 32 characters.
#[derive(Clone, Copy)]
pub struct Letters<'a> {
    pub spelling: Spelling<'a>,
    ghost few: { length (spelled spelling) ≤ 32 },
    ghost characters: { scalars (spelled spelling) ≡ true },
}
