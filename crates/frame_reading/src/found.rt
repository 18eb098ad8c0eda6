// The pieces of a frame.
ghost use Rattle.std.specs.Prelude.{◌≤◌};

// Which numbers of four bytes are wanted: a code, a code or its absence, a character, a character other than ESC.
// An enum rather than a closure for each, since the contracts name the numbers by it.
#[derive(Clone, Copy, Debug, PartialEq, Eq)]
pub enum Rule {
    Code,
    Optional,
    Scalar,
    Clear,
}

// A number of four bytes and the place after it, each named by what it is.
#[derive(Clone, Copy, Debug, PartialEq, Eq)]
pub struct Quad {
    pub value: u32,
    pub next: usize,
}

// What a frame of a clear report holds: a text, an answer, or a sequence with so many characters.
#[derive(Clone, Copy, Debug, PartialEq, Eq)]
pub enum Body {
    Text,
    Answer,
    Sequence(u8),
}

// A frame of a sequence, and how many characters its length tells.
#[derive(Clone, Copy)]
pub(crate) struct Frame<'a> {
    pub(crate) bytes: &'a [u8],
    pub(crate) count: u8,
    ghost few: { count ≤ 32 },
}
