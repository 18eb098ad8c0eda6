// What the readers of pieces answer.
use report::report::Report;

// `Short` where the bytes only begin what is wanted, `Unknown` where nothing that is wanted begins so.
#[derive(Clone, Copy, Debug, PartialEq, Eq)]
pub enum Fault {
    Short,
    Unknown,
}

// Which numbers are wanted: a code, the modifier sum plus one, the flags of an answer.
// An enum rather than bounds in a struct or a closure, since the contracts name the numbers by it.
#[derive(Clone, Copy, Debug, PartialEq, Eq)]
pub enum Range {
    Code,
    Sum,
    Flags,
}

// A struct for each thing that is read, no generic one: a field named by what it holds is plainer than a value.
// A number, if there is one, the byte after it, and the place after that.
#[derive(Clone, Copy, Debug, PartialEq, Eq)]
pub struct Ended {
    pub value: Option<u32>,
    pub mark: u8,
    pub next: usize,
}

// A character and the place after it.
#[derive(Clone, Copy, Debug, PartialEq, Eq)]
pub struct Letter {
    pub code: char,
    pub next: usize,
}

// A report and how many bytes it took, with no equality, since reports have none.
#[derive(Clone, Copy)]
pub struct Seen {
    pub report: Report,
    pub length: usize,
}
