// A small number as text, and the faults of a text that is none.
#![tactic(auto)]

ghost use Rattle.std.specs.Prelude.{◌≡◌, Ok};
ghost use Rattle.numbers.specs.Numbers.{with_digit, digits_from, number_of, placed, within, refusal};

#[derive(Clone, Copy, Debug, PartialEq, Eq)]
pub enum NumberKind {
    Empty,
    NotDigit,
    // Above 255.
    TooBig,
    // A number, but none that is wanted here.
    OutOfRange,
}

// What is wrong with a number, and where its first byte stands.
#[derive(Clone, Copy, Debug, PartialEq, Eq)]
pub struct NumberFault {
    pub kind: NumberKind,
    pub place: usize,
}

impl NumberFault {
    // The number by which programs know the refusal: 3 where no number can be read, 4 where it is out of range.
    pub fn number(self) -> u8
        ensures { result ≡ refusal self.kind }
    {
        match self.kind {
            NumberKind::Empty | NumberKind::NotDigit | NumberKind::TooBig => 3,
            NumberKind::OutOfRange => 4,
        }
    }
}

// One more digit at the end of a number.
// Not by `parse`, which wants UTF-8 first: in 300 with a byte behind that is no text, the 300 is the fault.
fn add_digit(n: u8, b: u8) -> Result<u8, NumberKind>
    ensures { result ≡ with_digit n b }
{
    if !b.is_ascii_digit() {
        return Err(NumberKind::NotDigit);
    }
    let tens = n.checked_mul(10).ok_or(NumberKind::TooBig)?;
    tens.checked_add(b - b'0').ok_or(NumberKind::TooBig)
}

// The number that digits write; the first byte that is none, or that makes it pass 255, ends it.
fn digits_value(digits: &[u8]) -> Result<u8, NumberKind>
    ensures { result ≡ digits_from (Ok 0) digits.now }
{
    let mut n = 0;
    for b in digits {
        n = add_digit(n, *b)?;
    }
    Ok(n)
}

fn number(text: &[u8]) -> Result<u8, NumberKind>
    ensures { result ≡ number_of text.now }
{
    match text {
        [] => Err(NumberKind::Empty),
        [b'+'] => Err(NumberKind::NotDigit),
        [b'+', rest @ ..] => digits_value(rest),
        _ => digits_value(text),
    }
}

// A number as Rust reads a `u8`: one plus in front, zeros in front, and no empty text. It begins at `place`.
pub fn read_u8(text: &[u8], place: usize) -> Result<u8, NumberFault>
    ensures { result ≡ placed place (number_of text.now) }
{
    number(text).map_err(|kind| NumberFault { kind, place })
}

// A number from `low` to `high`.
pub fn read_within(text: &[u8], place: usize, low: u8, high: u8) -> Result<u8, NumberFault>
    ensures { result ≡ placed place (within low high (number_of text.now)) }
{
    let n = read_u8(text, place)?;
    if !(low..=high).contains(&n) {
        return Err(NumberFault {
            kind: NumberKind::OutOfRange,
            place,
        });
    }
    Ok(n)
}
