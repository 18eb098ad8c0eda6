// Reads what a frame holds after its length and kind, part by part.
ghost use Rattle.std.specs.Prelude.{◌≡◌, ◌≤◌, [], length, replicate, MatchOption, ◌≢◌};
ghost use Rattle.report.specs.Meanings.{Sound};
ghost use Rattle.pieces.specs.Reports.{Sees};
ghost use Rattle.sequences.specs.Leads.{lead};
ghost use Rattle.sequences.specs.Parts.{Tells, filled};
ghost use Rattle.frame_reading.specs.Bodies.{AtText, AtFlags, AtNumber, AtShifted, AtBase, AtSum, AtDirection, AtLast, AtCount, AtCodes, Ends};

use crate::found::{Frame, Rule};
use crate::quads::read_quad;
use input_types::flags::KittyKeyboardFlags;
use pieces::found::{Fault, Seen};
use pieces::octets::octet;
use report::ending::{Direction, Last};
use report::report::Report;
use report::scalar::Scalar;
use report::text::Text;
use sequences::told::{Head, Told};

// The character of a text.
// The bytes and a place, as the readers of quads and bytes below it take them, with no struct to take apart again.
pub(crate) fn read_text(bytes: &[u8], at: usize) -> Result<Seen, Fault>
    ensures { Sees AtText bytes.now at result }
{
    let q = read_quad(bytes, at, Rule::Clear)?;
    let c = char::from_u32(q.value).ok_or(Fault::Unknown)?;
    Ok(Seen {
        report: Report::Text(Scalar::new(c)),
        length: q.next,
    })
}

// The flags of an answer.
pub(crate) fn read_flags(bytes: &[u8], at: usize) -> Result<Seen, Fault>
    ensures { Sees AtFlags bytes.now at result }
{
    let n = octet(bytes, at)?;
    let flags = KittyKeyboardFlags::from_bits(n as u16).ok_or(Fault::Unknown)?;
    Ok(Seen {
        report: Report::Answer(flags),
        length: at + 1,
    })
}

// The code that four bytes are, or its absence.
fn code_of(value: u32) -> Option<u32>
    ensures { MatchOption result (value ≡ 4294967295) (λ n. (n ≡ value) × (n ≢ 4294967295)) }
{
    if value == 0xffff_ffff {
        None
    } else {
        Some(value)
    }
}

impl Frame<'_> {
    // Whether some text of as many characters as were told can follow.
    fn ends(&self, head: Head, last: Last) -> bool
        ensures { Ends (lead head) last self.now.count result }
    {
        if self.count == 0 {
            head.into_sequence(last, Text::none()).is_some()
        } else {
            // Not `==`: the proof needs a fact for each answer, and the comparison gives one for both.
            matches!(last, Last::U)
        }
    }

    // The characters.
    fn codes(&self, at: usize, head: Head, last: Last) -> Result<Told, Fault>
        requires place { at ≤ length self.now.bytes.now }
        requires ready { Sound (filled (lead head) last (replicate self.now.count 0)) }
        ensures { Tells (AtCodes self.now.count (lead head) last []) self.now.bytes.now at result }
    {
        let mut text = Text::none();
        let mut next = at;
        // Not by `chunks`: the bytes may end before the count, and what then begins a character is short, not wrong.
        for _ in 0..self.count {
            let q = read_quad(self.bytes, next, Rule::Scalar)?;
            let Some(c) = char::from_u32(q.value) else {
                return Err(Fault::Unknown);
            };
            text.push(c);
            next = q.next;
        }
        let Some(sequence) = head.into_sequence(last, text) else {
            return Err(Fault::Unknown);
        };
        Ok(Told { sequence, next })
    }

    // How many characters there are, which the length told, and what follows.
    fn count(&self, at: usize, head: Head, last: Last) -> Result<Told, Fault>
        requires { Sound (filled (lead head) last (replicate self.now.count 0)) }
        ensures { Tells (AtCount self.now.count (lead head) last) self.now.bytes.now at result }
    {
        let b = octet(self.bytes, at)?;
        if b == self.count {
            self.codes(at + 1, head, last)
        } else {
            Err(Fault::Unknown)
        }
    }

    // The final byte, and what follows.
    fn last(&self, at: usize, head: Head) -> Result<Told, Fault>
        ensures { Tells (AtLast self.now.count (lead head)) self.now.bytes.now at result }
    {
        let b = octet(self.bytes, at)?;
        let Ok(last) = Last::try_from(b) else {
            return Err(Fault::Unknown);
        };
        if self.ends(head, last) {
            self.count(at + 1, head, last)
        } else {
            Err(Fault::Unknown)
        }
    }

    // The direction, and what follows.
    fn direction(&self, at: usize, head: Head) -> Result<Told, Fault>
        ensures { Tells (AtDirection self.now.count (lead head)) self.now.bytes.now at result }
    {
        let b = octet(self.bytes, at)?;
        let Ok(direction) = Direction::try_from(b) else {
            return Err(Fault::Unknown);
        };
        // A field is set alone, here and below: `..head` is refused where a struct has ghost fields.
        let mut told = head;
        told.direction = direction;
        self.last(at + 1, told)
    }

    // The modifier sum, and what follows.
    fn sum(&self, at: usize, head: Head) -> Result<Told, Fault>
        ensures { Tells (AtSum self.now.count (lead head)) self.now.bytes.now at result }
    {
        let sum = octet(self.bytes, at)?;
        let mut summed = head;
        summed.sum = sum;
        self.direction(at + 1, summed)
    }

    // The base code, and what follows.
    fn base(&self, at: usize, head: Head) -> Result<Told, Fault>
        ensures { Tells (AtBase self.now.count (lead head)) self.now.bytes.now at result }
    {
        let q = read_quad(self.bytes, at, Rule::Optional)?;
        let mut based = head;
        based.base = code_of(q.value);
        self.sum(q.next, based)
    }

    // The shifted code, and what follows.
    fn shifted(&self, at: usize, head: Head) -> Result<Told, Fault>
        ensures { Tells (AtShifted self.now.count (lead head)) self.now.bytes.now at result }
    {
        let q = read_quad(self.bytes, at, Rule::Optional)?;
        let mut shifted = head;
        shifted.shifted = code_of(q.value);
        self.base(q.next, shifted)
    }

    // The parts of a sequence.
    pub(crate) fn parts(&self, at: usize) -> Result<Told, Fault>
        ensures { Tells (AtNumber self.now.count) self.now.bytes.now at result }
    {
        let q = read_quad(self.bytes, at, Rule::Code)?;
        let head = Head {
            number: q.value,
            shifted: None,
            base: None,
            sum: 0,
            direction: Direction::Press,
        };
        self.shifted(q.next, head)
    }
}
