// Reads what follows ESC [, part by part. The bytes and a place go from part to part, since a slice alone would lose the
// place, which is told at the end, and a reader that moves would add its former place to each clause. What a part read
// goes into the head field by field, since a struct with facts beside its fields takes no `..head`.
ghost use Rattle.std.specs.Prelude.{◌≤◌, [], length};
ghost use Rattle.report.specs.Meanings.{characters};
ghost use Rattle.sequences.specs.Leads.{lead};
ghost use Rattle.sequences.specs.Parts.{AtNumber, AtShifted, AtBase, AtSum, AtEvent, AtMark, AtClosing, AtText, Tells, Makes, CharacterFor, EventFor, filled};

use crate::told::{Head, Told};
use dialect::kitty::is_plain;
use pieces::digits::digits;
use pieces::found::{Fault, Range};
use pieces::octets::octet;
use report::ending::{Direction, Last};
use report::text::Text;

// The character with that number, if there is one.
fn character(value: Option<u32>) -> Option<char>
    ensures { CharacterFor value result }
{
    char::from_u32(value?)
}

// The direction that the digit marks; a press is not marked.
fn event_of(digit: u8) -> Option<Direction>
    ensures { EventFor digit result }
{
    let direction = Direction::try_from(digit.checked_sub(b'0')?).ok()?;
    if direction == Direction::Press {
        return None;
    }
    Some(direction)
}

// The sequence that begins with `head`, if there is one in the long form.
fn sequence(head: Head, last: Last, text: Text, next: usize) -> Result<Told, Fault>
    ensures { Makes (filled (lead head) last (characters text)) next result }
{
    let sequence = head.into_sequence(last, text).ok_or(Fault::Unknown)?;
    if is_plain(&sequence.told()) {
        Err(Fault::Unknown)
    } else {
        Ok(Told { sequence, next })
    }
}

// The text, from its first character on.
fn read_text(bytes: &[u8], at: usize, head: Head) -> Result<Told, Fault>
    ensures { Tells (AtText (lead head) []) bytes.now at result }
{
    let mut text = Text::none();
    let mut next = at;
    // Each number tells where the next begins, so that no iterator of the bytes goes along with the count.
    for _ in 0..32u8 {
        let e = digits(bytes, next, Range::Code)?;
        let Some(c) = character(e.value) else {
            return Err(Fault::Unknown);
        };
        text.push(c);
        next = e.next;
        match e.mark {
            b'u' => return sequence(head, Last::U, text, next),
            b':' => {}
            _ => return Err(Fault::Unknown),
        }
    }
    Err(Fault::Unknown)
}

// What comes after the modifiers and the direction, of which the first byte, `mark`, was read.
fn read_closing(bytes: &[u8], at: usize, head: Head, mark: u8) -> Result<Told, Fault>
    requires { at ≤ length bytes.now }
    ensures { Tells (AtClosing (lead head) mark) bytes.now at result }
{
    if mark == b';' {
        return read_text(bytes, at, head);
    }
    match Last::try_from(mark) {
        Ok(last) => sequence(head, last, Text::none(), at),
        Err(_) => Err(Fault::Unknown),
    }
}

// What comes after the direction.
fn read_mark(bytes: &[u8], at: usize, head: Head) -> Result<Told, Fault>
    ensures { Tells (AtMark (lead head)) bytes.now at result }
{
    let mark = octet(bytes, at)?;
    read_closing(bytes, at + 1, head, mark)
}

// The digit of the direction, and what follows.
fn read_event(bytes: &[u8], at: usize, head: Head) -> Result<Told, Fault>
    ensures { Tells (AtEvent (lead head)) bytes.now at result }
{
    let digit = octet(bytes, at)?;
    let Some(direction) = event_of(digit) else {
        return Err(Fault::Unknown);
    };
    let mut told = head;
    told.direction = direction;
    read_mark(bytes, at + 1, told)
}

// The modifiers, and what follows.
fn read_sum(bytes: &[u8], at: usize, head: Head) -> Result<Told, Fault>
    ensures { Tells (AtSum head.number head.shifted head.base) bytes.now at result }
{
    let e = digits(bytes, at, Range::Sum)?;
    let Some(k) = e.value else {
        return Err(Fault::Unknown);
    };
    let mut pressed = head;
    pressed.sum = (k - 1) as u8;
    pressed.direction = Direction::Press;
    if e.mark == b':' {
        read_event(bytes, e.next, pressed)
    } else {
        read_closing(bytes, e.next, pressed, e.mark)
    }
}

// The base code, and what follows.
fn read_base(bytes: &[u8], at: usize, head: Head) -> Result<Told, Fault>
    ensures { Tells (AtBase head.number head.shifted) bytes.now at result }
{
    let e = digits(bytes, at, Range::Code)?;
    let Some(b) = e.value else {
        return Err(Fault::Unknown);
    };
    if e.mark != b';' {
        return Err(Fault::Unknown);
    }
    let mut based = head;
    based.base = Some(b);
    read_sum(bytes, e.next, based)
}

// The shifted code, which may be empty before a base code, and what follows.
fn read_shifted(bytes: &[u8], at: usize, head: Head) -> Result<Told, Fault>
    ensures { Tells (AtShifted head.number) bytes.now at result }
{
    let e = digits(bytes, at, Range::Code)?;
    let mut shifted = head;
    shifted.shifted = e.value;
    shifted.base = None;
    if e.mark == b':' {
        return read_base(bytes, e.next, shifted);
    }
    let Some(_) = e.value else {
        return Err(Fault::Unknown);
    };
    if e.mark != b';' {
        return Err(Fault::Unknown);
    }
    read_sum(bytes, e.next, shifted)
}

// The number, and what follows.
pub fn read_parts(bytes: &[u8], at: usize) -> Result<Told, Fault>
    ensures { Tells AtNumber bytes.now at result }
{
    let e = digits(bytes, at, Range::Code)?;
    let Some(number) = e.value else {
        return Err(Fault::Unknown);
    };
    let head = Head {
        number,
        shifted: None,
        base: None,
        sum: 0,
        direction: Direction::Press,
    };
    match e.mark {
        b':' => read_shifted(bytes, e.next, head),
        b';' => read_sum(bytes, e.next, head),
        _ => Err(Fault::Unknown),
    }
}
