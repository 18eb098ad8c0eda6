// Reads a character in UTF-8 from the front of given bytes.
ghost use Rattle.std.specs.Prelude.{◌≡◌, ◌<◌, ◌≤◌, length, slice_index};
ghost use Rattle.pieces.specs.Letters.{Two, Three, Four, Plain, Characters, Spells, Trails};

use crate::found::{Fault, Letter};

const ESC: u8 = 0x1b;

// The surrogates, without their last six bits.
const SURROGATES: u32 = 0x360;

const PAST_SURROGATES: u32 = 0x380;

fn letter(code: u32, next: usize) -> Letter
    requires { Plain code }
    ensures { (result.code ≡ code) × (result.next ≡ next) }
{
    Letter {
        code: char::from_u32(code).unwrap(),
        next,
    }
}

// The six bits that the byte at a place adds to a character.
// The bytes and a place, not a struct of both, which would be made anew for each place that is named below.
fn tail(bytes: &[u8], at: usize) -> Result<u32, Fault>
    ensures { Trails bytes.now at result }
{
    let b = *bytes.get(at).ok_or(Fault::Short)?;
    if b < 0x80 || b > 0xbf {
        return Err(Fault::Unknown);
    }
    Ok(b as u32 - 0x80)
}

// The first byte's range is a premise, here and below: a struct for it would be made for one call.
fn two(bytes: &[u8]) -> Result<Letter, Fault>
    requires some { 0 < length bytes.now }
    requires low { 194 ≤ slice_index bytes.now 0 }
    requires high { slice_index bytes.now 0 < 224 }
    ensures { Spells Two bytes.now result }
{
    let low = tail(bytes, 1)?;
    Ok(letter((bytes[0] as u32 - 0xc0) * 64 + low, 2))
}

fn three(bytes: &[u8]) -> Result<Letter, Fault>
    requires some { 0 < length bytes.now }
    requires low { 224 ≤ slice_index bytes.now 0 }
    requires high { slice_index bytes.now 0 < 240 }
    ensures { Spells Three bytes.now result }
{
    let high = tail(bytes, 1)?;
    let front = (bytes[0] as u32 - 0xe0) * 64 + high;
    if front < 0x20 || (SURROGATES <= front && front < PAST_SURROGATES) {
        return Err(Fault::Unknown);
    }
    let low = tail(bytes, 2)?;
    Ok(letter(front * 64 + low, 3))
}

fn four(bytes: &[u8]) -> Result<Letter, Fault>
    requires some { 0 < length bytes.now }
    requires low { 240 ≤ slice_index bytes.now 0 }
    requires high { slice_index bytes.now 0 < 245 }
    ensures { Spells Four bytes.now result }
{
    let high = tail(bytes, 1)?;
    let front = (bytes[0] as u32 - 0xf0) * 64 + high;
    if front < 0x10 || 0x110 <= front {
        return Err(Fault::Unknown);
    }
    let middle = tail(bytes, 2)?;
    let low = tail(bytes, 3)?;
    Ok(letter((front * 64 + middle) * 64 + low, 4))
}

// The character at the front, which may not be ESC.
// By hand: `from_utf8` reads all that it is given, and would read again what is good of the front.
pub fn read_letter(bytes: &[u8]) -> Result<Letter, Fault>
    ensures { Spells Characters bytes.now result }
{
    let [b, ..] = bytes else {
        return Err(Fault::Short);
    };
    // Before the match, in which a proof would name this arm by the number of ESC.
    if *b == ESC {
        return Err(Fault::Unknown);
    }
    match *b {
        0..=0x7f => Ok(Letter {
            code: *b as char,
            next: 1,
        }),
        0xc2..=0xdf => two(bytes),
        0xe0..=0xef => three(bytes),
        0xf0..=0xf4 => four(bytes),
        _ => Err(Fault::Unknown),
    }
}
