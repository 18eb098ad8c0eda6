// Reads a number of four bytes, the lowest first.
ghost use Rattle.std.specs.Prelude.{◌≡◌, ◌+◌, ◌*◌, ◌≤◌, length, slice_index};
ghost use Rattle.frame_reading.specs.Quads.{ok, SaysQuad};

use crate::found::{Quad, Rule};
use pieces::found::Fault;

fn is_scalar(n: u32) -> bool
    ensures { result ≡ ok Rule.Scalar n }
{
    char::from_u32(n).is_some()
}

fn allowed(rule: Rule, n: u32) -> bool
    ensures { result ≡ ok rule n }
{
    match rule {
        Rule::Code => n <= char::MAX as u32,
        Rule::Optional => n <= char::MAX as u32 || n == 0xffff_ffff,
        Rule::Scalar => is_scalar(n),
        Rule::Clear => is_scalar(n) && n != 0x1b,
    }
}

// The number whose three low bytes stand at the place, with the highest given.
fn with_high(bytes: &[u8], at: usize, high: u8) -> u32
    requires { at + 3 ≤ length bytes.now }
    ensures { result ≡ slice_index bytes.now at + slice_index bytes.now (at + 1) * 256 + slice_index bytes.now (at + 2) * 65536 + high * 16777216 }
{
    u32::from_le_bytes([bytes[at], bytes[at + 1], bytes[at + 2], high])
}

// The bytes and a place: each clause speaks of the bytes from a place, and a reader that moves would add its former place.
// Three bytes tell all but the highest, which is 0, or FF where a code is absent.
pub(crate) fn read_quad(bytes: &[u8], at: usize, rule: Rule) -> Result<Quad, Fault>
    ensures { SaysQuad rule bytes.now at result }
{
    let left = bytes.len().saturating_sub(at);
    if left < 3 {
        return Err(Fault::Short);
    }
    if left == 3 {
        if allowed(rule, with_high(bytes, at, 0)) {
            return Err(Fault::Short);
        }
        if allowed(rule, with_high(bytes, at, 0xff)) {
            return Err(Fault::Short);
        }
        return Err(Fault::Unknown);
    }
    let value = with_high(bytes, at, bytes[at + 3]);
    if allowed(rule, value) {
        Ok(Quad {
            value,
            next: at + 4,
        })
    } else {
        Err(Fault::Unknown)
    }
}
