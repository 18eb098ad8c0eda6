// Reads a number in decimal, with no leading zero, and the byte after it.
ghost use Rattle.std.specs.Prelude.{◌≡◌, ◌≤◌};
ghost use Rattle.pieces.specs.Ranges.{least, most, longer};
ghost use Rattle.pieces.specs.Runs.{Ends};

use crate::found::{Ended, Fault, Range};

fn least_of(range: Range) -> u32
    ensures { result ≡ least range }
{
    match range {
        Range::Sum => 1,
        Range::Code | Range::Flags => 0,
    }
}

fn most_of(range: Range) -> u32
    ensures { result ≡ most range }
{
    match range {
        Range::Code => char::MAX as u32,
        Range::Sum => 256,
        Range::Flags => 31,
    }
}

// The number with one digit more, if it may have that and stays in range.
fn digit_more(value: Option<u32>, digit: u32, range: Range) -> Option<u32>
    requires { digit ≤ 9 }
    ensures { result ≡ longer value digit (least range) (most range) }
{
    let least = least_of(range);
    let most = most_of(range);
    match value {
        None if least <= digit && digit <= most => Some(digit),
        Some(k) if 0 < k && k <= most && k * 10 + digit <= most => Some(k * 10 + digit),
        _ => None,
    }
}

// The bytes and a place, since the place after the number is answered as one of the whole.
// From the place `at` on, a number of the range, or none, and the byte that ends it.
pub fn digits(bytes: &[u8], at: usize, range: Range) -> Result<Ended, Fault>
    ensures { Ends range bytes.now at result }
{
    let mut value = None;
    // By places: over `enumerate` and `skip` three goals of the loop did not close.
    for i in at..bytes.len() {
        let mark = bytes[i];
        if !mark.is_ascii_digit() {
            let next = i + 1;
            return Ok(Ended { value, mark, next });
        }
        let Some(n) = digit_more(value, (mark - b'0') as u32, range) else {
            return Err(Fault::Unknown);
        };
        value = Some(n);
    }
    Err(Fault::Short)
}
