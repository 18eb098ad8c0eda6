// Names of a word and a number, and of a word and a character, put to the front of a buffer.
// Not put into their caller, and no name is handed out: a function clears the room of its locals at each call, and a
// name would be copied.
ghost use Rattle.std.specs.Prelude.{◌≡◌, ◌≤◌, ◌++◌, length, codes, decimal};
ghost use Rattle.std.proofs.Math.Utf8.{encode};
ghost use Rattle.name_writing.specs.Written.{written};

use crate::put::put;
use arrayvec::ArrayString;
use itoa::Buffer;
use names::fault::NameFault;

// The word and the digits go to the buffer each by itself: they are put together nowhere else.
#[inline(never)]
pub(crate) fn put_numbered(buffer: &mut [u8], word: &str, n: u32) -> Result<usize, NameFault>
    requires { length word.now ≤ 100 }
    ensures { (result, buffer.new) ≡ written (word.now ++ decimal n) buffer.old }
{
    let mut digits = Buffer::new();
    let number = digits.format(n).as_bytes();
    let front = word.len();
    let count = front + number.len();
    if count > buffer.len() {
        return Err(NameFault::NoRoom);
    }
    buffer[..front].copy_from_slice(word.as_bytes());
    buffer[front..count].copy_from_slice(number);
    Ok(count)
}

#[inline(never)]
pub(crate) fn put_mapped(buffer: &mut [u8], c: char) -> Result<usize, NameFault>
    ensures { (result, buffer.new) ≡ written (codes "mapped:" ++ encode c) buffer.old }
{
    let mut name = ArrayString::<128>::new();
    name.push_str("mapped:");
    name.push(c);
    put(buffer, name.as_str())
}
