// A name to the front of a buffer.
ghost use Rattle.std.specs.Prelude.{◌≡◌};
ghost use Rattle.name_writing.specs.Written.{written};

use names::fault::NameFault;

// Puts a name to the front of a buffer, whose rest stays, and answers how many bytes it has.
// To a lent buffer, since memory is fixed.
pub fn put(buffer: &mut [u8], name: &str) -> Result<usize, NameFault>
    ensures { (result, buffer.new) ≡ written name.now buffer.old }
{
    let count = name.len();
    if count > buffer.len() {
        return Err(NameFault::NoRoom);
    }
    buffer[..count].copy_from_slice(name.as_bytes());
    Ok(count)
}
