// The names of keys, by what they mean and by their places.
ghost use Rattle.std.specs.Prelude.{◌≡◌};
ghost use Rattle.names.specs.PhysTable.{place_name};
ghost use Rattle.name_writing.specs.KeyNames.{key_name};
ghost use Rattle.name_writing.specs.Written.{to_buffer, written};

use crate::pieces::{put_mapped, put_numbered};
use crate::put::put;
use input_types::key_code::KeyCode;
use input_types::phys_key_code::PhysKeyCode;
use key_names::plain_name;
use names::fault::NameFault;
use names::phys_names::phys_name;
use texts::checked;

// Writes a key's name to the front of a buffer, whose rest stays, and answers how many bytes it has.
// Not by `Display`: a name that has no room is refused, and leaves the buffer as it was.
pub fn write_key_name(key: KeyCode<'_>, buffer: &mut [u8]) -> Result<usize, NameFault>
    ensures { (result, buffer.new) ≡ to_buffer (key_name key.entry) buffer.old }
{
    match key {
        KeyCode::Char(c) => put_mapped(buffer, c),
        KeyCode::Composed(text) => put(buffer, checked(text)?),
        KeyCode::RawCode(n) => put_numbered(buffer, "raw:", n),
        KeyCode::Physical(place) => put(buffer, phys_name(place)),
        KeyCode::Numpad(n) => put_numbered(buffer, "Numpad", n as u32),
        KeyCode::Function(n) => put_numbered(buffer, "F", n as u32),
        _ => put(buffer, plain_name(key)),
    }
}

// The same of a place.
pub fn write_phys_name(key: PhysKeyCode, buffer: &mut [u8]) -> Result<usize, NameFault>
    ensures { (result, buffer.new) ≡ written (place_name key) buffer.old }
{
    put(buffer, phys_name(key))
}
