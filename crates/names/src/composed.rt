// Keys that an input method composed.
ghost use Rattle.std.specs.Prelude.{◌≡◌};
ghost use Rattle.names.specs.Composed.{composed_of};
ghost use Rattle.names.specs.Reads.{char_key};

use crate::fault::NameFault;
use input_types::key_code::KeyCode;
use texts::{char_past, checked, is_allowed, only_char};

// The key of a character.
pub fn char_key(c: char) -> Result<KeyCode<'static>, NameFault>
    ensures { result ≡ char_key c }
{
    if is_allowed(c) {
        Ok(KeyCode::Char(c))
    } else {
        Err(NameFault::NotAllowed)
    }
}

// A single character is the key of that character, since keys can be bound to it; any other text stays whole.
pub fn composed(bytes: &[u8]) -> Result<KeyCode<'_>, NameFault>
    ensures { result ≡ composed_of bytes.entry }
{
    let text = checked(bytes)?;
    if let Some(c) = only_char(text) {
        return char_key(c);
    }
    match char_past(text, 32) {
        Some(place) => Err(NameFault::TooLong(place)),
        None => Ok(KeyCode::Composed(bytes)),
    }
}
