// The words of a query: keys, places, bits, characters and bytes.
ghost use Rattle.std.specs.Prelude.{◌≡◌, ◌≢◌, ℕ, [], ◌∷◌};
ghost use Rattle.std.specs.Result.{result_ok};
ghost use Rattle.names.specs.Reads.{of_text, place_named};

use crate::refusal::Bad;
use hex::FromHexError;
use input_types::key_code::KeyCode;
use input_types::phys_key_code::PhysKeyCode;
use key_names::read_key_name;
use names::phys_names::read_phys_name;
use std::alloc::Global;
use std::str::FromStr;

// Words with a space between, those that are still to be read.
// Not by `split`: an empty line has no word, and `are_just` looks at all that is left.
// Without the allocator: each function that allocates says so by taking it.
#[derive(Clone, Copy)]
pub struct Words<'a> {
    rest: &'a str,
}

impl<'a> Words<'a> {
    pub(crate) fn new(line: &'a str) -> Words<'a> {
        Words { rest: line }
    }

    // Whether this word alone is left.
    pub(crate) fn are_just(&self, word: &str) -> bool {
        self.rest == word
    }

    pub(crate) fn next(&mut self) -> Result<&'a str, Bad> {
        if self.rest.is_empty() {
            return Err(Bad::Words);
        }
        let (word, rest) = self.rest.split_once(' ').unwrap_or((self.rest, ""));
        self.rest = rest;
        Ok(word)
    }

    // No word is left.
    pub(crate) fn end(&self) -> Result<(), Bad> {
        if self.rest.is_empty() {
            Ok(())
        } else {
            Err(Bad::Words)
        }
    }

    // The next word, behind which there is none.
    pub(crate) fn last(&mut self) -> Result<&'a str, Bad> {
        let word = self.next()?;
        self.end()?;
        Ok(word)
    }
}

// What a word stands for, where a dash stands for nothing.
pub(crate) fn optional<T, F: FnOnce(&str) -> Result<T, Bad>>(
    word: &str,
    read: F,
) -> Result<Option<T>, Bad>
    requires { F.IsAlwaysCallable read }
{
    if word == "-" {
        Ok(None)
    } else {
        Ok(Some(read(word)?))
    }
}

// Bytes in hex; a dash stands for none.
pub(crate) fn read_bytes(heap: Global, word: &str) -> Result<Vec<u8>, Bad> {
    if word == "-" {
        return Ok(Vec::new(heap));
    }
    hex::decode(heap, word).map_err(|fault| match fault {
        // A wrong digit is told though there was no memory for the bytes.
        FromHexError::OutOfMemory if word.bytes().all(|b| b.is_ascii_hexdigit()) => Bad::Memory,
        _ => Bad::Hex,
    })
}

// A character by its code in hex.
// Not by `from_str_radix`: it would take a sign in front.
pub(crate) fn read_char(word: &str) -> Result<char, Bad> {
    let code = word.bytes().try_fold(0u32, |code, b| {
        code.checked_mul(16)?
            .checked_add(char::from(b).to_digit(16)?)
    });
    code.and_then(char::from_u32).ok_or(Bad::Hex)
}

pub(crate) fn read_number<T: FromStr>(word: &str) -> Result<T, Bad>
where
    T::Err: Drop,
{
    word.parse().map_err(|_| Bad::Number)
}

// As `read_number`, with a refusal of its own.
pub(crate) fn read_bits(word: &str) -> Result<u16, Bad> {
    word.parse().map_err(|_| Bad::Bits)
}

// A key whose text, if it is composed, is in `text`.
pub(crate) fn read_key<'a>(word: &str, text: &'a [u8]) -> Result<KeyCode<'a>, Bad> {
    match word.split_once(':') {
        Some(("c", code)) => Ok(KeyCode::Char(read_char(code)?)),
        Some(("s", _)) => Ok(KeyCode::Composed(text)),
        Some(("p", place)) => Ok(KeyCode::Physical(read_place(place)?)),
        Some(("r", number)) => Ok(KeyCode::RawCode(read_number(number)?)),
        Some(("n", number)) => Ok(KeyCode::Numpad(read_number(number)?)),
        Some(("f", number)) => Ok(KeyCode::Function(read_number(number)?)),
        _ => read_plain_key(word),
    }
}

// The names that `read_key_name` does not read: a query may name every key.
fn read_plain_key(word: &str) -> Result<KeyCode<'static>, Bad> {
    match word {
        "KeyPadHome" => Ok(KeyCode::KeyPadHome),
        "KeyPadEnd" => Ok(KeyCode::KeyPadEnd),
        "KeyPadPageUp" => Ok(KeyCode::KeyPadPageUp),
        "KeyPadPageDown" => Ok(KeyCode::KeyPadPageDown),
        "KeyPadBegin" => Ok(KeyCode::KeyPadBegin),
        _ => by_own_name(word),
    }
}

// A key that is named as its case is.
fn by_own_name(word: &str) -> Result<KeyCode<'static>, Bad> {
    match read_key_name(word.as_bytes()) {
        Ok(KeyCode::Char(_) | KeyCode::Numpad(_) | KeyCode::Function(_)) | Err(_) => Err(Bad::Key),
        Ok(key) => Ok(key),
    }
}

// A place by the name of its case: a letter is a capital, a digit stands after K. Four have no name that is read.
pub(crate) fn read_place(word: &str) -> Result<PhysKeyCode, Bad> {
    match word {
        "F21" => Ok(PhysKeyCode::F21),
        "F22" => Ok(PhysKeyCode::F22),
        "F23" => Ok(PhysKeyCode::F23),
        "F24" => Ok(PhysKeyCode::F24),
        _ => by_read_name(word),
    }
}

// A place whose name can be read.
fn by_read_name(word: &str) -> Result<PhysKeyCode, Bad>
    ensures digit { (d : ℕ) → word.now ≡ 75 ∷ d ∷ [] → result_ok result ≡ result_ok (of_text place_named (d ∷ [])) }
    ensures other { ((d : ℕ) → word.now ≢ 75 ∷ d ∷ []) → result_ok result ≡ result_ok (of_text place_named word.now) }
{
    let name = match word.strip_prefix("K") {
        Some(digit) if digit.len() == 1 => digit,
        _ => word,
    };
    read_phys_name(name.as_bytes()).map_err(|_| Bad::Place)
}
