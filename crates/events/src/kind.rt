// What kind of key a key is.
ghost use Rattle.std.specs.Prelude.{◌≡◌};
ghost use Rattle.events.specs.Kinds.{kind_of, plain_kind};

use input_types::key_code::KeyCode;
use report::ending::Last;

#[derive(Clone, Copy, Debug, PartialEq, Eq)]
pub enum Kind<'a> {
    Char(char),
    Composed(&'a [u8]),
    Numpad(u8),
    Function(u8),
    // A key of the editing block, with its number.
    Numbered(u8),
    // An arrow, Home or End, with its final.
    Lettered(Last),
    Other,
}

impl<'a> From<KeyCode<'a>> for Kind<'a> {
    ghost from_gives = { λ k r. plain_kind r ≡ kind_of k };

    #[inline(always)]
    fn from(key: KeyCode<'a>) -> Kind<'a> {
        match key {
            KeyCode::Char(c) => Kind::Char(c),
            KeyCode::Composed(bytes) => Kind::Composed(bytes),
            KeyCode::Numpad(n) => Kind::Numpad(n),
            KeyCode::Function(n) => Kind::Function(n),
            KeyCode::Insert => Kind::Numbered(2),
            KeyCode::PageUp => Kind::Numbered(5),
            KeyCode::PageDown => Kind::Numbered(6),
            KeyCode::UpArrow => Kind::Lettered(Last::Up),
            KeyCode::DownArrow => Kind::Lettered(Last::Down),
            KeyCode::RightArrow => Kind::Lettered(Last::Right),
            KeyCode::LeftArrow => Kind::Lettered(Last::Left),
            KeyCode::Home => Kind::Lettered(Last::Home),
            KeyCode::End => Kind::Lettered(Last::End),
            _ => Kind::Other,
        }
    }
}

// The conversion above, as a function.
pub fn kind_of<'a>(key: KeyCode<'a>) -> Kind<'a>
    ensures { plain_kind result ≡ kind_of key.entry }
{
    key.into()
}
