// Letters, one after another.
ghost use Rattle.std.specs.Prelude.{◌≡◌, [], ◌∷◌, length, MatchOption};
ghost use Rattle.std.specs.Str.{chars};
ghost use Rattle.report.specs.Letters.{keeps, shown, spelled};

use crate::letters::{Letters, Spelling};
use crate::scalar::Scalar;

// Control codes are no text.
#[inline(always)]
pub fn is_kept(c: char) -> bool
    ensures { result ≡ keeps c }
{
    ' ' <= c && !('\u{80}' <= c && c <= '\u{9f}')
}

// The first character that is kept, and the text behind it.
fn first_kept(text: &str) -> Option<(char, &str)>
    ensures { MatchOption result (shown (chars text.now) ≡ []) (λ r. shown (chars text.now) ≡ r.0 ∷ shown (chars r.1.now)) }
{
    let mut rest = text.chars();
    while let Some(c) = rest.next() {
        if is_kept(c) {
            return Some((c, rest.as_str()));
        }
    }
    None
}

impl<'a> Spelling<'a> {
    fn split_first(self) -> Option<(char, Spelling<'a>)>
        ensures { MatchOption result (spelled self.entry ≡ []) (λ r. spelled self.entry ≡ r.0 ∷ spelled r.1) }
    {
        match self {
            Spelling::None => None,
            Spelling::One(c) => Some((c.code(), Spelling::None)),
            Spelling::Text(text) => {
                let (c, rest) = first_kept(text)?;
                Some((c, Spelling::Text(rest)))
            }
            Spelling::Row(row) => {
                let (c, rest) = row.split_first()?;
                Some((*c, Spelling::Row(rest)))
            }
        }
    }
}

impl<'a> Letters<'a> {
    #[inline(always)]
    pub fn none() -> Letters<'a>
        ensures { spelled result.spelling ≡ [] }
    {
        Letters {
            spelling: Spelling::None,
        }
    }

    // The letter of one character, or none if it is a control code.
    #[inline(always)]
    pub fn one(c: char) -> Letters<'a>
        ensures { spelled result.spelling ≡ shown (c ∷ []) }
    {
        let spelling = if is_kept(c) {
            Spelling::One(Scalar::new(c))
        } else {
            Spelling::None
        };
        Letters { spelling }
    }

    // The first letter, and those behind it.
    pub fn split_first(self) -> Option<(char, Letters<'a>)>
        ensures { MatchOption result (spelled self.entry.spelling ≡ []) (λ r. spelled self.entry.spelling ≡ r.0 ∷ spelled r.1.spelling) }
    {
        let (c, spelling) = self.spelling.split_first()?;
        Some((c, Letters { spelling }))
    }

    // How many letters there are.
    pub fn count(self) -> u8
        ensures { result ≡ length (spelled self.entry.spelling) }
    {
        let mut rest = self;
        for n in 0..32u8 {
            let Some((_, behind)) = rest.split_first() else {
                return n;
            };
            rest = behind;
        }
        32
    }
}
