// Bytes that are text, its characters and their places.
#![tactic(auto)]

ghost use Rattle.std.specs.Prelude.{◌≡◌, ◌≤◌, true, false, length, MatchResult};
ghost use Rattle.std.specs.Option.{option_map};
ghost use Rattle.std.specs.Str.{chars as decodes};
ghost use Rattle.texts.specs.Texts.{utf8, front, allowed, blank, follows, only, place_after, trim};

// Bytes that are no UTF-8, and how many of them are before the first that is wrong.
#[derive(Clone, Copy, Debug, PartialEq, Eq)]
pub struct NotText {
    pub place: usize,
}

// The bytes as text.
pub fn checked(bytes: &[u8]) -> Result<&str, NotText>
    ensures { MatchResult result (λ s. (s.now ≡ bytes.now) × (utf8 bytes.now ≡ true)) (λ e. (utf8 bytes.now ≡ false) × (e.place ≡ front (length bytes.now) bytes.now)) }
{
    std::str::from_utf8(bytes).map_err(|fault| NotText {
        place: fault.valid_up_to(),
    })
}

// Whether a character can be a key: those from U+E000 to U+F8FF stand for other keys.
pub fn is_allowed(c: char) -> bool
    ensures { result ≡ allowed c }
{
    c < '\u{e000}' || '\u{f8ff}' < c
}

// What follows a beginning of the text.
pub fn after<'a>(text: &'a str, beginning: &str) -> Option<&'a str>
    ensures { option_map (λ x. x.now) result ≡ follows beginning.now text.now }
{
    text.strip_prefix(beginning)
}

// The character of a text that has just one.
pub fn only_char(text: &str) -> Option<char>
    ensures { result ≡ only (decodes text.now) }
{
    let mut chars = text.chars();
    let first = chars.next()?;
    match chars.next() {
        None => Some(first),
        Some(_) => None,
    }
}

// The place of the character after the first `limit`.
pub fn char_past(text: &str, limit: u8) -> Option<usize>
    ensures { result ≡ place_after 0 limit (decodes text.now) }
{
    text.char_indices().nth(limit as usize).map(|(i, _)| i)
}

// The text without the white space around it, and how many bytes of white space stand before it.
pub fn trimmed(text: &str) -> (&str, usize)
    ensures word { result.0.now ≡ trim text.now }
    ensures place { result.1 ≡ blank (decodes text.now) }
    ensures bound { result.1 ≤ length text.now }
{
    let front = text.trim_start();
    (front.trim_end(), text.len() - front.len())
}
