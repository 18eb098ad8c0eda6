// The layout of a US keyboard.
ghost use Rattle.std.specs.Prelude.{◌≡◌, ◌≤◌};
ghost use Rattle.layout.specs.Unshifted.{lowered, to_lower, capitals, base_of};
ghost use Rattle.layout.specs.Bases.{rests};
ghost use Rattle.layout.specs.Bases;

use crate::Layout;

// By hand: the rules lower the case of these letters alone, and `to_lowercase` that of every script.
// The lower-case form of a letter of Latin or Cyrillic script stands this far behind it; 0 for any other character.
fn to_lower(c: char) -> u32
    ensures value { result ≡ to_lower capitals c }
    ensures bound { result ≤ 80 }
    ensures past_capitals { 1072 ≤ c → result ≡ 0 }
{
    match c {
        'A'..='Z' | 'À'..='Ö' | 'Ø'..='Þ' | 'А'..='Я' => 32,
        'Ѐ'..='Џ' => 80,
        'Ā'..='Į' | 'Ĳ'..='Ķ' | 'Ŋ'..='Ŷ' if c as u32 % 2 == 0 => 1,
        'Ĺ'..='Ň' | 'Ź'..='Ž' if c as u32 % 2 == 1 => 1,
        _ => 0,
    }
}

fn lowercase(c: char) -> char
    ensures { result ≡ lowered c }
{
    char::from_u32(c as u32 + to_lower(c)).unwrap_or(c)
}

// What the key of a character gives without Shift, on a US keyboard.
pub fn us_layout_unshift(c: char) -> char
    ensures { result ≡ base_of c }
{
    match c {
        '!' => '1',
        '@' => '2',
        '#' => '3',
        '$' => '4',
        '%' => '5',
        '^' => '6',
        '&' => '7',
        '*' => '8',
        '(' => '9',
        ')' => '0',
        '_' => '-',
        '+' => '=',
        '~' => '`',
        '{' => '[',
        '}' => ']',
        '|' => '\\',
        ':' => ';',
        '"' => '\'',
        '<' => ',',
        '>' => '.',
        '?' => '/',
        'Ÿ' => 'ÿ',
        c => lowercase(c),
    }
}

#[derive(Clone, Copy, Debug, PartialEq, Eq)]
pub struct Us;

impl Layout for Us {
    ghost base = { λ _ c. base_of c };

    ghost settled = { λ l c. rests c };

    ghost kept = { λ l c h. Bases.kept c h };

    fn base_of(&self, c: char) -> char {
        us_layout_unshift(c)
    }
}
