// The rules by a key's kind.
ghost use Rattle.std.specs.Prelude.{◌≡◌, ◌≤◌, slice_index};
ghost use Rattle.std.specs.Option.{option_map};
ghost use Rattle.report.specs.Telling.{told_means};
ghost use Rattle.events.specs.Kinds.{plain_kind, character};
ghost use Rattle.events.specs.Passed.{event_of};
ghost use Rattle.rules.specs.Strokes.{plain_stroke};
ghost use Rattle.rules.specs.Rules.{ruled, told, entering, function_numbers, function_tells, functional, late};

use crate::input::Input;
use crate::making::{bare_key, full_key};
use crate::stroke::Stroke;
use events::kind::Kind;
use input_types::flags::KittyKeyboardFlags;
use layout::Layout;
use report::ending::Last;
use report::letters::Letters;
use report::told::Told;

// The number of each of the first twelve function keys. A match: a table would want the place proved to lie in it
// at each read, and no caller reads it whole. Apart from its caller it is compiled to a table all the same.
#[inline(never)]
fn function_number(n: u8) -> u32
    requires { (1 ≤ n) × (n ≤ 12) }
    ensures value { result ≡ slice_index function_numbers n }
    ensures bound { result ≤ 24 }
{
    match n {
        1 => 11,
        2 => 12,
        3 => 13,
        4 => 14,
        5 => 15,
        6 => 17,
        7 => 18,
        8 => 19,
        9 => 20,
        10 => 21,
        11 => 23,
        _ => 24,
    }
}

// The first twelve end in ~, and the next twelve in u, with no text.
#[inline(always)]
fn function_rule<'a>(n: u8, stroke: &Stroke<'a>) -> Option<Told<'a>>
    ensures { ruled (option_map told_means result) ≡ function_tells n (plain_stroke stroke.now) }
{
    match n {
        1..=12 => Some(bare_key(function_number(n), Last::Tilde, stroke)),
        13..=24 => {
            // Field by field: a struct with a fact beside its fields takes no `..*stroke`.
            let wordless = Stroke {
                sum: stroke.sum,
                direction: stroke.direction,
                letters: Letters::none(),
            };
            Some(full_key(57363 + n as u32, None, None, &wordless))
        }
        _ => None,
    }
}

impl<'a> Input<'a> {
    // Whether a release is one of Enter, Tab or Backspace that stays silent.
    #[inline(always)]
    fn is_entering(&self, c: char) -> bool
        ensures { result ≡ entering self.now.flags.bits (event_of self.now.key).down c }
    {
        !self.key.is_down()
            && !self
                .flags
                .contains(KittyKeyboardFlags::REPORT_ALL_KEYS_AS_ESCAPE_CODES)
            && matches!(c, '\r' | '\t' | '\u{8}')
    }

    #[inline(always)]
    fn char_rules<L: Layout>(&self, layout: &L, c: char, stroke: &Stroke<'a>) -> Option<Told<'a>>
        ensures { option_map told_means result ≡ told (late (L.base layout.now) self.now.flags.bits (event_of self.now.key) (character c) (plain_stroke stroke.now)) }
    {
        if c == '\u{7f}' {
            return Some(bare_key(3, Last::Tilde, stroke));
        }
        if self.is_entering(c) {
            return None;
        }
        Some(self.character_key(layout, c, stroke))
    }

    // A key of a raw event by its number among the functional keys.
    #[inline(always)]
    fn functional_rule(&self, stroke: &Stroke<'a>) -> Option<Told<'a>>
        ensures { ruled (option_map told_means result) ≡ functional self.now.flags.bits (event_of self.now.key).raw (plain_stroke stroke.now) }
    {
        if !self
            .flags
            .contains(KittyKeyboardFlags::REPORT_ALL_KEYS_AS_ESCAPE_CODES)
        {
            return None;
        }
        let number = self.key.raw_code()?;
        if number == 2 || number == 57427 {
            Some(bare_key(number, Last::Tilde, stroke))
        } else {
            Some(full_key(number, None, None, stroke))
        }
    }

    #[inline(always)]
    pub(crate) fn late_rules<L: Layout>(
        &self,
        layout: &L,
        kind: Kind,
        stroke: &Stroke<'a>,
    ) -> Option<Told<'a>>
        ensures { option_map told_means result ≡ told (late (L.base layout.now) self.now.flags.bits (event_of self.now.key) (plain_kind kind.entry) (plain_stroke stroke.now)) }
    {
        match kind {
            Kind::Char(c) => self.char_rules(layout, c, stroke),
            Kind::Numbered(n) => Some(bare_key(n as u32, Last::Tilde, stroke)),
            Kind::Lettered(last) => Some(bare_key(1, last, stroke)),
            // A match: the closure of `or_else` would have to say again what `functional_rule` promises.
            Kind::Function(n) => match function_rule(n, stroke) {
                Some(report) => Some(report),
                None => self.functional_rule(stroke),
            },
            Kind::Composed(_) | Kind::Numpad(_) | Kind::Other => self.functional_rule(stroke),
        }
    }
}
