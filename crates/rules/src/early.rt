// The rules that look at more than a key's kind: plain text, and the keypad.
ghost use Rattle.std.specs.Prelude.{◌≡◌};
ghost use Rattle.std.specs.Option.{option_map};
ghost use Rattle.events.specs.Passed.{event_of};
ghost use Rattle.report.specs.Telling.{told_means};
ghost use Rattle.rules.specs.Strokes.{plain_stroke};
ghost use Rattle.rules.specs.Rules.{ruled, erased, plainly, plain_text, texts, keypad};

use crate::input::Input;
use crate::keypad::pad_code;
use crate::making::{bare_key, full_key};
use crate::stroke::Stroke;
use events::kind::Kind;
use input_types::flags::KittyKeyboardFlags;
use input_types::modifiers::Modifiers;
use input_types::phys_key_code::PhysKeyCode;
use report::ending::Last;
use report::scalar::Scalar;
use report::told::Told;

// Backspace is written as DEL.
#[inline(always)]
pub(crate) fn as_erased(c: char) -> char
    ensures { result ≡ erased c }
{
    if c == '\u{8}' { '\u{7f}' } else { c }
}

impl<'a> Input<'a> {
    // Whether a press of a character is its own text.
    #[inline(always)]
    fn is_plain(&self, c: char) -> bool
        ensures { result ≡ plainly self.now.flags.bits (event_of self.now.key).down (event_of self.now.key).modifiers c }
    {
        self.key.is_down()
            && self.key.modifiers() == Modifiers::NONE
            && !self
                .flags
                .contains(KittyKeyboardFlags::REPORT_ALL_KEYS_AS_ESCAPE_CODES)
            && !(c == '\u{1b}'
                && self
                    .flags
                    .contains(KittyKeyboardFlags::DISAMBIGUATE_ESCAPE_CODES))
            && c != '\u{7f}'
    }

    // The character that a press types as plain text.
    #[inline(always)]
    pub(crate) fn text_rule(&self) -> Option<Scalar>
        ensures { ruled (option_map plain_text result) ≡ texts self.now.flags.bits (event_of self.now.key).down (event_of self.now.key).modifiers (event_of self.now.key).key.kind }
    {
        match self.key.kind() {
            Kind::Char(c) if self.is_plain(c) => Some(Scalar::new(as_erased(c))),
            _ => None,
        }
    }
}

// A key of the keypad; 1 is a key's number in its sequence, as the others are. The middle one without Num Lock has a final of its own.
#[inline(always)]
pub(crate) fn keypad_rule<'a>(
    lock: bool,
    guess: Option<PhysKeyCode>,
    stroke: &Stroke<'a>,
) -> Option<Told<'a>>
    ensures { ruled (option_map told_means result) ≡ keypad lock guess (plain_stroke stroke.now) }
{
    match pad_code(guess?, lock)? {
        1 => Some(bare_key(1, Last::Begin, stroke)),
        number => Some(full_key(number, None, None, stroke)),
    }
}
