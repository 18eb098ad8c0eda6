// What a character key tells.
ghost use Rattle.std.specs.Prelude.{◌≡◌, true};
ghost use Rattle.report.specs.Sound.{coded};
ghost use Rattle.report.specs.Telling.{told_means};
ghost use Rattle.events.specs.Events.{phys_raw, reported};
ghost use Rattle.events.specs.Passed.{event_of};
ghost use Rattle.rules.specs.Strokes.{plain_stroke};
ghost use Rattle.rules.specs.Rules.{old_way, controlled, old_form, shifted_code, given_by, layout_code, new_form, character_key};

use crate::early::as_erased;
use crate::input::Input;
use crate::making::full_key;
use crate::stroke::Stroke;
use events::kind::Kind;
use input_types::control::ctrl_mapping;
use input_types::flags::KittyKeyboardFlags;
use input_types::modifiers::Modifiers;
use input_types::phys_key_code::PhysKeyCode;
use layout::Layout;
use report::scalar::Scalar;
use report::told::Told;

// What Ctrl makes of a character.
#[inline(always)]
fn with_ctrl(c: char) -> char
    ensures { result ≡ controlled c }
{
    let capital = c.to_ascii_uppercase();
    ctrl_mapping(capital).unwrap_or(capital)
}

// A character as terminals without the protocol write it.
#[inline(always)]
fn old_form<'a>(own: Modifiers, c: char) -> Told<'a>
    ensures { told_means result ≡ old_form own.bits c }
{
    let written = if own.contains(Modifiers::CTRL) {
        with_ctrl(c)
    } else {
        c
    };
    if own.contains(Modifiers::ALT) {
        Told::Old(Scalar::new(written))
    } else {
        Told::Text(Scalar::new(written))
    }
}

// The character that a physical key means. Delete is none: in a sequence 127 is Backspace.
#[inline(always)]
fn given_by(phys: Option<PhysKeyCode>) -> Option<char>
    ensures { result ≡ given_by phys }
{
    match Kind::from(phys?.to_key_code()) {
        Kind::Char('\u{7f}') => None,
        Kind::Char(c) => Some(as_erased(c)),
        _ => None,
    }
}

impl<'a> Input<'a> {
    // Whether a character goes the old way.
    #[inline(always)]
    fn is_old(&self, c: char) -> bool
        ensures { result ≡ old_way self.now.flags.bits (event_of self.now.key).down (event_of self.now.key).modifiers c }
    {
        let own = self.key.modifiers();
        self.key.is_down()
            && c.is_ascii_graphic()
            && !self
                .flags
                .contains(KittyKeyboardFlags::REPORT_ALTERNATE_KEYS)
            && !self
                .flags
                .contains(KittyKeyboardFlags::REPORT_ALL_KEYS_AS_ESCAPE_CODES)
            && !own.contains(Modifiers::SUPER)
            && !(self
                .flags
                .contains(KittyKeyboardFlags::DISAMBIGUATE_ESCAPE_CODES)
                && (own.contains(Modifiers::CTRL) || own.contains(Modifiers::ALT)))
    }

    // That a code is in range is a clause: `Sequence` has plain numbers as fields, and holds the fact of them.
    #[inline(always)]
    fn shifted_code(&self, c: char, base: char) -> Option<u32>
        ensures value { result ≡ shifted_code self.now.flags.bits (reported (event_of self.now.key)) c base }
        ensures bound { coded result ≡ true }
    {
        let reported = self.key.reported_modifiers();
        if self
            .flags
            .contains(KittyKeyboardFlags::REPORT_ALTERNATE_KEYS)
            && reported.contains(Modifiers::SHIFT)
            && c != base
        {
            Some(c as u32)
        } else {
            None
        }
    }

    #[inline(always)]
    fn layout_code(&self, number: char) -> Option<u32>
        ensures value { result ≡ layout_code self.now.flags.bits (phys_raw (event_of self.now.key).raw) number }
        ensures bound { coded result ≡ true }
    {
        if !self
            .flags
            .contains(KittyKeyboardFlags::REPORT_ALTERNATE_KEYS)
        {
            return None;
        }
        let base = given_by(self.key.raw_phys())?;
        if base == number {
            None
        } else {
            Some(base as u32)
        }
    }

    // A character by its base, with what goes along with it.
    #[inline(always)]
    fn new_form<L: Layout>(&self, layout: &L, c: char, stroke: &Stroke<'a>) -> Told<'a>
        ensures { told_means result ≡ new_form (L.base layout.now) self.now.flags.bits (event_of self.now.key) c (plain_stroke stroke.now) }
    {
        let number = layout.base_of(c);
        let shifted = self.shifted_code(c, number);
        let base = self.layout_code(number);
        full_key(number as u32, shifted, base, stroke)
    }

    #[inline(always)]
    pub(crate) fn character_key<L: Layout>(
        &self,
        layout: &L,
        c: char,
        stroke: &Stroke<'a>,
    ) -> Told<'a>
        ensures { told_means result ≡ character_key (L.base layout.now) self.now.flags.bits (event_of self.now.key) c (plain_stroke stroke.now) }
    {
        if self.is_old(c) {
            old_form(self.key.modifiers(), c)
        } else {
            self.new_form(layout, as_erased(c), stroke)
        }
    }
}
