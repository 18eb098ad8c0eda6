// What a key tells under the settings in force.
ghost use Rattle.std.specs.Prelude.{◌≡◌, ℕ, true, IfSome, Some as Says};
ghost use Rattle.std.specs.Option.{option_map};
ghost use Rattle.report.specs.Meanings.{Clear};
ghost use Rattle.report.specs.Telling.{told_means};
ghost use Rattle.input_types.specs.Bits.{holds, disambiguate};
ghost use Rattle.events.specs.Passed.{event_of};
ghost use Rattle.rules.specs.Laws.{IfTold, Own, CharacterKey};
ghost use Rattle.rules.specs.Strokes.{plain_stroke};
ghost use Rattle.rules.specs.Rules.{behind_text, hushed, plain_text, stroke, tells, told, told_text};

use crate::early::keypad_rule;
use crate::input::Input;
use crate::stroke::Stroke;
use events::checked::Checked;
use input_types::flags::KittyKeyboardFlags;
use input_types::modifiers::KeyboardLedStatus;
use layout::Layout;
use report::scalar::Scalar;
use report::told::Told;

impl<'a> Input<'a> {
    #[inline(always)]
    fn stroke(&self) -> Stroke<'a>
        ensures { plain_stroke result ≡ stroke self.now.flags.bits (event_of self.now.key) }
    {
        Stroke {
            sum: self.key.modifier_sum(),
            direction: self.key.told_direction(),
            letters: self.typed_letters(),
        }
    }

    // What the rules behind that of plain text say. By value: what lends its address out stands in
    // memory, for plain text too.
    #[inline(always)]
    fn said_behind_text<L: Layout>(self, layout: &L) -> Option<Told<'a>>
        ensures { option_map told_means result ≡ told (behind_text (L.base layout.now) self.entry.flags.bits (event_of self.entry.key)) }
    {
        let stroke = self.stroke();
        let lock = self.key.leds().contains(KeyboardLedStatus::NUM_LOCK);
        if let Some(report) = keypad_rule(lock, self.key.guessed_phys(), &stroke) {
            return Some(report);
        }
        self.late_rules(layout, self.key.kind(), &stroke)
    }

    // Whether the key is a release of which nothing is told.
    #[inline(always)]
    fn is_hushed(&self) -> bool
        ensures { result ≡ hushed self.now.flags.bits (event_of self.now.key).down }
    {
        !self.key.is_down() && !self.flags.contains(KittyKeyboardFlags::REPORT_EVENT_TYPES)
    }

    // What the first rule that fits says, if it says anything.
    #[inline(always)]
    fn first_said<L: Layout>(self, layout: &L) -> Option<Told<'a>>
        ensures { option_map told_means result ≡ tells (L.base layout.now) self.entry.flags.bits (event_of self.entry.key) }
    {
        if self.is_hushed() {
            return None;
        }
        if let Some(c) = self.text_rule() {
            return Some(Told::Text(c));
        }
        self.said_behind_text(layout)
    }
}

// The character of a key that the rule of plain text tells; what other keys tell, `tell` says. A caller may take the
// short way to the bytes of what is typed most.
#[inline(always)]
pub fn tell_text(flags: KittyKeyboardFlags, key: Checked) -> Option<Scalar>
    ensures text { option_map plain_text result ≡ told_text flags.bits (event_of key.entry) }
    ensures told { (base : ℕ → ℕ) → IfSome result (λ c. tells base flags.bits (event_of key.entry) ≡ Says (plain_text c)) }
{
    Input { flags, key }.text_rule()
}

// What an event that passed the check tells, or nothing. Where escape codes are disambiguated it is clear;
// and a character key tells a number that the layout leaves alone and that stands for no other key.
#[inline(always)]
pub fn tell<'a, L: Layout>(
    layout: &L,
    flags: KittyKeyboardFlags,
    key: Checked<'a>,
) -> Option<Told<'a>>
    ensures value { option_map told_means result ≡ tells (L.base layout.now) flags.bits (event_of key.entry) }
    ensures clear { holds flags.bits disambiguate ≡ true → IfTold Clear (option_map told_means result) }
    ensures own { (c : ℕ) → CharacterKey (event_of key.entry) c → IfTold (Own (L.base layout.now)) (option_map told_means result) }
{
    Input { flags, key }.first_said(layout)
}
