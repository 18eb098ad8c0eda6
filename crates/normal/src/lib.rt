// The normal forms of a key event. Each takes the event and returns it changed.
#![tactic(auto)]

ghost use Rattle.std.specs.Prelude.{◌≡◌};
ghost use Rattle.input_types.specs.Bits.{without, shift};
ghost use Rattle.normal.specs.Forms.{shifted, uncontrolled, surfaced_key, shift_form, ctrl_form, surfaced};

use input_types::control::is_ascii_control;
use input_types::event::KeyEvent;
use input_types::key_code::KeyCode;
use input_types::modifiers::Modifiers;
use input_types::phys_key_code::PhysKeyCode;

// By hand: modifiers have no `difference`, which one use would make a public function.
fn without_shift(modifiers: Modifiers) -> Modifiers
    ensures { result.bits ≡ without modifiers.bits shift }
{
    Modifiers {
        bits: modifiers.bits & !Modifiers::SHIFT.bits,
    }
}

// A letter under Shift becomes its capital, with no Shift.
pub fn normalize_key_shift<'a>(key: KeyCode<'a>, modifiers: Modifiers) -> (KeyCode<'a>, Modifiers)
    ensures { result ≡ shifted key.entry modifiers }
{
    match key {
        KeyCode::Char(c) if modifiers.contains(Modifiers::SHIFT) && c.is_ascii_alphabetic() => (
            KeyCode::Char(c.to_ascii_uppercase()),
            without_shift(modifiers),
        ),
        _ => (key, modifiers),
    }
}

fn without_control<'a>(key: KeyCode<'a>, modifiers: Modifiers) -> KeyCode<'a>
    ensures { result ≡ uncontrolled key.entry modifiers }
{
    match key {
        // A match: `KeyCode::Char`, whose result alone names a lifetime, gets no proof as an argument of `map_or`.
        KeyCode::Char(c) if modifiers.contains(Modifiers::CTRL) => match is_ascii_control(c) {
            Some(letter) => KeyCode::Char(letter),
            None => key,
        },
        _ => key,
    }
}

fn resurfaced<'a>(own: KeyCode<'a>, raw: KeyCode<'a>) -> KeyCode<'a>
    ensures { result ≡ surfaced_key own.entry raw.entry }
{
    match (own, raw) {
        (KeyCode::Control, KeyCode::LeftControl | KeyCode::Physical(PhysKeyCode::LeftControl)) =>
            KeyCode::LeftControl,
        (KeyCode::Control, KeyCode::RightControl | KeyCode::Physical(PhysKeyCode::RightControl)) =>
            KeyCode::RightControl,
        (KeyCode::Alt, KeyCode::LeftAlt | KeyCode::Physical(PhysKeyCode::LeftAlt)) =>
            KeyCode::LeftAlt,
        (KeyCode::Alt, KeyCode::RightAlt | KeyCode::Physical(PhysKeyCode::RightAlt)) =>
            KeyCode::RightAlt,
        (KeyCode::Shift, KeyCode::LeftShift | KeyCode::Physical(PhysKeyCode::LeftShift)) =>
            KeyCode::LeftShift,
        (KeyCode::Shift, KeyCode::RightShift | KeyCode::Physical(PhysKeyCode::RightShift)) =>
            KeyCode::RightShift,
        _ => own,
    }
}

pub trait Normal: Sized {
    ghost shift_form: { Self → Self };

    ghost ctrl_form: { Self → Self };

    ghost positional_form: { Self → Self };

    // A letter under Shift becomes its capital, with no Shift.
    fn normalize_shift(self) -> Self
        ensures { result ≡ shift_form self };

    // A control code under Ctrl becomes the character that it comes from.
    fn normalize_ctrl(self) -> Self
        ensures { result ≡ ctrl_form self };

    // A plain Control, Alt or Shift becomes the left or the right one, where the raw event says which.
    fn resurface_positional_modifier_key(self) -> Self
        ensures { result ≡ positional_form self };
}

impl Normal for KeyEvent<'_> {
    ghost shift_form = { shift_form };

    ghost ctrl_form = { ctrl_form };

    ghost positional_form = { surfaced };

    fn normalize_shift(self) -> Self {
        let (key, modifiers) = normalize_key_shift(self.key, self.modifiers);
        KeyEvent {
            key,
            modifiers,
            ..self
        }
    }

    fn normalize_ctrl(self) -> Self {
        KeyEvent {
            key: without_control(self.key, self.modifiers),
            ..self
        }
    }

    fn resurface_positional_modifier_key(self) -> Self {
        let mut event = self;
        if let Some(raw) = &event.raw {
            event.key = resurfaced(event.key, raw.key);
        }
        event
    }
}
