// The numbers of the variants, by which a table finds the name of a key.
ghost use Rattle.std.specs.Prelude.{◌≡◌, ℕ};
ghost use Rattle.std.specs.Option.{option_map};
ghost use Rattle.tables.specs.Entries.{entries};
ghost use Rattle.tables.specs.Tables.{name_for};
ghost use Rattle.names.specs.Variants.{key_number, place_number};

use input_types::key_code::KeyCode;
use input_types::phys_key_code::PhysKeyCode;
use tables::Named;

// A type whose variants have numbers, whatever they hold.
// By number: there is no `mem::discriminant`, and `==` compares what a variant holds too.
pub trait Variant {
    ghost variant: { Self → ℕ };

    fn variant_number(&self) -> u8
        ensures { result ≡ variant self.now };
}

// The first name that a table has for the variant of a value.
pub fn name_of<T: Variant>(table: &[Named<T>], value: &T) -> Option<&'static str>
    ensures { option_map (λ x. x.now) result ≡ name_for T.Variant.variant (entries table.now) (T.Variant.variant value.now) }
{
    // A loop, as in `tables::find`: with `find` and `map` the proof did not close.
    for e in table {
        if e.1.variant_number() == value.variant_number() {
            return Some(e.0);
        }
    }
    None
}

impl Variant for PhysKeyCode {
    ghost variant = { place_number };

    fn variant_number(&self) -> u8 {
        *self as u8
    }
}

impl Variant for KeyCode<'_> {
    ghost variant = { key_number };

    fn variant_number(&self) -> u8 {
        use KeyCode::*;
        match *self {
            Char(_) => 0,
            Composed(_) => 1,
            RawCode(_) => 2,
            Physical(_) => 3,
            Hyper => 4,
            Super => 5,
            Meta => 6,
            Cancel => 7,
            Clear => 8,
            Shift => 9,
            LeftShift => 10,
            RightShift => 11,
            Control => 12,
            LeftControl => 13,
            RightControl => 14,
            Alt => 15,
            LeftAlt => 16,
            RightAlt => 17,
            Pause => 18,
            CapsLock => 19,
            VoidSymbol => 20,
            PageUp => 21,
            PageDown => 22,
            End => 23,
            Home => 24,
            LeftArrow => 25,
            RightArrow => 26,
            UpArrow => 27,
            DownArrow => 28,
            Select => 29,
            Print => 30,
            Execute => 31,
            PrintScreen => 32,
            Insert => 33,
            Help => 34,
            LeftWindows => 35,
            RightWindows => 36,
            Applications => 37,
            Sleep => 38,
            Numpad(_) => 39,
            Multiply => 40,
            Add => 41,
            Separator => 42,
            Subtract => 43,
            Decimal => 44,
            Divide => 45,
            Function(_) => 46,
            NumLock => 47,
            ScrollLock => 48,
            Copy => 49,
            Cut => 50,
            Paste => 51,
            BrowserBack => 52,
            BrowserForward => 53,
            BrowserRefresh => 54,
            BrowserStop => 55,
            BrowserSearch => 56,
            BrowserFavorites => 57,
            BrowserHome => 58,
            VolumeMute => 59,
            VolumeDown => 60,
            VolumeUp => 61,
            MediaNextTrack => 62,
            MediaPrevTrack => 63,
            MediaStop => 64,
            MediaPlayPause => 65,
            ApplicationLeftArrow => 66,
            ApplicationRightArrow => 67,
            ApplicationUpArrow => 68,
            ApplicationDownArrow => 69,
            KeyPadHome => 70,
            KeyPadEnd => 71,
            KeyPadPageUp => 72,
            KeyPadPageDown => 73,
            KeyPadBegin => 74,
        }
    }
}
