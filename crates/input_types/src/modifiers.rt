// Modifier keys that are held, and lights that are on. Written out: `bitflag_items!` gives a
// type's functions contracts only where its table of names is written again by hand, which is longer than they are.
ghost use Rattle.std.specs.Prelude.{◌≡◌, ◌≤◌};
ghost use Rattle.input_types.specs.Bits.{holds, named_modifiers, named_lights, without, positional, weight, xterm_of, sum_of};

#[derive(Clone, Copy, Debug, PartialEq, Eq)]
pub struct Modifiers {
    pub bits: u16,
}

#[derive(Clone, Copy, Debug, PartialEq, Eq)]
pub struct KeyboardLedStatus {
    pub bits: u8,
}

fn weight_of(present: bool, number: u8) -> u8
    ensures value { result ≡ weight present number }
    ensures bound { result ≤ number }
{
    if present { number } else { 0 }
}

impl Modifiers {
    pub const NONE: Modifiers = Modifiers { bits: 0 };

    pub const SHIFT: Modifiers = Modifiers { bits: 1 << 1 };

    pub const ALT: Modifiers = Modifiers { bits: 1 << 2 };

    pub const CTRL: Modifiers = Modifiers { bits: 1 << 3 };

    pub const SUPER: Modifiers = Modifiers { bits: 1 << 4 };

    pub const LEFT_ALT: Modifiers = Modifiers { bits: 1 << 5 };

    pub const RIGHT_ALT: Modifiers = Modifiers { bits: 1 << 6 };

    pub const LEADER: Modifiers = Modifiers { bits: 1 << 7 };

    pub const LEFT_CTRL: Modifiers = Modifiers { bits: 1 << 8 };

    pub const RIGHT_CTRL: Modifiers = Modifiers { bits: 1 << 9 };

    pub const LEFT_SHIFT: Modifiers = Modifiers { bits: 1 << 10 };

    pub const RIGHT_SHIFT: Modifiers = Modifiers { bits: 1 << 11 };

    pub const ENHANCED_KEY: Modifiers = Modifiers { bits: 1 << 12 };

    // Whether all modifiers of the other are among these. One line in each of the three sets of bits: a trait
    // for it would be longer.
    pub fn contains(self, other: Modifiers) -> bool
        ensures { result ≡ holds self.bits other.bits }
    {
        self.bits & other.bits == other.bits
    }

    // Whether every bit has a name.
    pub fn is_named(self) -> bool
        ensures { result ≡ named_modifiers self.bits }
    {
        self.bits & 0xe001 == 0
    }

    // The modifiers as xterm counts them.
    pub fn encode_xterm(self) -> u8
        ensures value { result ≡ xterm_of self.bits }
        ensures bound { result ≤ 7 }
    {
        weight_of(self.contains(Modifiers::SHIFT), 1)
            + weight_of(self.contains(Modifiers::ALT), 2)
            + weight_of(self.contains(Modifiers::CTRL), 4)
    }

    // The modifiers and lights as the protocol counts them.
    pub fn kitty_sum(self, leds: KeyboardLedStatus) -> u8
        ensures { result ≡ sum_of self.bits leds.bits }
    {
        self.encode_xterm()
            + weight_of(self.contains(Modifiers::SUPER), 8)
            + weight_of(leds.contains(KeyboardLedStatus::CAPS_LOCK), 64)
            + weight_of(leds.contains(KeyboardLedStatus::NUM_LOCK), 128)
    }

    // The modifiers without the bits that tell the left key from the right one, and the mark of an enhanced key.
    pub fn remove_positional_mods(self) -> Modifiers
        ensures { result.bits ≡ without self.bits positional }
    {
        let positional = Modifiers::LEFT_ALT.bits
            | Modifiers::RIGHT_ALT.bits
            | Modifiers::LEFT_CTRL.bits
            | Modifiers::RIGHT_CTRL.bits
            | Modifiers::LEFT_SHIFT.bits
            | Modifiers::RIGHT_SHIFT.bits
            | Modifiers::ENHANCED_KEY.bits;
        Modifiers {
            bits: self.bits & !positional,
        }
    }
}

impl KeyboardLedStatus {
    pub const NONE: KeyboardLedStatus = KeyboardLedStatus { bits: 0 };

    pub const CAPS_LOCK: KeyboardLedStatus = KeyboardLedStatus { bits: 1 << 1 };

    pub const NUM_LOCK: KeyboardLedStatus = KeyboardLedStatus { bits: 1 << 2 };

    // Whether all these lights are on.
    pub fn contains(self, lights: KeyboardLedStatus) -> bool
        ensures { result ≡ holds self.bits lights.bits }
    {
        self.bits & lights.bits == lights.bits
    }

    // Whether every bit has a name.
    pub fn is_named(self) -> bool
        ensures { result ≡ named_lights self.bits }
    {
        self.bits & 0xf9 == 0
    }
}
