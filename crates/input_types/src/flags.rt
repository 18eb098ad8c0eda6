// The settings that a program asks of the keyboard, as five bits. Written out: `bitflags!` gives every set a
// `from_bits_retain` that takes any bits, which a set below 32 by its type cannot have.
ghost use Rattle.std.specs.Prelude.{◌≡◌, ◌<◌, ◌≤◌, MatchOption, bit_or};
ghost use Rattle.input_types.specs.Bits.{holds, without};

#[derive(Clone, Copy, Debug, PartialEq, Eq)]
pub struct KittyKeyboardFlags {
    bits: u16,
    ghost named: { bits < 32 },
}

impl KittyKeyboardFlags {
    pub const NONE: KittyKeyboardFlags = KittyKeyboardFlags { bits: 0 };

    pub const DISAMBIGUATE_ESCAPE_CODES: KittyKeyboardFlags = KittyKeyboardFlags { bits: 1 };

    pub const REPORT_EVENT_TYPES: KittyKeyboardFlags = KittyKeyboardFlags { bits: 2 };

    pub const REPORT_ALTERNATE_KEYS: KittyKeyboardFlags = KittyKeyboardFlags { bits: 4 };

    pub const REPORT_ALL_KEYS_AS_ESCAPE_CODES: KittyKeyboardFlags = KittyKeyboardFlags { bits: 8 };

    pub const REPORT_ASSOCIATED_TEXT: KittyKeyboardFlags = KittyKeyboardFlags { bits: 16 };

    // The settings with these bits, of which none may lie above the five.
    pub fn from_bits(bits: u16) -> Option<KittyKeyboardFlags>
        ensures { MatchOption result (32 ≤ bits) (λ f. f.bits ≡ bits) }
    {
        if bits < 32 {
            Some(KittyKeyboardFlags { bits })
        } else {
            None
        }
    }

    pub fn bits(self) -> u16
        ensures { result ≡ self.bits }
    {
        self.bits
    }

    // Whether all settings of the other are among these.
    pub fn contains(self, other: KittyKeyboardFlags) -> bool
        ensures { result ≡ holds self.bits other.bits }
    {
        self.bits & other.bits == other.bits
    }

    pub fn union(self, other: KittyKeyboardFlags) -> KittyKeyboardFlags
        ensures { result.bits ≡ bit_or self.bits other.bits }
    {
        KittyKeyboardFlags {
            bits: self.bits | other.bits,
        }
    }

    pub fn difference(self, other: KittyKeyboardFlags) -> KittyKeyboardFlags
        ensures { result.bits ≡ without self.bits other.bits }
    {
        KittyKeyboardFlags {
            bits: self.bits & !other.bits,
        }
    }
}
