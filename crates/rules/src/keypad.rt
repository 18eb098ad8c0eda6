// The numbers of the keys of the keypad.
ghost use Rattle.std.specs.Prelude.{◌≡◌, ◌<◌, ◌≤◌, IfSome};
ghost use Rattle.rules.specs.Pads.{pads as keypad, pad_place, number_in, pad_code, Placed};

use input_types::phys_key_code::PhysKeyCode;

// A key, its number with Num Lock, and its number without; 1 is that of the key in the middle, which has a final of its own.
#[derive(Clone, Copy, Debug, PartialEq, Eq)]
pub struct Pad {
    pub phys: PhysKeyCode,
    pub locked: u32,
    pub unlocked: u32,
}

const PADS: [Pad; 18] = [
    Pad {
        phys: PhysKeyCode::Keypad0,
        locked: 57399,
        unlocked: 57425,
    },
    Pad {
        phys: PhysKeyCode::Keypad1,
        locked: 57400,
        unlocked: 57424,
    },
    Pad {
        phys: PhysKeyCode::Keypad2,
        locked: 57401,
        unlocked: 57420,
    },
    Pad {
        phys: PhysKeyCode::Keypad3,
        locked: 57402,
        unlocked: 57422,
    },
    Pad {
        phys: PhysKeyCode::Keypad4,
        locked: 57403,
        unlocked: 57417,
    },
    Pad {
        phys: PhysKeyCode::Keypad5,
        locked: 57404,
        unlocked: 1,
    },
    Pad {
        phys: PhysKeyCode::Keypad6,
        locked: 57405,
        unlocked: 57418,
    },
    Pad {
        phys: PhysKeyCode::Keypad7,
        locked: 57406,
        unlocked: 57423,
    },
    Pad {
        phys: PhysKeyCode::Keypad8,
        locked: 57407,
        unlocked: 57419,
    },
    Pad {
        phys: PhysKeyCode::Keypad9,
        locked: 57408,
        unlocked: 57421,
    },
    Pad {
        phys: PhysKeyCode::KeypadDecimal,
        locked: 57409,
        unlocked: 57409,
    },
    Pad {
        phys: PhysKeyCode::KeypadDivide,
        locked: 57410,
        unlocked: 57410,
    },
    Pad {
        phys: PhysKeyCode::KeypadMultiply,
        locked: 57411,
        unlocked: 57411,
    },
    Pad {
        phys: PhysKeyCode::KeypadSubtract,
        locked: 57412,
        unlocked: 57412,
    },
    Pad {
        phys: PhysKeyCode::KeypadAdd,
        locked: 57413,
        unlocked: 57413,
    },
    Pad {
        phys: PhysKeyCode::KeypadEnter,
        locked: 57414,
        unlocked: 57414,
    },
    Pad {
        phys: PhysKeyCode::KeypadEquals,
        locked: 57415,
        unlocked: 57415,
    },
    Pad {
        phys: PhysKeyCode::KeypadDelete,
        locked: 57426,
        unlocked: 57426,
    },
];

// The place of a key of the keypad in the table: a match, since a search would compare up to 18 keys one by one.
#[inline(always)]
fn pad_place(phys: PhysKeyCode) -> Option<usize>
    ensures place { result ≡ pad_place phys }
    ensures bound { IfSome result (λ i. i < 18) }
{
    use PhysKeyCode::*;
    Some(match phys {
        Keypad0 => 0,
        Keypad1 => 1,
        Keypad2 => 2,
        Keypad3 => 3,
        Keypad4 => 4,
        Keypad5 => 5,
        Keypad6 => 6,
        Keypad7 => 7,
        Keypad8 => 8,
        Keypad9 => 9,
        KeypadDecimal => 10,
        KeypadDivide => 11,
        KeypadMultiply => 12,
        KeypadSubtract => 13,
        KeypadAdd => 14,
        KeypadEnter => 15,
        KeypadEquals => 16,
        KeypadDelete => 17,
        _ => return None,
    })
}

// The number at a place of a table.
#[inline(always)]
fn number_in(table: &[Pad; 18], place: usize, lock: bool) -> u32
    requires { place < 18 }
    ensures { result ≡ number_in table.now place lock }
{
    let pad = table[place];
    if lock { pad.locked } else { pad.unlocked }
}

// The number of a key of the keypad; other keys have none.
#[inline(always)]
pub fn pad_code(phys: PhysKeyCode, lock: bool) -> Option<u32>
    ensures value { result ≡ pad_code phys lock }
    ensures bound { IfSome result (λ n. n ≤ 57426) }
{
    let place = pad_place(phys)?;
    Some(number_in(&PADS, place, lock))
}

// The table, in which each entry stands at the place of its key.
pub fn pads() -> [Pad; 18]
    ensures table { result ≡ keypad }
    ensures placed { Placed }
{
    PADS
}
