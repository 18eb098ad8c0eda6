// A key event, and the raw event that it came from.
ghost use Rattle.std.specs.Prelude.{◌≡◌, ◌≤◌, IfSome};
ghost use Rattle.input_types.specs.Codes.{by_phys, code_of};

use crate::key_code::KeyCode;
use crate::modifiers::{KeyboardLedStatus, Modifiers};
use crate::phys_key_code::PhysKeyCode;

// A key event before any dead key or input method had it. Its fields, as those of `KeyEvent`, are the Rust's.
#[derive(Drop, Debug)]
pub struct RawKeyEvent<'a> {
    pub key: KeyCode<'a>,
    pub modifiers: Modifiers,
    pub leds: KeyboardLedStatus,
    // The place of the key on a US keyboard.
    pub phys_code: Option<PhysKeyCode>,
    // The operating system's code of the key.
    pub raw_code: u32,
    pub repeat_count: u16,
    pub key_is_down: bool,
}

// A key event. It moves, and is neither copied nor cloned.
#[derive(Drop, Debug)]
pub struct KeyEvent<'a> {
    pub key: KeyCode<'a>,
    pub modifiers: Modifiers,
    pub leds: KeyboardLedStatus,
    pub repeat_count: u16,
    pub key_is_down: bool,
    pub raw: Option<RawKeyEvent<'a>>,
}

// The bound is a clause: the number is a plain `u32`, as in the Rust.
fn code_by_phys(phys: PhysKeyCode) -> Option<u32>
    ensures value { result ≡ by_phys phys }
    ensures bound { IfSome result (λ n. n ≤ 57654) }
{
    use PhysKeyCode::*;
    Some(match phys {
        Escape => 27,
        Return => 13,
        Tab => 9,
        Backspace => 127,
        CapsLock => 57358,
        NumLock => 57360,
        F13 => 57376,
        F14 => 57377,
        F15 => 57378,
        F16 => 57379,
        F17 => 57380,
        F18 => 57381,
        F19 => 57382,
        F20 => 57383,
        F21 => 57384,
        F22 => 57385,
        F23 => 57386,
        F24 => 57387,
        Keypad0 => 57399,
        Keypad1 => 57400,
        Keypad2 => 57401,
        Keypad3 => 57402,
        Keypad4 => 57403,
        Keypad5 => 57404,
        Keypad6 => 57405,
        Keypad7 => 57406,
        Keypad8 => 57407,
        Keypad9 => 57408,
        KeypadDecimal => 57409,
        KeypadDivide => 57410,
        KeypadMultiply => 57411,
        KeypadSubtract => 57412,
        KeypadAdd => 57413,
        KeypadEnter => 57414,
        KeypadEquals => 57415,
        Insert => 2,
        VolumeDown => 57438,
        VolumeUp => 57439,
        VolumeMute => 57440,
        LeftShift => 57441,
        LeftControl => 57442,
        LeftAlt => 57443,
        LeftWindows => 57444,
        RightShift => 57447,
        RightControl => 57448,
        RightAlt => 57449,
        RightWindows => 57450,
        _ => return None,
    })
}

impl RawKeyEvent<'_> {
    // The number of the key in the protocol's table of functional keys, by the key and else by its place.
    // The two tables stand apart: they are over two types, and half of their rows differ.
    #[inline(always)]
    pub fn kitty_function_code(&self) -> Option<u32>
        ensures value { result ≡ code_of self.now.key self.now.phys_code }
        ensures bound { IfSome result (λ n. n ≤ 57654) }
    {
        use KeyCode::*;
        Some(match self.key {
            Function(n) if n >= 13 && n <= 35 => 57363 + n as u32,
            Numpad(n) => n as u32 + 57399,
            Decimal => 57409,
            Divide => 57410,
            Multiply => 57411,
            Subtract => 57412,
            Add => 57413,
            Separator => 57416,
            ApplicationLeftArrow => 57417,
            ApplicationRightArrow => 57418,
            ApplicationUpArrow => 57419,
            ApplicationDownArrow => 57420,
            KeyPadHome => 57423,
            KeyPadEnd => 57424,
            KeyPadBegin => 57427,
            KeyPadPageUp => 57421,
            KeyPadPageDown => 57422,
            Insert => 2,
            MediaPlayPause => 57430,
            MediaStop => 57432,
            MediaNextTrack => 57435,
            MediaPrevTrack => 57436,
            VolumeDown => 57438,
            VolumeUp => 57439,
            VolumeMute => 57440,
            LeftShift => 57441,
            LeftControl => 57442,
            LeftAlt => 57443,
            LeftWindows => 57444,
            RightShift => 57447,
            RightControl => 57448,
            RightAlt => 57449,
            RightWindows => 57450,
            _ => return code_by_phys(self.phys_code?),
        })
    }
}
