// Keys by what they mean.
ghost use Rattle.std.specs.Prelude.{◌≡◌};
ghost use Rattle.tables.specs.Tables.{beside};
ghost use Rattle.input_types.specs.KeyMaps.{chars, digits, functions, phys_of, modifier_key};

use crate::phys_key_code::PhysKeyCode;

#[derive(Clone, Copy, Debug, PartialEq, Eq)]
pub enum KeyCode<'a> {
    // The decoded character. Backspace is U+0008, Tab U+0009, Enter U+000D, Escape U+001B, Delete U+007F.
    Char(char),
    // Text from an input method: bytes that the caller says are UTF-8.
    Composed(&'a [u8]),
    // A code that only the operating system knows.
    RawCode(u32),
    // A key named by its place on the keyboard.
    Physical(PhysKeyCode),
    Hyper,
    Super,
    Meta,
    Cancel,
    Clear,
    Shift,
    LeftShift,
    RightShift,
    Control,
    LeftControl,
    RightControl,
    Alt,
    LeftAlt,
    RightAlt,
    Pause,
    CapsLock,
    VoidSymbol,
    PageUp,
    PageDown,
    End,
    Home,
    LeftArrow,
    RightArrow,
    UpArrow,
    DownArrow,
    Select,
    Print,
    Execute,
    PrintScreen,
    Insert,
    Help,
    LeftWindows,
    RightWindows,
    Applications,
    Sleep,
    // A digit of the keypad, 0 to 9.
    Numpad(u8),
    Multiply,
    Add,
    Separator,
    Subtract,
    Decimal,
    Divide,
    // A function key, 1 to 35.
    Function(u8),
    NumLock,
    ScrollLock,
    Copy,
    Cut,
    Paste,
    BrowserBack,
    BrowserForward,
    BrowserRefresh,
    BrowserStop,
    BrowserSearch,
    BrowserFavorites,
    BrowserHome,
    VolumeMute,
    VolumeDown,
    VolumeUp,
    MediaNextTrack,
    MediaPrevTrack,
    MediaStop,
    MediaPlayPause,
    ApplicationLeftArrow,
    ApplicationRightArrow,
    ApplicationUpArrow,
    ApplicationDownArrow,
    KeyPadHome,
    KeyPadEnd,
    KeyPadPageUp,
    KeyPadPageDown,
    KeyPadBegin,
}

#[inline(always)]
fn phys_of_char(c: char) -> Option<PhysKeyCode>
    ensures { result ≡ beside chars c }
{
    Some(match c {
        'a' | 'A' => PhysKeyCode::A,
        'b' | 'B' => PhysKeyCode::B,
        'c' | 'C' => PhysKeyCode::C,
        'd' | 'D' => PhysKeyCode::D,
        'e' | 'E' => PhysKeyCode::E,
        'f' | 'F' => PhysKeyCode::F,
        'g' | 'G' => PhysKeyCode::G,
        'h' | 'H' => PhysKeyCode::H,
        'i' | 'I' => PhysKeyCode::I,
        'j' | 'J' => PhysKeyCode::J,
        'k' | 'K' => PhysKeyCode::K,
        'l' | 'L' => PhysKeyCode::L,
        'm' | 'M' => PhysKeyCode::M,
        'n' | 'N' => PhysKeyCode::N,
        'o' | 'O' => PhysKeyCode::O,
        'p' | 'P' => PhysKeyCode::P,
        'q' | 'Q' => PhysKeyCode::Q,
        'r' | 'R' => PhysKeyCode::R,
        's' | 'S' => PhysKeyCode::S,
        't' | 'T' => PhysKeyCode::T,
        'u' | 'U' => PhysKeyCode::U,
        'v' | 'V' => PhysKeyCode::V,
        'w' | 'W' => PhysKeyCode::W,
        'x' | 'X' => PhysKeyCode::X,
        'y' | 'Y' => PhysKeyCode::Y,
        'z' | 'Z' => PhysKeyCode::Z,
        '0' => PhysKeyCode::K0,
        '1' => PhysKeyCode::K1,
        '2' => PhysKeyCode::K2,
        '3' => PhysKeyCode::K3,
        '4' => PhysKeyCode::K4,
        '5' => PhysKeyCode::K5,
        '6' => PhysKeyCode::K6,
        '7' => PhysKeyCode::K7,
        '8' => PhysKeyCode::K8,
        '9' => PhysKeyCode::K9,
        '\\' => PhysKeyCode::Backslash,
        ',' => PhysKeyCode::Comma,
        '\u{8}' => PhysKeyCode::Backspace,
        '\u{7f}' => PhysKeyCode::Delete,
        '=' => PhysKeyCode::Equal,
        '\u{1b}' => PhysKeyCode::Escape,
        '`' => PhysKeyCode::Grave,
        '\r' => PhysKeyCode::Return,
        '[' => PhysKeyCode::LeftBracket,
        ']' => PhysKeyCode::RightBracket,
        '-' => PhysKeyCode::Minus,
        '.' => PhysKeyCode::Period,
        '\'' => PhysKeyCode::Quote,
        ';' => PhysKeyCode::Semicolon,
        '/' => PhysKeyCode::Slash,
        ' ' => PhysKeyCode::Space,
        '\t' => PhysKeyCode::Tab,
        _ => return None,
    })
}

#[inline(always)]
fn phys_of_digit(n: u8) -> Option<PhysKeyCode>
    ensures { result ≡ beside digits n }
{
    Some(match n {
        0 => PhysKeyCode::Keypad0,
        1 => PhysKeyCode::Keypad1,
        2 => PhysKeyCode::Keypad2,
        3 => PhysKeyCode::Keypad3,
        4 => PhysKeyCode::Keypad4,
        5 => PhysKeyCode::Keypad5,
        6 => PhysKeyCode::Keypad6,
        7 => PhysKeyCode::Keypad7,
        8 => PhysKeyCode::Keypad8,
        9 => PhysKeyCode::Keypad9,
        _ => return None,
    })
}

#[inline(always)]
fn phys_of_function(n: u8) -> Option<PhysKeyCode>
    ensures { result ≡ beside functions n }
{
    Some(match n {
        1 => PhysKeyCode::F1,
        2 => PhysKeyCode::F2,
        3 => PhysKeyCode::F3,
        4 => PhysKeyCode::F4,
        5 => PhysKeyCode::F5,
        6 => PhysKeyCode::F6,
        7 => PhysKeyCode::F7,
        8 => PhysKeyCode::F8,
        9 => PhysKeyCode::F9,
        10 => PhysKeyCode::F10,
        11 => PhysKeyCode::F11,
        12 => PhysKeyCode::F12,
        13 => PhysKeyCode::F13,
        14 => PhysKeyCode::F14,
        15 => PhysKeyCode::F15,
        16 => PhysKeyCode::F16,
        17 => PhysKeyCode::F17,
        18 => PhysKeyCode::F18,
        19 => PhysKeyCode::F19,
        20 => PhysKeyCode::F20,
        _ => return None,
    })
}

impl KeyCode<'_> {
    // Whether the key is a modifier key.
    pub fn is_modifier(&self) -> bool
        ensures { result ≡ modifier_key self.now }
    {
        matches!(
            *self,
            KeyCode::Hyper
                | KeyCode::CapsLock
                | KeyCode::Super
                | KeyCode::Meta
                | KeyCode::Shift
                | KeyCode::LeftShift
                | KeyCode::RightShift
                | KeyCode::Control
                | KeyCode::LeftControl
                | KeyCode::RightControl
                | KeyCode::Alt
                | KeyCode::LeftAlt
                | KeyCode::RightAlt
                | KeyCode::LeftWindows
                | KeyCode::RightWindows
        )
    }

    // The place of the key on a US keyboard, where it has one. A letter's case is lost.
    #[inline(always)]
    pub fn to_phys(&self) -> Option<PhysKeyCode>
        ensures { result ≡ phys_of self.now }
    {
        Some(match *self {
            KeyCode::Char(c) => return phys_of_char(c),
            KeyCode::Numpad(n) => return phys_of_digit(n),
            KeyCode::Function(n) => return phys_of_function(n),
            KeyCode::Physical(p) => p,
            KeyCode::Shift | KeyCode::LeftShift => PhysKeyCode::LeftShift,
            KeyCode::RightShift => PhysKeyCode::RightShift,
            KeyCode::Alt | KeyCode::LeftAlt => PhysKeyCode::LeftAlt,
            KeyCode::RightAlt => PhysKeyCode::RightAlt,
            KeyCode::LeftWindows => PhysKeyCode::LeftWindows,
            KeyCode::RightWindows => PhysKeyCode::RightWindows,
            KeyCode::Control | KeyCode::LeftControl => PhysKeyCode::LeftControl,
            KeyCode::RightControl => PhysKeyCode::RightControl,
            KeyCode::CapsLock => PhysKeyCode::CapsLock,
            KeyCode::PageUp => PhysKeyCode::PageUp,
            KeyCode::PageDown => PhysKeyCode::PageDown,
            KeyCode::Home => PhysKeyCode::Home,
            KeyCode::End => PhysKeyCode::End,
            KeyCode::LeftArrow => PhysKeyCode::LeftArrow,
            KeyCode::RightArrow => PhysKeyCode::RightArrow,
            KeyCode::UpArrow => PhysKeyCode::UpArrow,
            KeyCode::DownArrow => PhysKeyCode::DownArrow,
            KeyCode::Insert => PhysKeyCode::Insert,
            KeyCode::Help => PhysKeyCode::Help,
            KeyCode::Multiply => PhysKeyCode::KeypadMultiply,
            KeyCode::Clear => PhysKeyCode::KeypadClear,
            KeyCode::Decimal => PhysKeyCode::KeypadDecimal,
            KeyCode::Divide => PhysKeyCode::KeypadDivide,
            KeyCode::Add => PhysKeyCode::KeypadAdd,
            KeyCode::Subtract => PhysKeyCode::KeypadSubtract,
            KeyCode::NumLock => PhysKeyCode::NumLock,
            KeyCode::VolumeUp => PhysKeyCode::VolumeUp,
            KeyCode::VolumeDown => PhysKeyCode::VolumeDown,
            KeyCode::VolumeMute => PhysKeyCode::VolumeMute,
            _ => return None,
        })
    }
}
