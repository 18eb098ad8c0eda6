// The names of keys by their place on a US keyboard.
ghost use Rattle.std.specs.Prelude.{◌≡◌, ◌++◌};
ghost use Rattle.std.specs.Option.{option_map};
ghost use Rattle.tables.specs.Tables.{bears, name_for, Table};
ghost use Rattle.names.specs.PhysTable.{places, unread_places, place_name, PlacesNamed};
ghost use Rattle.names.specs.Reads.{of_text, place_named};
ghost use Rattle.names.specs.Variants.{place_number};

use crate::fault::NameFault;
use crate::variants::name_of;
use input_types::phys_key_code::PhysKeyCode;
use tables::{Named, find};
use texts::checked;

// The names that can be read, in a constant table since keys are named without a heap. A letter has two, of which the small one is written.
static PHYS_NAMES: [Named<PhysKeyCode>; 142] = [
    Named("a", PhysKeyCode::A),
    Named("A", PhysKeyCode::A),
    Named("b", PhysKeyCode::B),
    Named("B", PhysKeyCode::B),
    Named("Backslash", PhysKeyCode::Backslash),
    Named("c", PhysKeyCode::C),
    Named("C", PhysKeyCode::C),
    Named("CapsLock", PhysKeyCode::CapsLock),
    Named("Comma", PhysKeyCode::Comma),
    Named("d", PhysKeyCode::D),
    Named("D", PhysKeyCode::D),
    Named("Backspace", PhysKeyCode::Backspace),
    Named("DownArrow", PhysKeyCode::DownArrow),
    Named("e", PhysKeyCode::E),
    Named("E", PhysKeyCode::E),
    Named("End", PhysKeyCode::End),
    Named("Equal", PhysKeyCode::Equal),
    Named("Escape", PhysKeyCode::Escape),
    Named("f", PhysKeyCode::F),
    Named("F", PhysKeyCode::F),
    Named("F1", PhysKeyCode::F1),
    Named("F10", PhysKeyCode::F10),
    Named("F11", PhysKeyCode::F11),
    Named("F12", PhysKeyCode::F12),
    Named("F13", PhysKeyCode::F13),
    Named("F14", PhysKeyCode::F14),
    Named("F15", PhysKeyCode::F15),
    Named("F16", PhysKeyCode::F16),
    Named("F17", PhysKeyCode::F17),
    Named("F18", PhysKeyCode::F18),
    Named("F19", PhysKeyCode::F19),
    Named("F2", PhysKeyCode::F2),
    Named("F20", PhysKeyCode::F20),
    Named("F3", PhysKeyCode::F3),
    Named("F4", PhysKeyCode::F4),
    Named("F5", PhysKeyCode::F5),
    Named("F6", PhysKeyCode::F6),
    Named("F7", PhysKeyCode::F7),
    Named("F8", PhysKeyCode::F8),
    Named("F9", PhysKeyCode::F9),
    Named("Delete", PhysKeyCode::Delete),
    Named("Function", PhysKeyCode::Function),
    Named("g", PhysKeyCode::G),
    Named("G", PhysKeyCode::G),
    Named("Grave", PhysKeyCode::Grave),
    Named("h", PhysKeyCode::H),
    Named("H", PhysKeyCode::H),
    Named("Help", PhysKeyCode::Help),
    Named("Home", PhysKeyCode::Home),
    Named("i", PhysKeyCode::I),
    Named("I", PhysKeyCode::I),
    Named("Insert", PhysKeyCode::Insert),
    Named("j", PhysKeyCode::J),
    Named("J", PhysKeyCode::J),
    Named("k", PhysKeyCode::K),
    Named("K", PhysKeyCode::K),
    Named("Keypad0", PhysKeyCode::Keypad0),
    Named("Keypad1", PhysKeyCode::Keypad1),
    Named("Keypad2", PhysKeyCode::Keypad2),
    Named("Keypad3", PhysKeyCode::Keypad3),
    Named("Keypad4", PhysKeyCode::Keypad4),
    Named("Keypad5", PhysKeyCode::Keypad5),
    Named("Keypad6", PhysKeyCode::Keypad6),
    Named("Keypad7", PhysKeyCode::Keypad7),
    Named("Keypad8", PhysKeyCode::Keypad8),
    Named("Keypad9", PhysKeyCode::Keypad9),
    Named("KeypadClear", PhysKeyCode::KeypadClear),
    Named("KeypadDecimal", PhysKeyCode::KeypadDecimal),
    Named("KeypadDelete", PhysKeyCode::KeypadDelete),
    Named("KeypadDivide", PhysKeyCode::KeypadDivide),
    Named("KeypadEnter", PhysKeyCode::KeypadEnter),
    Named("KeypadEquals", PhysKeyCode::KeypadEquals),
    Named("KeypadSubtract", PhysKeyCode::KeypadSubtract),
    Named("KeypadMultiply", PhysKeyCode::KeypadMultiply),
    Named("KeypadAdd", PhysKeyCode::KeypadAdd),
    Named("l", PhysKeyCode::L),
    Named("L", PhysKeyCode::L),
    Named("LeftAlt", PhysKeyCode::LeftAlt),
    Named("LeftArrow", PhysKeyCode::LeftArrow),
    Named("LeftBracket", PhysKeyCode::LeftBracket),
    Named("LeftControl", PhysKeyCode::LeftControl),
    Named("LeftShift", PhysKeyCode::LeftShift),
    Named("LeftWindows", PhysKeyCode::LeftWindows),
    Named("m", PhysKeyCode::M),
    Named("M", PhysKeyCode::M),
    Named("Minus", PhysKeyCode::Minus),
    Named("VolumeMute", PhysKeyCode::VolumeMute),
    Named("n", PhysKeyCode::N),
    Named("N", PhysKeyCode::N),
    Named("NumLock", PhysKeyCode::NumLock),
    Named("o", PhysKeyCode::O),
    Named("O", PhysKeyCode::O),
    Named("p", PhysKeyCode::P),
    Named("P", PhysKeyCode::P),
    Named("PageDown", PhysKeyCode::PageDown),
    Named("PageUp", PhysKeyCode::PageUp),
    Named("Period", PhysKeyCode::Period),
    Named("q", PhysKeyCode::Q),
    Named("Q", PhysKeyCode::Q),
    Named("Quote", PhysKeyCode::Quote),
    Named("r", PhysKeyCode::R),
    Named("R", PhysKeyCode::R),
    Named("Return", PhysKeyCode::Return),
    Named("RightAlt", PhysKeyCode::RightAlt),
    Named("RightArrow", PhysKeyCode::RightArrow),
    Named("RightBracket", PhysKeyCode::RightBracket),
    Named("RightControl", PhysKeyCode::RightControl),
    Named("RightShift", PhysKeyCode::RightShift),
    Named("RightWindows", PhysKeyCode::RightWindows),
    Named("s", PhysKeyCode::S),
    Named("S", PhysKeyCode::S),
    Named("Semicolon", PhysKeyCode::Semicolon),
    Named("Slash", PhysKeyCode::Slash),
    Named("Space", PhysKeyCode::Space),
    Named("t", PhysKeyCode::T),
    Named("T", PhysKeyCode::T),
    Named("Tab", PhysKeyCode::Tab),
    Named("u", PhysKeyCode::U),
    Named("U", PhysKeyCode::U),
    Named("UpArrow", PhysKeyCode::UpArrow),
    Named("v", PhysKeyCode::V),
    Named("V", PhysKeyCode::V),
    Named("VolumeDown", PhysKeyCode::VolumeDown),
    Named("VolumeUp", PhysKeyCode::VolumeUp),
    Named("w", PhysKeyCode::W),
    Named("W", PhysKeyCode::W),
    Named("x", PhysKeyCode::X),
    Named("X", PhysKeyCode::X),
    Named("y", PhysKeyCode::Y),
    Named("Y", PhysKeyCode::Y),
    Named("z", PhysKeyCode::Z),
    Named("Z", PhysKeyCode::Z),
    Named("0", PhysKeyCode::K0),
    Named("1", PhysKeyCode::K1),
    Named("2", PhysKeyCode::K2),
    Named("3", PhysKeyCode::K3),
    Named("4", PhysKeyCode::K4),
    Named("5", PhysKeyCode::K5),
    Named("6", PhysKeyCode::K6),
    Named("7", PhysKeyCode::K7),
    Named("8", PhysKeyCode::K8),
    Named("9", PhysKeyCode::K9),
];

// The names of the others.
static UNREAD_PHYS_NAMES: [Named<PhysKeyCode>; 4] = [
    Named("F21", PhysKeyCode::F21),
    Named("F22", PhysKeyCode::F22),
    Named("F23", PhysKeyCode::F23),
    Named("F24", PhysKeyCode::F24),
];

// No two places have one name, and the name that is written of a place is that place's.
pub fn phys_names_hold()
    ensures apart { Table (places ++ unread_places) }
    ensures own { PlacesNamed }
{}

// A function for each table and look-up: its proof alone unfolds the definition of the table.
fn place_in_table(name: &str) -> Option<PhysKeyCode>
    ensures { result ≡ bears places name.now }
{
    find(&PHYS_NAMES, name)
}

fn read_name(key: PhysKeyCode) -> Option<&'static str>
    ensures { option_map (λ x. x.now) result ≡ name_for place_number places (place_number key) }
{
    name_of(&PHYS_NAMES, &key)
}

fn unread_name(key: PhysKeyCode) -> Option<&'static str>
    ensures { option_map (λ x. x.now) result ≡ name_for place_number unread_places (place_number key) }
{
    name_of(&UNREAD_PHYS_NAMES, &key)
}

// The name of a place: the first in the table.
pub fn phys_name(key: PhysKeyCode) -> &'static str
    ensures { result.now ≡ place_name key }
{
    // `or`: a closure of `or_else` would have to say again what `unread_name` promises.
    // Where no table has a name it is empty, as `Display` would print it; an Option would be unpacked to that.
    read_name(key).or(unread_name(key)).unwrap_or("")
}

// The key at the place that bears a name.
pub fn read_phys_name(bytes: &[u8]) -> Result<PhysKeyCode, NameFault>
    ensures { result ≡ of_text place_named bytes.now }
{
    place_in_table(checked(bytes)?).ok_or(NameFault::Unknown(0))
}
