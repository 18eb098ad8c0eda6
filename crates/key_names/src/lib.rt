// The names of keys by what they mean.
#![tactic(auto)]

ghost use Rattle.std.specs.Prelude.{◌≡◌, ◌++◌};
ghost use Rattle.std.specs.Option.{option_map};
ghost use Rattle.std.specs.Str.{chars};
ghost use Rattle.tables.specs.Tables.{bears, name_for, Table};
ghost use Rattle.key_names.specs.KeyTable.{keys, unread_keys, plain_name, KeysNamed};
ghost use Rattle.names.specs.Reads.{of_text};
ghost use Rattle.key_names.specs.KeyReads.{key_named, single};
ghost use Rattle.names.specs.Variants.{key_number};

use input_types::key_code::KeyCode;
use names::composed::char_key;
use names::fault::NameFault;
use names::variants::name_of;
use numbers::read_within;
use tables::{Named, find};
use texts::{after, checked, only_char};

// The names that can be read, in a constant table since keys are named without a heap.
static KEY_NAMES: [Named<KeyCode<'static>>; 70] = [
    Named("Hyper", KeyCode::Hyper),
    Named("Super", KeyCode::Super),
    Named("Meta", KeyCode::Meta),
    Named("Cancel", KeyCode::Cancel),
    Named("Clear", KeyCode::Clear),
    Named("Shift", KeyCode::Shift),
    Named("LeftShift", KeyCode::LeftShift),
    Named("RightShift", KeyCode::RightShift),
    Named("Control", KeyCode::Control),
    Named("LeftControl", KeyCode::LeftControl),
    Named("RightControl", KeyCode::RightControl),
    Named("Alt", KeyCode::Alt),
    Named("LeftAlt", KeyCode::LeftAlt),
    Named("RightAlt", KeyCode::RightAlt),
    Named("Pause", KeyCode::Pause),
    Named("CapsLock", KeyCode::CapsLock),
    Named("VoidSymbol", KeyCode::VoidSymbol),
    Named("PageUp", KeyCode::PageUp),
    Named("PageDown", KeyCode::PageDown),
    Named("End", KeyCode::End),
    Named("Home", KeyCode::Home),
    Named("LeftArrow", KeyCode::LeftArrow),
    Named("RightArrow", KeyCode::RightArrow),
    Named("UpArrow", KeyCode::UpArrow),
    Named("DownArrow", KeyCode::DownArrow),
    Named("Select", KeyCode::Select),
    Named("Print", KeyCode::Print),
    Named("Execute", KeyCode::Execute),
    Named("PrintScreen", KeyCode::PrintScreen),
    Named("Insert", KeyCode::Insert),
    Named("Help", KeyCode::Help),
    Named("LeftWindows", KeyCode::LeftWindows),
    Named("RightWindows", KeyCode::RightWindows),
    Named("Applications", KeyCode::Applications),
    Named("Sleep", KeyCode::Sleep),
    Named("Multiply", KeyCode::Multiply),
    Named("Add", KeyCode::Add),
    Named("Separator", KeyCode::Separator),
    Named("Subtract", KeyCode::Subtract),
    Named("Decimal", KeyCode::Decimal),
    Named("Divide", KeyCode::Divide),
    Named("NumLock", KeyCode::NumLock),
    Named("ScrollLock", KeyCode::ScrollLock),
    Named("Copy", KeyCode::Copy),
    Named("Cut", KeyCode::Cut),
    Named("Paste", KeyCode::Paste),
    Named("BrowserBack", KeyCode::BrowserBack),
    Named("BrowserForward", KeyCode::BrowserForward),
    Named("BrowserRefresh", KeyCode::BrowserRefresh),
    Named("BrowserStop", KeyCode::BrowserStop),
    Named("BrowserSearch", KeyCode::BrowserSearch),
    Named("BrowserFavorites", KeyCode::BrowserFavorites),
    Named("BrowserHome", KeyCode::BrowserHome),
    Named("VolumeMute", KeyCode::VolumeMute),
    Named("VolumeDown", KeyCode::VolumeDown),
    Named("VolumeUp", KeyCode::VolumeUp),
    Named("MediaNextTrack", KeyCode::MediaNextTrack),
    Named("MediaPrevTrack", KeyCode::MediaPrevTrack),
    Named("MediaStop", KeyCode::MediaStop),
    Named("MediaPlayPause", KeyCode::MediaPlayPause),
    Named("ApplicationLeftArrow", KeyCode::ApplicationLeftArrow),
    Named("ApplicationRightArrow", KeyCode::ApplicationRightArrow),
    Named("ApplicationUpArrow", KeyCode::ApplicationUpArrow),
    Named("ApplicationDownArrow", KeyCode::ApplicationDownArrow),
    Named("Backspace", KeyCode::Char('\u{8}')),
    Named("Tab", KeyCode::Char('\t')),
    Named("Return", KeyCode::Char('\r')),
    Named("Enter", KeyCode::Char('\r')),
    Named("Escape", KeyCode::Char('\u{1b}')),
    Named("Delete", KeyCode::Char('\u{7f}')),
];

// The names of the others.
static UNREAD_KEY_NAMES: [Named<KeyCode<'static>>; 5] = [
    Named("KeyPadHome", KeyCode::KeyPadHome),
    Named("KeyPadEnd", KeyCode::KeyPadEnd),
    Named("KeyPadPageUp", KeyCode::KeyPadPageUp),
    Named("KeyPadPageDown", KeyCode::KeyPadPageDown),
    Named("KeyPadBegin", KeyCode::KeyPadBegin),
];

// No two keys have one name, and the name that is written of a key is that key's.
pub fn key_names_hold()
    ensures apart { Table (keys ++ unread_keys) }
    ensures own { KeysNamed }
{}

// A function for each table and look-up: its proof alone unfolds the definition of the table.
fn key_in_table(name: &str) -> Option<KeyCode<'static>>
    ensures { result ≡ bears keys name.now }
{
    find(&KEY_NAMES, name)
}

fn single_char(name: &str) -> Result<KeyCode<'static>, NameFault>
    ensures { result ≡ single (chars name.now) }
{
    char_key(only_char(name).ok_or(NameFault::Unknown(0))?)
}

fn key_of_name(name: &str) -> Result<KeyCode<'static>, NameFault>
    ensures { result ≡ key_named name.now }
{
    if let Some(key) = key_in_table(name) {
        return Ok(key);
    }
    if let Some(digits) = after(name, "Numpad") {
        return Ok(KeyCode::Numpad(read_within(digits.as_bytes(), 6, 0, 9)?));
    }
    match after(name, "F") {
        // F alone is the letter.
        None | Some("") => single_char(name),
        Some(digits) => Ok(KeyCode::Function(read_within(digits.as_bytes(), 1, 1, 24)?)),
    }
}

// The key that bears a name.
pub fn read_key_name(bytes: &[u8]) -> Result<KeyCode<'static>, NameFault>
    ensures { result ≡ of_text key_named bytes.now }
{
    key_of_name(checked(bytes)?)
}

fn read_name(key: KeyCode<'_>) -> Option<&'static str>
    ensures { option_map (λ x. x.now) result ≡ name_for key_number keys (key_number key.entry) }
{
    name_of(&KEY_NAMES, &key)
}

fn unread_name(key: KeyCode<'_>) -> Option<&'static str>
    ensures { option_map (λ x. x.now) result ≡ name_for key_number unread_keys (key_number key.entry) }
{
    name_of(&UNREAD_KEY_NAMES, &key)
}

// The name of a key that holds nothing.
pub fn plain_name(key: KeyCode<'_>) -> &'static str
    ensures { result.now ≡ plain_name key.entry }
{
    // `or`: a closure of `or_else` would have to say again what `unread_name` promises.
    // Where no table has a name it is empty, as `Display` would print it; an Option would be unpacked to that.
    read_name(key).or(unread_name(key)).unwrap_or("")
}
