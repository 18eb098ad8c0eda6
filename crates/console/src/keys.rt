// The key event that the words of a line stand for.
ghost use Rattle.std.specs.Prelude.{◌≡◌, ◌≢◌, false, codes};

use crate::words::Word;
use crate::wrong::{Why, Wrong, wrong_name};
use input_types::event::{KeyEvent, RawKeyEvent};
use input_types::key_code::KeyCode;
use input_types::modifiers::{KeyboardLedStatus, Modifiers};
use input_types::phys_key_code::PhysKeyCode;
use key_names::read_key_name;
use modifier_names::reading::read_modifiers;
use names::phys_names::read_phys_name;

// Short names beside those of the keys, and a name for the space.
fn short_name(word: &str) -> Option<KeyCode<'static>> {
    match word {
        "Up" => Some(KeyCode::UpArrow),
        "Down" => Some(KeyCode::DownArrow),
        "Left" => Some(KeyCode::LeftArrow),
        "Right" => Some(KeyCode::RightArrow),
        "PgUp" => Some(KeyCode::PageUp),
        "PgDn" => Some(KeyCode::PageDown),
        "Ins" => Some(KeyCode::Insert),
        "Del" => Some(KeyCode::Char('\u{7f}')),
        "Esc" => Some(KeyCode::Char('\u{1b}')),
        "Space" => Some(KeyCode::Char(' ')),
        _ => None,
    }
}

// A character by its code in hex.
// Not by `from_str_radix`: it would take a sign in front.
fn by_code(digits: &str) -> Option<char> {
    if digits.is_empty() {
        return None;
    }
    let code = digits.chars().try_fold(0u32, |code, c| {
        code.checked_mul(16)?.checked_add(c.to_digit(16)?)
    });
    code.and_then(char::from_u32)
}

fn place_in(word: Word) -> Result<PhysKeyCode, Wrong> {
    read_phys_name(word.text.as_bytes()).map_err(|fault| wrong_name(word.place, fault))
}

// A key by a code, a text, a place or a number, or by its name.
fn key_in<'a>(word: Word<'a>) -> Result<KeyCode<'a>, Wrong> {
    if let Some(key) = short_name(word.text) {
        return Ok(key);
    }
    if let Some(digits) = word.text.strip_prefix("U+") {
        let c = by_code(digits).ok_or(word.wrong(Why::Code))?;
        return Ok(KeyCode::Char(c));
    }
    match word.halves() {
        Some(("text", text)) => Ok(KeyCode::Composed(text.text.as_bytes())),
        Some(("phys", name)) => Ok(KeyCode::Physical(place_in(name)?)),
        Some(("raw", number)) => Ok(KeyCode::RawCode(number.number()?)),
        Some(("numpad", number)) => Ok(KeyCode::Numpad(number.number()?)),
        Some(("function", number)) => Ok(KeyCode::Function(number.number()?)),
        _ => read_key_name(word.text.as_bytes()).map_err(|fault| wrong_name(word.place, fault)),
    }
}

// What a word is taken for: by itself, or after the word before it.
#[derive(Clone, Copy)]
enum Place {
    Any,
    OnPlace,
    RawKey,
}

// A key and the modifiers held, of the event or of its raw event.
#[derive(Clone, Copy)]
struct Pressed<'a> {
    key: KeyCode<'a>,
    modifiers: Modifiers,
}

// What the words have told so far.
#[derive(Clone, Copy)]
struct Told<'a> {
    own: Pressed<'a>,
    raw: Option<Pressed<'a>>,
    phys: Option<PhysKeyCode>,
    leds: u8,
    down: bool,
}

impl<'a> Told<'a> {
    fn of(key: KeyCode<'a>) -> Told<'a> {
        Told {
            own: Pressed {
                key,
                modifiers: Modifiers::NONE,
            },
            raw: None,
            phys: None,
            leds: 0,
            down: true,
        }
    }

    // Modifiers of the raw event, once it is begun, else of the event.
    fn hold(&mut self, modifiers: Modifiers)
        ensures { self.new.down ≡ self.old.down }
    {
        match self.raw {
            Some(raw) => {
                self.raw = Some(Pressed {
                    key: raw.key,
                    modifiers,
                })
            }
            None => self.own.modifiers = modifiers,
        }
    }

    // One word more, and what the next one is taken for.
    fn word(&mut self, word: Word<'a>) -> Result<Place, Wrong>
        ensures release { word.entry.text.now ≡ codes "release" → self.new.down ≡ false }
        ensures other { word.entry.text.now ≢ codes "release" → self.new.down ≡ self.old.down }
    {
        match word.text {
            "on" => return Ok(Place::OnPlace),
            "raw" => return Ok(Place::RawKey),
            "release" => self.down = false,
            "caps" => self.leds |= KeyboardLedStatus::CAPS_LOCK.bits,
            "num" => self.leds |= KeyboardLedStatus::NUM_LOCK.bits,
            list => {
                let read = read_modifiers(list.as_bytes());
                self.hold(read.map_err(|fault| wrong_name(word.place, fault))?)
            }
        }
        Ok(Place::Any)
    }

    fn take(&mut self, place: Place, word: Word<'a>) -> Result<Place, Wrong> {
        match place {
            Place::Any => return self.word(word),
            Place::OnPlace => self.phys = Some(place_in(word)?),
            Place::RawKey => {
                self.raw = Some(Pressed {
                    key: key_in(word)?,
                    modifiers: Modifiers::NONE,
                })
            }
        }
        Ok(Place::Any)
    }

    // The raw event that was told, or that of the event itself where only a place was.
    fn raw_event(&self) -> Option<RawKeyEvent<'a>> {
        let pressed = match (self.raw, self.phys) {
            (Some(raw), _) => raw,
            (None, Some(_)) => self.own,
            (None, None) => return None,
        };
        Some(RawKeyEvent {
            key: pressed.key,
            modifiers: pressed.modifiers,
            leds: KeyboardLedStatus { bits: self.leds },
            phys_code: self.phys,
            raw_code: 0,
            repeat_count: 1,
            key_is_down: self.down,
        })
    }

    fn event(&self) -> KeyEvent<'a> {
        KeyEvent {
            key: self.own.key,
            modifiers: self.own.modifiers,
            leds: KeyboardLedStatus { bits: self.leds },
            repeat_count: 1,
            key_is_down: self.down,
            raw: self.raw_event(),
        }
    }
}

// A key, then in any order modifiers, `release`, the lights `caps` and `num`, `on` and a place of the keyboard, and
// `raw` with the key of the raw event, after which modifiers are the raw event's.
pub(crate) fn event_in<'a>(key: Word<'a>, rest: &[Word<'a>]) -> Result<KeyEvent<'a>, Wrong> {
    let mut told = Told::of(key_in(key)?);
    let mut place = Place::Any;
    for word in rest {
        place = told.take(place, *word)?;
    }
    match place {
        Place::Any => Ok(told.event()),
        Place::OnPlace | Place::RawKey => Err(key.wrong(Why::Count)),
    }
}
