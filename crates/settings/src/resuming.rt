// Rows and settings go on from numbers that a caller kept of them, where these are a row's.
ghost use Rattle.std.specs.Prelude.{◌≡◌, ◌≤◌, [], ◌∷◌, map, MatchOption};
ghost use Rattle.settings.specs.Numbers.{Unlisted, NoRow};

use crate::row::Row;
use crate::settings::{Screen, Settings};
use input_types::flags::KittyKeyboardFlags;

// The settings with these numbers, each below 32.
fn listed(numbers: &[u8; 8]) -> Option<[KittyKeyboardFlags; 8]>
    ensures { MatchOption result (Unlisted numbers.now) (λ fs. map (λ f. f.bits) fs ≡ numbers.now) }
{
    let mut all = [KittyKeyboardFlags::NONE; 8];
    for (i, n) in numbers.iter().enumerate() {
        all[i] = KittyKeyboardFlags::from_bits(u16::from(*n))?;
    }
    Some(all)
}

impl Row {
    // The row with settings of these numbers in its eight places, of which the first so many are held.
    pub fn resume(numbers: &[u8; 8], held: usize) -> Option<Row>
        ensures { MatchOption result (NoRow numbers.now held) (λ r. (map (λ f. f.bits) r.settings ≡ numbers.now) × (r.held ≡ held)) }
    {
        if held < 1 || held > 8 {
            return None;
        }
        let settings = listed(numbers)?;
        Some(Row { settings, held })
    }

    // The numbers in the eight places.
    pub fn numbers(&self) -> [u8; 8]
        ensures { result ≡ map (λ f. f.bits) self.now.settings }
    {
        let mut numbers = [0; 8];
        for (i, flags) in self.settings.iter().enumerate() {
            numbers[i] = flags.bits() as u8;
        }
        numbers
    }

    // How many are held.
    pub fn held(&self) -> usize
        ensures value { result ≡ self.now.held }
        ensures bound { result ≤ 8 }
    {
        self.held
    }
}

impl Settings {
    pub fn resume(main: Row, alternate: Row, shown: Screen) -> Settings
        ensures rows { result.rows ≡ main ∷ alternate ∷ [] }
        ensures shown { result.shown ≡ shown }
    {
        Settings {
            rows: [main, alternate],
            shown,
        }
    }

    // The row of the main screen, and that of the alternate one.
    pub fn rows(&self) -> (Row, Row)
        ensures { self.now.rows ≡ result.0 ∷ result.1 ∷ [] }
    {
        (self.rows[0], self.rows[1])
    }

    pub fn shown(&self) -> Screen
        ensures { result ≡ self.now.shown }
    {
        self.shown
    }
}
