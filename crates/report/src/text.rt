// The characters that a key press typed: at most 32, at the front of a fixed row. A row with its count beside it:
// a report is copied as it is, and the library's vectors are not.
ghost use Rattle.std.specs.Prelude.{◌≡◌, ◌≤◌, true, length, take};
ghost use Rattle.std.proofs.Math.Utf8.{scalars};
ghost use Rattle.report.specs.Pushes.{Pushed};

#[derive(Clone, Copy)]
pub struct Text {
    codes: [char; 32],
    count: u8,
    ghost few: { count ≤ 32 },
    ghost whole: { length codes ≡ 32 },
    ghost characters: { scalars (take count codes) ≡ true },
}

impl Text {
    pub fn none() -> Text
        ensures { result.count ≡ 0 }
    {
        Text {
            codes: ['\0'; 32],
            count: 0,
        }
    }

    // Adds a character at the end; false, and nothing changed, where there are 32. No more is to be told, and
    // most callers know that there is room: a Result would only be let go.
    pub fn push(&mut self, c: char) -> bool
        ensures { Pushed c self.old.count (take self.old.count self.old.codes) self.new.count (take self.new.count self.new.codes) result }
    {
        if self.count >= 32 {
            return false;
        }
        self.codes[self.count as usize] = c;
        self.count += 1;
        true
    }

    pub fn as_slice(&self) -> &[char]
        ensures { result.now ≡ take self.now.count self.now.codes }
    {
        let whole = &self.codes;
        &whole[0..self.count as usize]
    }
}
