// A wire in a small table of its own, at the end of which stands what waits: a put moves that forward, a take moves
// nothing.
ghost use Rattle.std.specs.Prelude.{◌≡◌, ℕ, ◌+◌, ◌-◌, ◌<◌, ◌≤◌, min, List, [], ◌++◌, length, drop, ⊤};
ghost use Rattle.std.specs.Result.{is_ok};
ghost use Rattle.wire.specs.Moves.{fits, after_put, moves, filled};
ghost use Rattle.other_parts.specs.Within.{behind_within};

use wire::{NoRoom, Wire};

// No more than one put takes.
const ROOM: usize = 64;

// No model, as `Ring` has none.
#[derive(Drop)]
pub struct Tray {
    table: [u8; ROOM],
    start: usize,
    ghost sized: { length table ≡ 64 },
    ghost begins: { start ≤ 64 },
}

impl Tray {
    ghost use Rattle.other_parts.specs.Waiting.{tray_waiting};

    pub fn new() -> Tray
        ensures { tray_waiting result ≡ [] }
    {
        Tray {
            table: [0; ROOM],
            start: ROOM,
        }
    }
}

impl Wire for Tray {
    ghost use Rattle.other_parts.specs.Waiting.{tray_waiting};

    ghost waiting = { tray_waiting };

    ghost capacity = { λ _. 64 };

    ghost within = { λ t. behind_within t.start t.table t.sized };

    ghost keeps = { λ _ _. ⊤ };

    ghost still = { λ _. tt };

    fn free(&self) -> usize {
        self.start
    }

    fn count(&self) -> usize {
        ROOM - self.start
    }

    fn put(&mut self, bytes: &[u8]) -> Result<(), NoRoom> {
        if bytes.len() > self.start {
            return Err(NoRoom);
        }
        let start = self.start - bytes.len();
        self.table.copy_within(self.start.., start);
        self.table[ROOM - bytes.len()..].copy_from_slice(bytes);
        self.start = start;
        Ok(())
    }

    fn take(&mut self, buffer: &mut [u8]) -> usize {
        let n = (ROOM - self.start).min(buffer.len());
        let end = self.start + n;
        buffer[..n].copy_from_slice(&self.table[self.start..end]);
        self.start = end;
        n
    }
}
