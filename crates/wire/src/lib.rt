// A wire keeps bytes in order, up to a capacity that never changes.
#![tactic(auto)]

ghost use Rattle.std.specs.Prelude.{◌≡◌, ℕ, ◌+◌, ◌-◌, ◌<◌, ◌≤◌, min, List, ◌++◌, length, drop};
ghost use Rattle.std.specs.Result.{is_ok};
ghost use Rattle.wire.specs.Moves.{fits, after_put, moves, filled};

pub mod lent;
pub mod lent_ring;
pub mod page;
pub mod resuming;
pub mod ring;
mod round;

// The most bytes that one put takes.
const MOST: usize = 512;

// More bytes than are free, or than one put takes.
#[derive(Clone, Copy, Debug, PartialEq, Eq)]
pub struct NoRoom;

pub trait Wire {
    // The bytes waiting, oldest first.
    ghost waiting: { Self → List ℕ };

    ghost capacity: { Self → ℕ };

    // No more wait than there is room for: each implementation shows it.
    ghost within: { (w : Self) → length (waiting w) ≤ capacity w };

    // What a put and a take keep of the memory that a wire borrows: a seat over the wire promises it too.
    ghost keeps: { Self → Self → Type 0 };

    // A wire that is not called keeps it.
    ghost still: { (w : Self) → keeps w w };

    fn free(&self) -> usize
        ensures { result ≡ min 65536 (capacity self.now - length (waiting self.now)) };

    fn count(&self) -> usize
        ensures { result ≡ min 65536 (length (waiting self.now)) };

    // All of the bytes, or none.
    fn put(&mut self, bytes: &[u8]) -> Result<(), NoRoom>
        ensures value { is_ok result ≡ fits (waiting self.old) (capacity self.old) bytes.now }
        ensures after { waiting self.new ≡ after_put (waiting self.old) (capacity self.old) bytes.now }
        ensures capacity { capacity self.new ≡ capacity self.old }
        ensures keeps { keeps self.old self.new };

    fn take(&mut self, buffer: &mut [u8]) -> usize
        ensures value { result ≡ moves (waiting self.old) buffer.old }
        ensures buffer { buffer.new ≡ filled (waiting self.old) buffer.old }
        ensures after { waiting self.new ≡ drop (moves (waiting self.old) buffer.old) (waiting self.old) }
        ensures capacity { capacity self.new ≡ capacity self.old }
        ensures keeps { keeps self.old self.new };
}
