// A wire that is lent is a wire: a seat over it ends, and the lender has the wire as the seat left it.
ghost use Rattle.std.specs.Prelude.{◌≡◌};
ghost use Rattle.wire.specs.Lent.{SameWire, same_wire};

use crate::{NoRoom, Wire};

impl<W: Wire> Wire for &mut W {
    ghost waiting = { λ w. W.waiting w.now };

    ghost capacity = { λ w. W.capacity w.now };

    ghost within = { λ w. W.within w.now };

    ghost keeps = { SameWire W.keeps };

    ghost still = { λ w. same_wire W.keeps W.still w };

    fn free(&self) -> usize {
        Wire::free(&**self)
    }

    fn count(&self) -> usize {
        Wire::count(&**self)
    }

    fn put(&mut self, bytes: &[u8]) -> Result<(), NoRoom> {
        Wire::put(&mut **self, bytes)
    }

    fn take(&mut self, buffer: &mut [u8]) -> usize {
        Wire::take(&mut **self, buffer)
    }
}
