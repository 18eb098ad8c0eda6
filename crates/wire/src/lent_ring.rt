// A ring in a table that the caller lends, so that bytes which the caller keeps are used where they stand.
ghost use Rattle.std.specs.Prelude.{◌≡◌, ◌%◌, ◌<◌, ◌≤◌, min, length};
ghost use Rattle.wire.specs.Within.{ringed_within};

use crate::round::{ROOM, put_round, take_round};
use crate::{MOST, NoRoom, Wire};

#[derive(Drop)]
pub struct LentRing<'a> {
    pub(crate) table: &'a mut [u8; ROOM],
    pub(crate) head: usize,
    pub(crate) len: usize,
    ghost lies: { length table.now ≡ 4096 },
    ghost begins: { head < 4096 },
    ghost held: { len ≤ 4096 },
}

impl<'a> LentRing<'a> {
    // The ring over this table, in which so many bytes wait from this place on; places are counted round the table, and
    // no more wait than it has. A caller that would refuse other numbers compares first: behind an `Option` no caller
    // could say what its table holds at the end.
    pub fn resume(table: &'a mut [u8; ROOM], head: usize, len: usize) -> LentRing<'a>
        ensures same { result.table ≡ table.entry }
        ensures head { result.head ≡ head % 4096 }
        ensures len { result.len ≡ min len 4096 }
    {
        LentRing {
            table,
            head: head % ROOM,
            len: len.min(ROOM),
        }
    }

    // The place of the oldest byte.
    pub fn head(&self) -> usize
        ensures value { result ≡ self.now.head }
        ensures bound { result < 4096 }
    {
        self.head
    }

    pub fn len(&self) -> usize
        ensures value { result ≡ self.now.len }
        ensures bound { result ≤ 4096 }
    {
        self.len
    }
}

impl<'a> Wire for LentRing<'a> {
    ghost use Rattle.wire.specs.Waiting.{lent_waiting};
    ghost use Rattle.wire.specs.Tables.{SameTable, same_table};

    ghost waiting = { lent_waiting };

    ghost capacity = { λ _. 4096 };

    ghost within = { λ r. ringed_within r.table.now r.head r.len };

    ghost keeps = { SameTable };

    ghost still = { same_table };

    fn free(&self) -> usize {
        ROOM - self.len
    }

    fn count(&self) -> usize {
        self.len
    }

    fn put(&mut self, bytes: &[u8]) -> Result<(), NoRoom> {
        if bytes.len() > Wire::free(&*self).min(MOST) {
            return Err(NoRoom);
        }
        put_round(&mut *self.table, self.head, self.len, bytes);
        self.len += bytes.len();
        Ok(())
    }

    fn take(&mut self, buffer: &mut [u8]) -> usize {
        let n = take_round(&*self.table, self.head, self.len, buffer);
        self.head = (self.head + n) % ROOM;
        self.len -= n;
        n
    }
}
