// A wire goes on from what a caller kept of it, where that is a wire's.
ghost use Rattle.std.specs.Prelude.{◌≡◌, ◌<◌, ◌≤◌, ◌⊎◌, min, length, MatchOption};

use crate::page::Page;
use crate::ring::Ring;
use crate::round::ROOM;

impl Ring {
    // The ring with this table, in which so many bytes wait from this place on.
    pub fn resume(table: &[u8; ROOM], head: usize, len: usize) -> Option<Ring>
        ensures { MatchOption result ((4096 ≤ head) ⊎ (4096 < len)) (λ r. (r.table ≡ table.now) × (r.head ≡ head) × (r.len ≡ len)) }
    {
        if head >= ROOM || len > ROOM {
            return None;
        }
        Some(Ring {
            table: *table,
            head,
            len,
        })
    }

    pub fn table(&self) -> &[u8; ROOM]
        ensures { result.now ≡ self.now.table }
    {
        &self.table
    }

    // The place of the oldest byte.
    pub fn head(&self) -> usize
        ensures value { result ≡ self.now.head }
        ensures bound { result < 4096 }
    {
        self.head
    }

    pub fn len(&self) -> usize
        ensures value { result ≡ self.now.len }
        ensures bound { result ≤ 4096 }
    {
        self.len
    }
}

impl<'a> Page<'a> {
    // The page over this buffer, at whose front so many bytes wait, or all that it has. A caller that would refuse a
    // longer count compares first: behind an `Option` no caller could say what its buffer holds at the end.
    pub fn resume(buffer: &'a mut [u8], len: usize) -> Page<'a>
        ensures same { result.buffer ≡ buffer.entry }
        ensures len { result.len ≡ min len (length buffer.old) }
    {
        let len = len.min(buffer.len());
        Page { buffer, len }
    }

    pub fn len(&self) -> usize
        ensures { result ≡ self.now.len }
    {
        self.len
    }
}
