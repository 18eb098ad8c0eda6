// A table in which bytes wait in turn, from end to end: so many from the place of the oldest on.
ghost use Rattle.std.specs.Prelude.{◌≡◌, ◌+◌, ◌-◌, ◌%◌, ◌<◌, ◌≤◌, ◌++◌, length, drop};
ghost use Rattle.wire.specs.Moves.{moves, filled, ringed, twice_written};

pub(crate) const ROOM: usize = 4096;

// Puts bytes to a place of a table, and others to its front.
fn write(table: &mut [u8; ROOM], at: usize, front: &[u8], rest: &[u8])
    requires place { at + length front.now ≤ 4096 }
    requires few { length rest.now ≤ 4096 }
    ensures { table.new ≡ twice_written table.old at front.now rest.now }
{
    table[at..at + front.len()].copy_from_slice(front);
    table[..rest.len()].copy_from_slice(rest);
}

// Puts bytes behind those that wait. In two parts where they go round the table's end, since a byte at a time is slow.
pub(crate) fn put_round(table: &mut [u8; ROOM], head: usize, len: usize, bytes: &[u8])
    requires begins { head < 4096 }
    requires room { len + length bytes.now ≤ 4096 }
    ensures after { ringed table.new head (len + length bytes.now) ≡ ringed table.old head len ++ bytes.now }
    ensures none { length bytes.now ≡ 0 → table.new ≡ table.old }
    ensures lies { length table.new ≡ 4096 }
{
    let at = (head + len) % ROOM;
    let (front, rest) = bytes.split_at(bytes.len().min(ROOM - at));
    write(table, at, front, rest);
}

// Moves the oldest bytes to the front of a buffer, and answers how many.
pub(crate) fn take_round(table: &[u8; ROOM], head: usize, len: usize, buffer: &mut [u8]) -> usize
    requires begins { head < 4096 }
    requires held { len ≤ 4096 }
    ensures value { result ≡ moves (ringed table.now head len) buffer.old }
    ensures buffer { buffer.new ≡ filled (ringed table.now head len) buffer.old }
    ensures after { ringed table.now ((head + result) % 4096) (len - result) ≡ drop result (ringed table.now head len) }
{
    let n = len.min(buffer.len());
    let first = n.min(ROOM - head);
    buffer[..first].copy_from_slice(&table[head..head + first]);
    buffer[first..n].copy_from_slice(&table[..n - first]);
    n
}
