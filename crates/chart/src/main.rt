// Prints the chart of the keypad.
#![tactic(auto)]

use keypad_chart::{ROOM, write_chart};
use std::io;
use std::io::Write;

fn main(rt: HostRuntime) -> io::Result<()> {
    let mut row = [0; ROOM];
    match write_chart(&mut row) {
        Ok(count) => io::writer(&rt).write_all(&row[..count]),
        // A row of that length has room for it.
        Err(_) => unreachable!(),
    }
}
