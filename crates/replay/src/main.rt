// Answers queries that come one a line, each by one line; a call goes to the seat that was opened last.
#![tactic(auto)]

mod event_words;
mod opening;
mod print;
mod refusal;
mod reports;
mod requests;
mod seat_verbs;
mod session;
mod verbs;
mod words;

use dialect::kitty::Kitty;
use layout::us::Us;
use seat::seat::Seat;
use session::{Session, serve};
use std::io;
use std::io::{BufReader, BufWriter};
use wire::ring::Ring;

fn main(rt: HostRuntime) -> io::Result<()> {
    let heap = rt.alloc();
    let input = BufReader::new(heap, rt.stdin())?;
    let out = BufWriter::new(heap, rt.stdout())?;
    let mut session = Session::new(heap, input, out);
    // No seat yet; its type is one that a seat can have.
    let mut next = serve(&mut session, None::<Seat<Ring, Us, Kitty>>)?;
    // The bound is one that no input reaches.
    for _ in 0..u64::MAX {
        let Some(opened) = next else { break };
        next = opened.serve(&mut session)?;
    }
    session.finish()
}
