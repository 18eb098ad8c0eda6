// Bytes for the reader of a host's requests.
use crate::print::put;
use crate::refusal::Refusal;
use crate::words::{Words, read_bytes};
use request::{Fault, Reader, Request};
use std::alloc::Global;
use std::io;
use std::io::Write;

fn put_ended<O: Write>(out: &mut O, ended: Result<Request, Fault>) -> io::Result<()> {
    match ended {
        Ok(Request::Push(flags)) => write!(out, "push {flags}"),
        Ok(Request::Pop(n)) => write!(out, "pop {n}"),
        Ok(Request::Set(flags, mode)) => write!(out, "set {flags} {mode}"),
        Ok(Request::Query) => put(out, "query"),
        Err(Fault::Misfit) => put(out, "misfit"),
    }
}

// What each byte ended, with commas between; a dash where none did.
pub(crate) fn answer_request<O: Write>(
    heap: Global,
    out: &mut O,
    requests: &mut Reader,
    words: &mut Words,
) -> Result<(), Refusal> {
    let bytes = read_bytes(heap, words.last()?)?;
    let mut mark = "";
    for byte in bytes.as_slice() {
        if let Some(ended) = requests.feed(*byte).transpose() {
            put(out, mark)?;
            put_ended(out, ended)?;
            mark = ",";
        }
    }
    if mark.is_empty() {
        put(out, "-")?;
    }
    Ok(())
}
