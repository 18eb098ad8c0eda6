// Runs a script of calls over seats: lines come from the standard input, and each is answered by one.
#![tactic(auto)]

mod keys;
mod lines;
mod run;
mod show;
mod words;
mod wrong;

use clap::{Arg, ArgAction, Command};
use run::Options;
use std::alloc::{AllocError, Global};
use std::io::{BufWriter, Read, Write};
use std::process::ExitCode;
use std::{env, io};

const SCRIPT: &str = "\
The script, a line for each, words with spaces between; lines that begin with # are passed over:
  open ring|page:SIZE kitty|frame us|bare
  key KEY [MODIFIERS] [release] [caps] [num] [on PLACE] [raw KEY [MODIFIERS]]
  push FLAGS      pop COUNT      set FLAGS MODE      screen 0|1
  query           drain ROOM     request BYTES
KEY is a name (UpArrow or Up, F5, Numpad7, Escape), a character, U+HEX, text:TEXT, phys:PLACE,
numpad:N, function:N or raw:N; MODIFIERS as SHIFT|CTRL; PLACE as C, 5 or Keypad5. In BYTES, ESC
stands for the byte 1b. Each line is answered by its number, its words and what it came to.";

fn command<'a>(heap: Global) -> Result<Command<'a>, AllocError> {
    let frames = Arg::new(heap, "frames")
        .long("frames")
        .help("Every seat writes frames for the recorder")
        .action(ArgAction::SetTrue);
    let read = Arg::new(heap, "read")
        .long("read")
        .help("Read drained bytes back, a line for each report")
        .action(ArgAction::SetTrue);
    Command::new(heap, "console")
        .about("Runs a script of calls over operator seats, from the standard input")
        .after_help(SCRIPT)
        .arg(frames)?
        .arg(read)
}

fn main(rt: HostRuntime) -> anyhow::Result<ExitCode> {
    let heap = rt.alloc();
    let words: Vec<String> = env::args(&rt)?.collect(heap)?;
    let matches = match command(heap)?.try_get_matches_from(words.as_slice()) {
        Ok(matches) => matches,
        Err(error) => {
            error.print(&rt)?;
            return Ok(ExitCode::from(error.exit_code() as u8));
        }
    };
    let options = Options {
        frames: matches.get_flag("frames"),
        read: matches.get_flag("read"),
    };
    let mut lines = Vec::new(heap);
    rt.stdin().read_to_end(&mut lines)?;
    let mut out = BufWriter::new(heap, rt.stdout())?;
    run::run(heap, &mut out, options, lines.as_slice())?;
    out.flush()?;
    Ok(ExitCode::SUCCESS)
}
