#![tactic(auto)]

mod calls;
mod command;
mod desk;
mod hall;
mod picture;
mod show;
mod words;

use command::parse;
use hall::Hall;
use std::io;
use std::io::{BufRead, BufReader, Write};
use words::Unknown;

/// Reads commands from standard input, one a line, and writes each answer at once.
fn main(rt: HostRuntime) -> io::Result<()> {
    let heap = rt.alloc();
    let mut hall = Hall::new(heap)?;
    for line in BufReader::new(heap, rt.stdin())?.split(heap, b'\n') {
        let line = line?;
        let mut page = Vec::new(heap);
        match parse(&line) {
            Ok(Some(command)) => hall.answer(&mut page, command)?,
            Ok(None) => {}
            Err(Unknown(what)) => show::unknown(&mut page, what)?,
        }
        rt.stdout().write_all(&page)?;
    }
    Ok(())
}
