// build_tables GRAMMAR: builds the table book of a grammar book and prints it, or the refusal's number and place.
#![tactic(auto)]

use program::Error;
use reply::Reply;
use std::io;
use std::io::Write;

// The most bytes that a table book has.
const BOOK: usize = 65536;

// In a frame of its own, none of which stands while the file is read.
#[inline(never)]
fn show(rt: HostRuntime, grammar: &[u8]) -> io::Result<()> {
    let mut book = [0u8; BOOK];
    let built = builder::build_tables(grammar, &mut book);
    let reply = built.reply;
    let mut out = program::output(rt);
    match reply {
        Reply::Accepted(_) => out.write_all(&book[..built.length])?,
        Reply::Refused(_) => writeln!(out, "{},{}", reply::number(reply), reply::place(reply))?,
    }
    out.flush()
}

fn run(rt: HostRuntime) -> Result<(), Error<'static>> {
    let mut grammar = [0u8; program::FILE];
    let grammar = program::read(rt, 1, b"GRAMMAR", &mut grammar)?;
    show(rt, grammar)?;
    Ok(())
}

fn main(rt: HostRuntime) {
    if let Err(error) = run(rt) {
        error.tell(rt, "usage: build_tables GRAMMAR\n");
    }
}
