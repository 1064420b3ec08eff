// read_grammar GRAMMAR: reads a grammar book, and prints the reply's number and place.
#![tactic(auto)]

use program::Error;
use std::io;
use std::io::Write;

// In a frame of its own, none of which stands while the file is read.
#[inline(never)]
fn show(rt: HostRuntime, book: &[u8]) -> io::Result<()> {
    let mut items = [0u8; grammar::TABLE];
    let reply = grammar::as_reply(grammar::read_grammar(book, &mut items));
    let mut out = program::output(rt);
    writeln!(out, "{},{}", reply::number(reply), reply::place(reply))?;
    out.flush()
}

fn run(rt: HostRuntime) -> Result<(), Error<'static>> {
    let mut book = [0u8; program::FILE];
    let book = program::read(rt, 1, b"GRAMMAR", &mut book)?;
    show(rt, book)?;
    Ok(())
}

fn main(rt: HostRuntime) {
    if let Err(error) = run(rt) {
        error.tell(rt, "usage: read_grammar GRAMMAR\n");
    }
}
