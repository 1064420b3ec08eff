// make_load GRAMMAR SEED DEPTH: writes a test load, a sentence of the grammar that the seed and the depth settle, and its listing. Prints
// the reply's number and place, how many tokens and rules there are, then each token on a line, then each rule on a line.
#![tactic(auto)]

use program::Error;
use std::io;
use std::io::Write;

// Makes the load, and prints it. In a frame of its own, none of which stands while the file is read.
#[inline(never)]
fn make(rt: HostRuntime, grammar: &[u8], seed: u32, depth: usize) -> io::Result<()> {
    let mut tokens = [0u8; generate_steps::TOKENS];
    let mut listing = program::lend(0);
    let answer = generator::make_load(grammar, seed, depth, &mut tokens, &mut listing);
    let reply = generator::as_reply(answer);
    let mut out = program::output(rt);
    writeln!(
        out,
        "{},{},{},{}",
        reply::number(reply),
        reply::place(reply),
        generator::token_count(answer),
        generator::rule_count(answer),
    )?;
    program::print_bytes(&mut out, &tokens);
    program::print_bytes(&mut out, &listing);
    out.flush()
}

fn run(rt: HostRuntime) -> Result<(), Error<'static>> {
    let mut grammar = [0u8; program::FILE];
    let grammar = program::read(rt, 1, b"GRAMMAR", &mut grammar)?;
    let seed = program::read_u32(rt, 2, b"SEED")?;
    let depth = program::read_number(rt, 3, b"DEPTH")?;
    make(rt, grammar, seed, depth as usize)?;
    Ok(())
}

fn main(rt: HostRuntime) {
    if let Err(error) = run(rt) {
        error.tell(rt, "usage: make_load GRAMMAR SEED DEPTH\n");
    }
}
