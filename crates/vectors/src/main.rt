// Runs cases, each a number with a comma after it and the words of a call:
//     1, GRAMMAR                                 read_grammar
//     2, GRAMMAR TABLES                          check_tables
//     3, GRAMMAR LENGTH,                         build_tables, into a slice of so many bytes
//     4, SCANS LENGTH,                           read_scans, into a slice of so many bytes
//     5, GRAMMAR TABLES TOKENS STACK, LISTING,   run_session over tokens, a byte each, with slices of so many bytes
//     6, GRAMMAR TABLES SCANS STACK, LISTING,    run_scans
//     7, GRAMMAR TABLES TOKENS STACK, LISTING, CODES,   list_expected; 65,536 stands for all that the program can lend
//     8, GRAMMAR TABLES SCANS STACK, LISTING, CODES,    list_expected_scans
//     9, GRAMMAR SEED, DEPTH, TOKENS, LISTING,   make_load; 65,536 rules stand for all that the program can lend
//     10, GRAMMAR TABLES LOADED SEED, DEPTH,     run_session over the load that make_load writes of the grammar LOADED
//     11, GRAMMAR SCANS,                         bound_listing, of so many scans
//     12, LETTERS TERMINALS, LENGTH,             read_letters, into a slice of so many bytes
//     13, LETTERS SCANS TERMINALS, LENGTH,       read_lettered, into a slice of so many bytes
//     14, GRAMMAR TABLES LETTERS SCANS STACK, LISTING,         run_lettered
//     15, GRAMMAR TABLES LETTERS SCANS STACK, LISTING, CODES,  list_expected_lettered
// Prints for each the name of its last file, what the call answers, and what is not 0 in each slice that was lent, which held 7s; of letters
// that are good all codes, zeros too; of a load a line stands for a run of equal bytes, and of one that is walked 1 for the same listing
// from both calls, 0 for another.
#![tactic(auto)]

ghost use Rattle.std.specs.Prelude.{◌≡◌, ◌<◌, ◌≤◌, ◌+◌, min};
ghost use Rattle.vectors.specs.Words.{files};

use expected_trials::ExpectedReply;
use generator::GeneratorReply;
use program::{Error, FILE, LENT, Printer};
use reply::Reply;
use session::SessionReply;
use std::env::Env;
use std::io;
use std::io::Write;

const USAGE: &str = "usage: vectors (CALL, WORD..)..\n";

// The most bytes that a case lends where it lends no LENT.
const ROOM: usize = 65536;

// The words of the cases: arguments, one after another.
#[derive(Drop)]
struct Words {
    rt: HostRuntime,
    next: usize,
}

// A file that a case names: which argument that is, and the file's bytes.
#[derive(Clone, Copy)]
struct Input<'a> {
    name: usize,
    bytes: &'a [u8],
}

impl Words {
    // Takes a word, and answers which argument it is.
    fn take(&mut self) -> usize
        ensures { self.new.next ≡ min (self.old.next + 1) 18446744073709551615 }
    {
        let i = self.next;
        self.next = i.saturating_add(1);
        i
    }

    // The number that a word begins with.
    fn number(&mut self) -> usize
        ensures { self.new.next ≡ min (self.old.next + 1) 18446744073709551615 }
    {
        program::argument_number(self.rt, self.take()) as usize
    }

    // The same, at most 65,536.
    fn length(&mut self) -> usize
        ensures small { result ≤ 65536 }
        ensures taken { self.new.next ≡ min (self.old.next + 1) 18446744073709551615 }
    {
        self.number().min(65536)
    }

    // The file that a word names. Where that cannot be read, standard error says so, and the case goes on with what was read.
    fn file<'a>(&mut self, buf: &'a mut [u8]) -> Input<'a>
        ensures { self.new.next ≡ min (self.old.next + 1) 18446744073709551615 }
    {
        let name = self.take();
        let usage = USAGE.as_bytes();
        let read = program::read_argument(self.rt, name, b"a word of a case", usage, buf);
        Input {
            name,
            bytes: &buf[..read.size],
        }
    }

    // An output that begins with the name of a file, as far as 4,096 bytes go.
    fn output(&self, input: Input<'_>) -> io::Result<Printer> {
        let mut out = program::output(self.rt);
        let mut name = [0u8; 4096];
        let _ = self.rt.arg(input.name, &mut name);
        out.write_all(before_zero(&name))?;
        out.write_all(b"\n")?;
        Ok(out)
    }
}

// A length, where 65,536 stands for all that a program can lend.
fn lent(n: usize) -> usize
    ensures { result ≤ 1048576 }
{
    if n < 65536 { n } else { LENT }
}

// What stands before the first 0.
fn before_zero(text: &[u8]) -> &[u8] {
    let end = text.iter().position(|b| *b == 0).unwrap_or(text.len());
    &text[..end]
}

fn write_reply(out: &mut Printer, reply: Reply) -> io::Result<()> {
    writeln!(out, "{},{}", reply::number(reply), reply::place(reply))
}

// The functions of the calls are not inlined: what one lends stands on the machine stack while it runs, and no longer.
#[inline(never)]
fn run_grammar(words: &mut Words) -> Result<(), Error<'static>>
    ensures { words.new.next ≡ min (words.old.next + 1) 18446744073709551615 }
{
    let mut book = [0u8; FILE];
    let book = words.file(&mut book);
    let mut items = [0u8; grammar::TABLE];
    let answer = grammar::read_grammar(book.bytes, &mut items);
    let mut out = words.output(book)?;
    write_reply(&mut out, grammar::as_reply(answer))?;
    out.flush()?;
    Ok(())
}

#[inline(never)]
fn run_check(words: &mut Words) -> Result<(), Error<'static>>
    ensures { words.new.next ≡ min (words.old.next + 2) 18446744073709551615 }
{
    let mut grammar = [0u8; FILE];
    let mut tables = [0u8; FILE];
    let grammar = words.file(&mut grammar);
    let tables = words.file(&mut tables);
    let mut out = words.output(tables)?;
    write_reply(&mut out, checker::check_tables(grammar.bytes, tables.bytes))?;
    out.flush()?;
    Ok(())
}

// Prints the length that is answered and how many bytes are not 0, then the book.
#[inline(never)]
fn run_build(words: &mut Words) -> Result<(), Error<'static>>
    ensures { words.new.next ≡ min (words.old.next + 2) 18446744073709551615 }
{
    let mut grammar = [0u8; FILE];
    let mut room = [7u8; ROOM];
    let grammar = words.file(&mut grammar);
    let book = &mut room[..words.length()];
    let built = builder::build_tables(grammar.bytes, book);
    let mut out = words.output(grammar)?;
    write_reply(&mut out, built.reply)?;
    let set = book.iter().filter(|b| **b != 0).count();
    writeln!(out, "{},{set}", built.length)?;
    out.write_all(before_zero(book))?;
    out.flush()?;
    Ok(())
}

#[inline(never)]
fn run_scans(words: &mut Words) -> Result<(), Error<'static>>
    ensures { words.new.next ≡ min (words.old.next + 2) 18446744073709551615 }
{
    let mut scans = [0u8; FILE];
    let mut room = [7u8; ROOM];
    let scans = words.file(&mut scans);
    let tokens = &mut room[..words.length()];
    let mut out = words.output(scans)?;
    write_reply(&mut out, scans::read_scans(scans.bytes, tokens))?;
    program::print_bytes(&mut out, tokens);
    out.flush()?;
    Ok(())
}

#[inline(never)]
fn run_letters(words: &mut Words) -> Result<(), Error<'static>>
    ensures { words.new.next ≡ min (words.old.next + 3) 18446744073709551615 }
{
    let mut letters = [0u8; FILE];
    let mut room = [7u8; ROOM];
    let letters = words.file(&mut letters);
    let terminals = words.length();
    let codes = &mut room[..words.length()];
    let reply = letters::read_letters(letters.bytes, terminals, codes);
    let mut out = words.output(letters)?;
    write_reply(&mut out, reply)?;
    let is_good = reply::number(reply) == 0;
    program::print_list(&mut out, codes, if is_good { letters::LETTERS } else { 0 });
    out.flush()?;
    Ok(())
}

#[inline(never)]
fn run_lettered_scans(words: &mut Words) -> Result<(), Error<'static>>
    ensures { words.new.next ≡ min (words.old.next + 4) 18446744073709551615 }
{
    let mut letters = [0u8; FILE];
    let mut scans = [0u8; FILE];
    let mut room = [7u8; ROOM];
    let letters = words.file(&mut letters);
    let scans = words.file(&mut scans);
    let terminals = words.length();
    let tokens = &mut room[..words.length()];
    let reply = lettered_scans::read_lettered(letters.bytes, terminals, scans.bytes, tokens);
    let mut out = words.output(scans)?;
    write_reply(&mut out, reply)?;
    program::print_bytes(&mut out, tokens);
    out.flush()?;
    Ok(())
}

// What a session is over: tokens, a byte each, or scans, with the house letters or with those of a letters book.
#[derive(Clone, Copy)]
enum Over {
    Tokens,
    Scans,
    LetteredScans,
    // with a letters book of no bytes, which no word names
    UnletteredScans,
}

// The books and the input of a session.
#[derive(Clone, Copy)]
struct Session<'a> {
    grammar: &'a [u8],
    tables: &'a [u8],
    letters: &'a [u8],
    input: Input<'a>,
    over: Over,
}

impl<'a> Session<'a> {
    // Reads them into buffers. A session without a letters book has no use for its buffer.
    fn read(
        words: &mut Words,
        over: Over,
        grammar: &'a mut [u8],
        tables: &'a mut [u8],
        letters: &'a mut [u8],
        input: &'a mut [u8],
    ) -> Session<'a>
        ensures { words.new.next ≡ min (words.old.next + files over) 18446744073709551615 }
    {
        Session {
            grammar: words.file(grammar).bytes,
            tables: words.file(tables).bytes,
            letters: match over {
                Over::LetteredScans => words.file(letters).bytes,
                _ => b"",
            },
            input: words.file(input),
            over,
        }
    }

    fn walk(&self, stack: &mut [u8], listing: &mut [u8]) -> SessionReply {
        let grammar = self.grammar;
        let tables = self.tables;
        let input = self.input.bytes;
        match self.over {
            Over::Tokens => session::run_session(grammar, tables, input, stack, listing),
            Over::Scans => scan_session::run_scans(grammar, tables, input, stack, listing),
            Over::LetteredScans | Over::UnletteredScans => {
                scan_session::run_lettered(grammar, tables, self.letters, input, stack, listing)
            }
        }
    }

    fn list_expected(
        &self,
        stack: &mut [u8],
        listing: &mut [u8],
        codes: &mut [u8],
    ) -> ExpectedReply {
        let grammar = self.grammar;
        let tables = self.tables;
        let input = self.input.bytes;
        match self.over {
            Over::Tokens => expected::list_expected(grammar, tables, input, stack, listing, codes),
            Over::Scans => {
                expected_scans::list_expected_scans(grammar, tables, input, stack, listing, codes)
            }
            Over::LetteredScans | Over::UnletteredScans => expected_scans::list_expected_lettered(
                grammar,
                tables,
                self.letters,
                input,
                stack,
                listing,
                codes,
            ),
        }
    }
}

// Prints the reply of a session and its counts.
fn write_walked(out: &mut Printer, answer: SessionReply) -> io::Result<()> {
    let reply = walker::as_reply(answer);
    writeln!(
        out,
        "{},{},{},{}",
        reply::number(reply),
        reply::place(reply),
        walker::rule_count(answer),
        walker::unit_count(answer),
    )
}

#[inline(never)]
fn run_walk(words: &mut Words, over: Over, letters: &mut [u8]) -> Result<(), Error<'static>>
    ensures { words.new.next ≡ min (words.old.next + files over + 2) 18446744073709551615 }
{
    let mut grammar = [0u8; FILE];
    let mut tables = [0u8; FILE];
    let mut input = [0u8; FILE];
    let mut stack = [7u8; ROOM];
    let mut listing = [7u8; ROOM];
    let session = Session::read(words, over, &mut grammar, &mut tables, letters, &mut input);
    let stack = &mut stack[..words.length()];
    let listing = &mut listing[..words.length()];
    let answer = session.walk(stack, listing);
    let mut out = words.output(session.input)?;
    write_walked(&mut out, answer)?;
    program::print_bytes(&mut out, listing);
    program::print_bytes(&mut out, stack);
    out.flush()?;
    Ok(())
}

#[inline(never)]
fn run_lettered_walk(words: &mut Words) -> Result<(), Error<'static>>
    ensures { words.new.next ≡ min (words.old.next + 6) 18446744073709551615 }
{
    let mut letters = [0u8; FILE];
    run_walk(words, Over::LetteredScans, &mut letters)
}

// Prints the codes that are counted, zeros too.
#[inline(never)]
fn run_list(words: &mut Words, over: Over, letters: &mut [u8]) -> Result<(), Error<'static>>
    ensures { words.new.next ≡ min (words.old.next + files over + 3) 18446744073709551615 }
{
    let mut grammar = [0u8; FILE];
    let mut tables = [0u8; FILE];
    let mut input = [0u8; FILE];
    let mut stack = program::lend(7);
    let mut listing = program::lend(7);
    let mut codes = [7u8; ROOM];
    let session = Session::read(words, over, &mut grammar, &mut tables, letters, &mut input);
    let stack = &mut stack[..lent(words.length())];
    let listing = &mut listing[..lent(words.length())];
    let codes = &mut codes[..words.length()];
    let answer = session.list_expected(stack, listing, codes);
    let mut out = words.output(session.input)?;
    write_reply(&mut out, expected::as_reply(answer))?;
    program::print_list(&mut out, codes, expected::code_count(answer));
    program::print_bytes(&mut out, listing);
    program::print_bytes(&mut out, stack);
    out.flush()?;
    Ok(())
}

#[inline(never)]
fn run_lettered_list(words: &mut Words) -> Result<(), Error<'static>>
    ensures { words.new.next ≡ min (words.old.next + 7) 18446744073709551615 }
{
    let mut letters = [0u8; FILE];
    run_list(words, Over::LetteredScans, &mut letters)
}

// Prints the reply of a load and its counts.
fn write_made(out: &mut Printer, answer: GeneratorReply) -> io::Result<()> {
    let reply = generator::as_reply(answer);
    writeln!(
        out,
        "{},{},{},{}",
        reply::number(reply),
        reply::place(reply),
        generator::token_count(answer),
        generator::rule_count(answer),
    )
}

// Prints the runs of equal bytes, of zeros nothing: loads are long, and what a program may write under the gate is 1 MiB.
fn write_runs(out: &mut Printer, bytes: &[u8]) -> io::Result<()> {
    for run in bytes.chunk_by(|a, b| a == b) {
        match run {
            [] | [0, ..] => {}
            [_] => program::print_bytes(out, run),
            [byte, ..] => writeln!(out, "{byte},{}", run.len())?,
        }
    }
    Ok(())
}

#[inline(never)]
fn run_load(words: &mut Words) -> Result<(), Error<'static>>
    ensures { words.new.next ≡ min (words.old.next + 5) 18446744073709551615 }
{
    let mut grammar = [0u8; FILE];
    let mut tokens = [7u8; ROOM];
    let mut listing = program::lend(7);
    let grammar = words.file(&mut grammar);
    let seed = words.number();
    let depth = words.number();
    let tokens = &mut tokens[..words.length()];
    let listing = &mut listing[..lent(words.length())];
    let answer = generator::make_load(
        grammar.bytes,
        (seed & 0xffff_ffff) as u32,
        depth,
        tokens,
        listing,
    );
    let mut out = words.output(grammar)?;
    write_made(&mut out, answer)?;
    write_runs(&mut out, tokens)?;
    write_runs(&mut out, listing)?;
    out.flush()?;
    Ok(())
}

// Makes a load and walks it, and compares the listings.
#[inline(never)]
fn run_walked_load(words: &mut Words) -> Result<(), Error<'static>>
    ensures { words.new.next ≡ min (words.old.next + 5) 18446744073709551615 }
{
    let mut grammar = [0u8; FILE];
    let mut tables = [0u8; FILE];
    let mut loaded = [0u8; FILE];
    let mut tokens = [7u8; generate_steps::TOKENS];
    let mut listing = program::lend(7);
    let mut stack = program::lend(7);
    let mut walked = program::lend(7);
    let grammar = words.file(&mut grammar);
    let tables = words.file(&mut tables);
    let loaded = words.file(&mut loaded);
    let seed = words.length();
    let depth = words.length();
    let made = generator::make_load(loaded.bytes, seed as u32, depth, &mut tokens, &mut listing);
    let answer = session::run_session(
        grammar.bytes,
        tables.bytes,
        &tokens[..generator::token_count(made)],
        &mut stack,
        &mut walked,
    );
    let mut out = words.output(loaded)?;
    write_made(&mut out, made)?;
    write_walked(&mut out, answer)?;
    writeln!(out, "{}", u8::from(listing == walked))?;
    out.flush()?;
    Ok(())
}

#[inline(never)]
fn run_bound(words: &mut Words) -> Result<(), Error<'static>>
    ensures { words.new.next ≡ min (words.old.next + 2) 18446744073709551615 }
{
    let mut grammar = [0u8; FILE];
    let grammar = words.file(&mut grammar);
    let scans = words.number();
    let answer = listing_bound::bound_listing(grammar.bytes, scans);
    let reply = listing_bound::as_reply(answer);
    let mut out = words.output(grammar)?;
    write!(out, "{},{},", reply::number(reply), reply::place(reply))?;
    if listing_bound::is_unbounded(answer) {
        writeln!(out, "-")?;
    } else {
        writeln!(out, "{}", listing_bound::rule_count(answer))?;
    }
    out.flush()?;
    Ok(())
}

// Runs the case that begins with the next word. It takes a word at least, unless there is no number for one more, and eight at most.
fn run_case(words: &mut Words) -> Result<(), Error<'static>>
    ensures moves { words.old.next < 18446744073709551615 → words.old.next < words.new.next }
    ensures within { words.new.next ≤ words.old.next + 8 }
{
    match words.number() {
        1 => run_grammar(words),
        2 => run_check(words),
        3 => run_build(words),
        4 => run_scans(words),
        5 => run_walk(words, Over::Tokens, &mut []),
        6 => run_walk(words, Over::Scans, &mut []),
        7 => run_list(words, Over::Tokens, &mut []),
        8 => run_list(words, Over::Scans, &mut []),
        9 => run_load(words),
        10 => run_walked_load(words),
        11 => run_bound(words),
        12 => run_letters(words),
        13 => run_lettered_scans(words),
        14 => run_lettered_walk(words),
        15 => run_lettered_list(words),
        _ => run_list(words, Over::UnletteredScans, &mut []),
    }
}

fn main(rt: HostRuntime) {
    let count = program::argument_count(rt);
    let mut words = Words { rt, next: 1 };
    // A case has a word at least, so there are no more cases than words.
    for _ in 1..count {
        if count <= words.next {
            break;
        }
        if let Err(error) = run_case(&mut words) {
            error.tell(rt, USAGE);
        }
    }
}
