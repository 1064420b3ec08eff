// What the programs share: the files and numbers that arguments name, what is said on standard error of those that won't do, and
// standard output, which is written in blocks.
// Inner: for the programs.
#![tactic(auto)]

ghost use Rattle.std.specs.Counts.{IsPrefixLen};
ghost use Rattle.std.specs.Prelude.{◌≡◌, ◌≢◌, ◌≤◌, ◌<◌, ◌+◌, Err, IfOk, IfSome, length};
ghost use Rattle.program.specs.declared.Error.TheVariants.{Output, OutOfMemory};

use std::alloc::AllocError;
use std::env::{Env, FillError};
use std::fs::File;
use std::io::{Read, Write};
use std::{io, mem};

// The bytes of a block of output.
const BLOCK: usize = 4096;

// The bytes of an argument that are read.
const NAME: usize = 4096;

// How often a read that is interrupted is tried again.
const RETRIES: usize = 64;

// The error of an argument of more bytes, ENAMETOOLONG.
const TOO_LONG: i32 = 36;

// The bytes of a file that are read: one more than the most that a file may have.
pub const FILE: usize = 65537;

// The states, and the rules, that a walk or a load may come to.
pub const LENT: usize = 1048576;

// The least number of more than 32 bits, which stands for every greater one too.
const BEYOND: u64 = 4294967296;

// Why a program stops. A file that could not be read goes by its argument's number, another argument by what it is for.
#[derive(Debug, Drop)]
pub enum Error<'a> {
    Missing(&'a [u8]),
    NameTooLong(&'a [u8]),
    NoNumber(&'a [u8]),
    TooGreat(&'a [u8]),
    Unreadable(usize, io::Error),
    Output(io::Error),
    OutOfMemory,
}

// Of output alone: what fails of a file has its argument's number beside it.
impl From<io::Error> for Error<'_> {
    ghost from_gives = { λ error told. told ≡ Output error };

    fn from(error: io::Error) -> Self {
        Error::Output(error)
    }
}

impl From<AllocError> for Error<'_> {
    ghost from_gives = { λ _ told. told ≡ OutOfMemory };

    fn from(_error: AllocError) -> Self {
        Error::OutOfMemory
    }
}

impl Error<'_> {
    // Says on standard error what is wrong and, unless it is the output or the memory, how the program is used. Where that cannot be
    // written, nothing says so.
    pub fn tell(self, rt: HostRuntime, usage: &str) {
        self.print(rt, usage.as_bytes());
    }

    // Not inlined, nor is `print_unreadable`: what they need of the machine stack they take only while they run.
    #[inline(never)]
    fn print(self, rt: HostRuntime, usage: &[u8]) {
        match self {
            Error::Missing(what) => print_fault(rt, what, " is missing\n"),
            Error::NoNumber(what) => print_fault(rt, what, " is no number\n"),
            Error::TooGreat(what) => print_fault(rt, what, " is above 4294967295\n"),
            Error::NameTooLong(what) => {
                print_reason(rt, what, io::Error::from_raw_os_error(TOO_LONG))
            }
            Error::Unreadable(i, error) => print_unreadable(rt, i, error),
            Error::Output(error) => return print_reason(rt, b"standard output", error),
            Error::OutOfMemory => return print_words(rt, b"out of memory\n"),
        }
        print_words(rt, usage);
    }
}

// Words on standard error. Where they cannot be written, those that follow are tried all the same.
fn print_words(rt: HostRuntime, words: &[u8]) {
    let _ = rt.stderr().write_all(words);
}

// What is at fault, and how.
fn print_fault(rt: HostRuntime, what: &[u8], how: &str) {
    print_words(rt, what);
    print_words(rt, how.as_bytes());
}

// What failed and why, as the system words it, without the error's number.
fn print_reason(rt: HostRuntime, what: &[u8], error: io::Error) {
    print_fault(rt, what, ": ");
    let text = error.to_string(rt.alloc());
    let reason = match &text {
        Ok(text) => text.split(" (os error ").next().unwrap_or(""),
        Err(_) => "out of memory",
    };
    let _ = eprintln!(rt; "{reason}");
}

// The file that could not be read, and why.
#[inline(never)]
fn print_unreadable(rt: HostRuntime, i: usize, error: io::Error) {
    let mut name = [0u8; NAME];
    let n = rt.arg(i, &mut name).unwrap_or(0);
    print_reason(rt, &name[..n], error)
}

// One read, tried again where a signal interrupts it, as often as the library tries a write.
fn read_some(file: &mut File, buf: &mut [u8]) -> io::Result<usize>
    ensures { IfOk result (λ n. IsPrefixLen n buf.new) }
{
    for _ in 0..RETRIES {
        match file.read(buf) {
            Err(error) if error.kind() == io::ErrorKind::Interrupted => {}
            outcome => return outcome,
        }
    }
    file.read(buf)
}

// Reads a file until `buf` is full or the file ends, then, after the end, once more: how many bytes `buf` has of it, and whether a read
// failed.
fn read_open(mut file: File, buf: &mut [u8]) -> (usize, io::Result<()>)
    ensures { IsPrefixLen result.0 buf.new }
{
    let mut size = 0;
    // Stays a `while`: `size` moves by what a read gives.
    while size < buf.len() {
        match read_some(&mut file, &mut buf[size..]) {
            Ok(0) => return (size, read_some(&mut file, &mut [0u8; 1]).map(drop)),
            Ok(n) => size += n,
            Err(error) => return (size, Err(error)),
        }
    }
    (size, Ok(()))
}

// The same of the file at `path`. The library opens those alone whose names are UTF-8.
fn read_path(rt: HostRuntime, path: &[u8], buf: &mut [u8]) -> (usize, io::Result<()>)
    ensures { IsPrefixLen result.0 buf.new }
{
    let Ok(path) = std::str::from_utf8(path) else {
        let error = io::Error::new(io::ErrorKind::InvalidInput, "not UTF-8");
        return (0, Err(error));
    };
    match File::open(&rt, path) {
        Ok(file) => read_open(file, buf),
        Err(error) => (0, Err(error)),
    }
}

// The same of the file that argument i names. Not inlined: the name stands on the machine stack while the file is read, and no longer.
#[inline(never)]
fn read_named<'a>(
    rt: HostRuntime,
    i: usize,
    what: &'a [u8],
    buf: &mut [u8],
) -> (usize, Result<(), Error<'a>>)
    ensures within { IsPrefixLen result.0 buf.new }
    ensures never_out_of_memory { result.1 ≢ Err OutOfMemory }
{
    let mut name = [0u8; NAME];
    let path = match rt.arg(i, &mut name) {
        Ok(n) => &name[..n],
        Err(FillError::NotPresent) => return (0, Err(Error::Missing(what))),
        Err(FillError::TooLong) => return (0, Err(Error::NameTooLong(what))),
    };
    let (size, read) = read_path(rt, path, buf);
    (size, read.map_err(|error| Error::Unreadable(i, error)))
}

// The bytes of the file that argument i names, as far as `buf` goes, at whose start they stand.
pub fn read<'a, 'b>(
    rt: HostRuntime,
    i: usize,
    what: &'a [u8],
    buf: &'b mut [u8],
) -> Result<&'b [u8], Error<'a>>
    ensures within { IfOk result (λ bytes. length bytes.now ≤ length buf.old) }
    ensures never_out_of_memory { result ≢ Err OutOfMemory }
{
    let (size, read) = read_named(rt, i, what, buf);
    read?;
    Ok(&buf[..size])
}

// The same for an argument that may be left out.
pub fn read_optional<'a, 'b>(
    rt: HostRuntime,
    i: usize,
    what: &'a [u8],
    buf: &'b mut [u8],
) -> Result<Option<&'b [u8]>, Error<'a>>
    ensures within { IfOk result (λ read. IfSome read (λ bytes. length bytes.now ≤ length buf.old)) }
    ensures never_out_of_memory { result ≢ Err OutOfMemory }
{
    if !has_argument(rt, i) {
        return Ok(None);
    }
    Ok(Some(read(rt, i, what, buf)?))
}

// Whether there is an argument i.
pub fn has_argument(rt: HostRuntime, i: usize) -> bool {
    !matches!(rt.arg(i, &mut [0u8; 1]), Err(FillError::NotPresent))
}

// How many arguments there are, the program's name too.
pub fn argument_count(rt: HostRuntime) -> usize {
    (0..usize::MAX).take_while(|i| has_argument(rt, *i)).count()
}

// The number that a word of decimal digits is, at most BEYOND; leading zeros play no part. None for a word of other bytes or of none.
fn number_of(word: &[u8]) -> Option<u64>
    ensures { IfSome result (λ n. n ≤ 4294967296) }
{
    if word.is_empty() {
        return None;
    }
    let mut value = 0u64;
    for b in word {
        let b'0'..=b'9' = *b else {
            return None;
        };
        value = (value * 10 + (*b - b'0') as u64).min(BEYOND);
    }
    Some(value)
}

// The number that argument i begins with, as `number_of` has it; 0 where there is none.
pub fn argument_number(rt: HostRuntime, i: usize) -> u64
    ensures { result ≤ 4294967296 }
{
    let mut word = [0u8; NAME];
    let n = rt.arg(i, &mut word).unwrap_or(0);
    let word = &word[..n];
    let end = word
        .iter()
        .position(|b| !b.is_ascii_digit())
        .unwrap_or(word.len());
    number_of(&word[..end]).unwrap_or(0)
}

// The number that argument i is, as `number_of` has it.
pub fn read_number(rt: HostRuntime, i: usize, what: &[u8]) -> Result<u64, Error<'_>>
    ensures small { IfOk result (λ n. n ≤ 4294967296) }
    ensures never_out_of_memory { result ≢ Err OutOfMemory }
{
    let mut word = [0u8; NAME];
    match rt.arg(i, &mut word) {
        Ok(n) => number_of(&word[..n]).ok_or(Error::NoNumber(what)),
        Err(FillError::TooLong) => Err(Error::NoNumber(what)),
        Err(FillError::NotPresent) => Err(Error::Missing(what)),
    }
}

// The same for a number of 32 bits: a greater one is refused as well.
pub fn read_u32(rt: HostRuntime, i: usize, what: &[u8]) -> Result<u32, Error<'_>>
    ensures never_out_of_memory { result ≢ Err OutOfMemory }
{
    let number = read_number(rt, i, what)?;
    u32::try_from(number).map_err(|_| Error::TooGreat(what))
}

// So many bytes, all alike, as a walk or a load is lent.
pub fn lend(byte: u8) -> [u8; LENT]
    ensures { 1048576 ≡ length result }
{
    [byte; LENT]
}

// Standard output, in blocks: the first `waiting` bytes of `block` wait to be written. One of which a failed write was told takes nothing
// more, so that what was written has no gap. Every program that prints ends with a `flush`.
#[derive(Drop)]
pub struct Printer {
    rt: HostRuntime,
    block: [u8; BLOCK],
    waiting: usize,
    failed: bool,
    ghost within: { waiting ≤ 4096 },
}

// An output of which nothing waits.
pub fn output(rt: HostRuntime) -> Printer {
    Printer {
        rt,
        block: [0; BLOCK],
        waiting: 0,
        failed: false,
    }
}

// The error of a block that is given up. An interruption gets another kind: the library's `write_all` would go on after it, with a gap.
fn given_up(error: io::Error) -> io::Error {
    match error.kind() {
        io::ErrorKind::Interrupted => io::Error::other("Interrupted system call"),
        _ => error,
    }
}

impl Write for Printer {
    fn write(&mut self, bytes: &[u8]) -> io::Result<usize> {
        if self.waiting == BLOCK {
            self.write_block()?;
        }
        let n = bytes.len().min(BLOCK - self.waiting);
        self.block[self.waiting..self.waiting + n].copy_from_slice(&bytes[..n]);
        self.waiting += n;
        Ok(n)
    }

    fn flush(&mut self) -> io::Result<()> {
        self.write_block()
    }
}

impl Printer {
    // Writes what waits.
    fn write_block(&mut self) -> io::Result<()>
        ensures { self.new.waiting ≡ 0 }
    {
        let n = mem::take(&mut self.waiting);
        if self.failed {
            return Ok(());
        }
        Print::write_all(&self.rt, &self.block[..n]).map_err(given_up)
    }

    // Takes a byte into a block with room.
    fn set(&mut self, b: u8)
        requires { self.old.waiting < 4096 }
        ensures { self.new.waiting ≡ self.old.waiting + 1 }
    {
        self.block[self.waiting] = b;
        self.waiting += 1;
    }

    // Takes a byte.
    fn put(&mut self, b: u8) -> io::Result<()> {
        if self.waiting == BLOCK {
            self.write_block()?;
        }
        self.set(b);
        Ok(())
    }

    // Takes a number of three digits at most, and an LF.
    fn put_line(&mut self, number: u8) -> io::Result<()> {
        if BLOCK - 4 < self.waiting {
            return writeln!(self, "{number}");
        }
        if 100 <= number {
            self.set(b'0' + number / 100);
        }
        if 10 <= number {
            self.set(b'0' + number / 10 % 10);
        }
        self.set(b'0' + number % 10);
        self.set(b'\n');
        Ok(())
    }

    // The same for several.
    fn put_lines(&mut self, numbers: &[u8]) -> io::Result<()> {
        for b in numbers {
            self.put_line(*b)?;
        }
        Ok(())
    }

    // The same for those alone that are not 0.
    fn put_nonzero(&mut self, numbers: &[u8]) -> io::Result<()> {
        for b in numbers {
            if *b != 0 {
                self.put_line(*b)?;
            }
        }
        Ok(())
    }
}

// What follows answers no result: an error is told where it comes up, and the caller goes on.

// A file's bytes at the start of a buffer: how many there are, and whether reading failed.
#[derive(Clone, Copy)]
pub struct Input {
    pub size: usize,
    pub failed: bool,
}

// Says on standard error that an argument is missing, and how the program is used.
pub fn tell_missing(rt: HostRuntime, what: &[u8], usage: &[u8]) {
    Error::Missing(what).print(rt, usage);
}

// Reads the file that argument i names, until `buf` is full or the file ends. Where that fails, standard error says so, and how the program
// is used.
pub fn read_argument(rt: HostRuntime, i: usize, what: &[u8], usage: &[u8], buf: &mut [u8]) -> Input
    ensures { IsPrefixLen result.size buf.new }
{
    let (size, read) = read_named(rt, i, what, buf);
    let failed = read.is_err();
    if let Err(error) = read {
        error.print(rt, usage);
    }
    Input { size, failed }
}

fn told(out: &mut Printer, printed: io::Result<()>) {
    if let Err(error) = printed {
        out.failed = true;
        Error::Output(error).tell(out.rt, "");
    }
}

// Writes what waits.
pub fn flush(out: &mut Printer) {
    let printed = out.flush();
    told(out, printed);
}

// Prints a byte.
pub fn print_byte(out: &mut Printer, b: u8) {
    let printed = out.put(b);
    told(out, printed);
}

// Prints what stands before the first 0.
pub fn print_text(out: &mut Printer, text: &[u8]) {
    let end = text.iter().position(|b| *b == 0).unwrap_or(text.len());
    let printed = out.write_all(&text[..end]);
    told(out, printed);
}

// Prints `a,b` and an LF.
pub fn print_pair(out: &mut Printer, a: u64, b: u64) {
    let printed = writeln!(out, "{a},{b}");
    told(out, printed);
}

// Prints each byte that is not 0 as a number on a line: what stands in a slice before its zeros.
pub fn print_bytes(out: &mut Printer, bytes: &[u8]) {
    let printed = out.put_nonzero(bytes);
    told(out, printed);
}

// Prints each of the first n bytes as a number on a line, zeros too, and each after them that is not 0.
pub fn print_list(out: &mut Printer, bytes: &[u8], n: usize) {
    let (listed, rest) = bytes.split_at(n.min(bytes.len()));
    let printed = out.put_lines(listed);
    told(out, printed);
    print_bytes(out, rest);
}

// Prints a text and a number.
pub fn print_count(out: &mut Printer, text: &[u8], n: usize) {
    print_text(out, text);
    let printed = write!(out, "{n}");
    told(out, printed);
}

#[cfg(test)]
mod tests {
    use super::*;
    use std::test::Fail;

    fn run_out<'a>() -> Result<(), Error<'a>> {
        Err::<(), AllocError>(AllocError)?;
        Ok(())
    }

    fn print_in_vain<'a>() -> Result<(), Error<'a>> {
        Err::<(), io::Error>(io::Error::other("full"))?;
        Ok(())
    }

    #[test]
    fn takes_what_failed(rt: HostRuntime) {
        assert!(rt; matches!(run_out(), Err(Error::OutOfMemory)));
        assert!(rt; matches!(print_in_vain(), Err(Error::Output(_))));
    }

    // Argument 0 names the test's own program.
    #[test]
    fn reads_a_file(rt: HostRuntime) -> Result<(), Fail> {
        let mut bytes = [0u8; FILE];
        let bytes = read(rt, 0, b"PROGRAM", &mut bytes)?;
        assert!(rt; bytes.starts_with(b"\x7fELF"));
        assert_eq!(rt;
            read_optional(rt, 0, b"PROGRAM", &mut [0u8; FILE])?,
            Some(bytes)
        );
        Ok(())
    }

    #[test]
    fn reads_no_file(rt: HostRuntime) -> Result<(), Fail> {
        let mut bytes = [0u8; FILE];
        let read = read(rt, 1000, b"PROGRAM", &mut bytes);
        assert!(rt; matches!(read, Err(Error::Missing(what)) if what == b"PROGRAM".as_slice()));
        assert_eq!(rt; read_optional(rt, 1000, b"PROGRAM", &mut bytes)?, None);
        Ok(())
    }

    #[test]
    fn reads_no_number(rt: HostRuntime) {
        let number = read_number(rt, 0, b"COUNT");
        assert!(rt; matches!(number, Err(Error::NoNumber(what)) if what == b"COUNT".as_slice()));
        let number = read_u32(rt, 1000, b"COUNT");
        assert!(rt; matches!(number, Err(Error::Missing(what)) if what == b"COUNT".as_slice()));
    }

    #[test]
    fn reads_numbers(rt: HostRuntime) {
        assert_eq!(rt; number_of(b"0"), Some(0));
        assert_eq!(rt; number_of(b"007"), Some(7));
        assert_eq!(rt; number_of(b"4294967295"), Some(4294967295));
        assert_eq!(rt; number_of(b"4294967296"), Some(BEYOND));
        assert_eq!(rt; number_of(b"99999999999999999999999"), Some(BEYOND));
        assert_eq!(rt; number_of(b""), None);
        assert_eq!(rt; number_of(b"+1"), None);
        assert_eq!(rt; number_of(b"1,"), None);
    }
}
