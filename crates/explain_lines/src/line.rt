// A line of a book, its fields, and how they are shown.
ghost use Rattle.std.specs.Prelude.{◌≡◌, ◌<◌, ◌≤◌, length};

use std::fmt;
use std::fmt::Write;
use text::{Cursor, Field};

// The most bytes of a line that are shown.
const SHOWN: usize = 100;

// Bytes of a book, with `?` for what is no printable ASCII.
#[derive(Clone, Copy)]
pub struct Shown<'a>(pub &'a [u8]);

impl fmt::Display for Shown<'_> {
    fn fmt<W: fmt::Write>(&self, f: &mut fmt::Formatter<W>) -> fmt::Result {
        for (i, printable) in self.0.split(|b| !matches!(*b, b' '..=b'~')).enumerate() {
            if i != 0 {
                f.write_char('?')?;
            }
            f.write_str(std::str::from_utf8(printable).unwrap_or(""))?;
        }
        Ok(())
    }
}

// As many of a line's bytes as are shown.
fn start_of(line: &[u8]) -> &[u8] {
    &line[..line.len().min(SHOWN)]
}

// The bytes of a line, or as many of them as are shown.
#[derive(Clone, Copy)]
pub struct Excerpt<'a>(pub &'a [u8]);

impl fmt::Display for Excerpt<'_> {
    fn fmt<W: fmt::Write>(&self, f: &mut fmt::Formatter<W>) -> fmt::Result {
        let start = Shown(start_of(self.0));
        let more = if self.0.len() <= SHOWN { "" } else { " .." };
        write!(f, "{start}{more}")
    }
}

// The bytes of a field, between quotes.
#[derive(Clone, Copy)]
pub struct Quoted<'a>(pub &'a [u8]);

impl fmt::Display for Quoted<'_> {
    fn fmt<W: fmt::Write>(&self, f: &mut fmt::Formatter<W>) -> fmt::Result {
        let text = Shown(self.0);
        write!(f, "'{text}'")
    }
}

// A field: a number, a mark or a letter.
#[derive(Clone, Copy)]
pub enum Part {
    Number(usize),
    Mark(u8),
    Letter(u8),
}

// The field at a cursor, with the cursor past it; none where no number, mark or letter with its end stands there.
pub fn read_part(book: &[u8], at: Cursor) -> Option<(Part, Cursor)> {
    match text::read_field(book, at) {
        Field::Number(v, next) => Some((Part::Number(v), next)),
        Field::Mark(b, next) => Some((Part::Mark(b), next)),
        Field::Letter(b, next) => Some((Part::Letter(b), next)),
        Field::Broken => None,
    }
}

// Whether a field may have this byte: printable ASCII but a space and a comma.
fn is_in_field(b: u8) -> bool {
    matches!(b, b'!'..=b'~') && b != b','
}

// The bytes of the field at `at`, and what stands after them.
pub fn split_field(book: &[u8], at: usize) -> (&[u8], &[u8]) {
    let Some(field) = book.get(at..) else {
        return (&[], &[]);
    };
    match field.iter().position(|b| !is_in_field(*b)) {
        Some(n) => field.split_at(n),
        None => (field, &[]),
    }
}

// The bytes of the field at `at`.
pub fn field_at(book: &[u8], at: usize) -> Quoted<'_> {
    Quoted(split_field(book, at).0)
}

// How many lines end in these bytes.
pub fn line_ends(bytes: &[u8]) -> usize
    ensures { result ≤ length bytes.now }
{
    bytes.iter().filter(|b| **b == b'\n').count()
}

// How many lines of a book stand after the first, one without LF among them: its LF that are not its last byte.
pub fn lines_after(book: &[u8]) -> usize {
    match book.split_last() {
        Some((_, before)) => line_ends(before),
        None => 0,
    }
}

// A place in a book that is no longer than a book may be. Where a line begins there, it is that line.
#[derive(Clone, Copy)]
pub struct BookLine<'a> {
    pub book: &'a [u8],
    pub place: usize,
    // How many lines end before it.
    ends: usize,
    ghost short: { length book.now ≤ 65536 },
    ghost inside: { place < length book.now },
    ghost few: { ends ≤ 65536 },
}

impl<'a> BookLine<'a> {
    // The line at a place of a book.
    pub fn new(book: &'a [u8], place: usize) -> BookLine<'a>
        requires { (length book.now ≤ 65536) × (place < length book.now) }
        ensures { (result.book.now ≡ book.now) × (result.place ≡ place) }
    {
        BookLine {
            book,
            place,
            ends: line_ends(&book[..place]),
        }
    }

    // How many lines stand before it.
    pub fn before(self) -> usize
        ensures { result ≤ 65536 }
    {
        self.ends
    }

    // Its bytes up to its LF, or more of them than are shown.
    pub fn excerpt(self) -> Excerpt<'a> {
        let rest = &self.book[self.place..];
        let start = &rest[..rest.len().min(SHOWN + 1)];
        match start.iter().position(|b| *b == b'\n') {
            Some(n) => Excerpt(&start[..n]),
            None => Excerpt(start),
        }
    }

    // Its first byte.
    pub fn letter(self) -> u8 {
        self.book[self.place]
    }

    // The first byte of the line before it; none where it is the first.
    pub fn letter_before(self) -> Option<u8> {
        let (_, before) = self.book[..self.place].split_last()?;
        match before.iter().rposition(|b| *b == b'\n') {
            Some(end) => Some(self.book[end + 1]),
            None => Some(self.book[0]),
        }
    }

    // The cursor at its first field.
    pub fn start(self) -> Cursor {
        Cursor {
            at: self.place,
            ended: false,
        }
    }
}
