// The form of a line: its letter, how many fields it has, and of which kinds they are.
use crate::line::{BookLine, Part, Quoted, field_at, read_part, split_field};
use std::fmt;
use text::Cursor;

// Lines of one form: R is for R and U, S for S, N, A and P.
#[derive(Clone, Copy, PartialEq, Eq)]
pub enum Family {
    Grammar,
    Rule,
    Tables,
    Entry,
    Kernel,
    Cell,
    Other,
}

impl Family {
    pub fn of(letter: u8) -> Family {
        match letter {
            b'G' => Family::Grammar,
            b'R' | b'U' => Family::Rule,
            b'T' => Family::Tables,
            b'E' => Family::Entry,
            b'K' => Family::Kernel,
            b'S' | b'N' | b'A' | b'P' => Family::Cell,
            _ => Family::Other,
        }
    }

    // The fewest fields of a line.
    fn fewest(self) -> usize {
        match self {
            Family::Rule => 2,
            Family::Tables | Family::Entry => 3,
            Family::Grammar | Family::Kernel => 5,
            Family::Cell | Family::Other => 4,
        }
    }

    // Whether a line may have more.
    fn is_open(self) -> bool {
        matches!(self, Family::Rule | Family::Entry | Family::Kernel)
    }

    // The most fields of a line.
    fn most(self) -> usize {
        if self.is_open() {
            usize::MAX
        } else {
            self.fewest()
        }
    }

    // Whether field k, from the second on, may be a mark.
    fn has_mark(self, k: usize) -> bool {
        self == Family::Rule && 3 <= k
    }

    // Whether it may be this.
    fn takes(self, k: usize, part: Part) -> bool {
        match part {
            Part::Number(_) => true,
            Part::Mark(_) => self.has_mark(k),
            Part::Letter(_) => false,
        }
    }
}

// The lines of which one is due at a place of a book.
#[derive(Clone, Copy)]
pub enum Due {
    Line(Family),
    KernelOrCell,
}

impl Due {
    // Whether a line of that family may stand there.
    fn takes(self, family: Family) -> bool {
        match self {
            Due::Line(due) => family == due,
            Due::KernelOrCell => matches!(family, Family::Kernel | Family::Cell),
        }
    }

    // The letters that are due.
    pub fn letters(self) -> &'static str {
        match self {
            Due::Line(Family::Grammar) => "G",
            Due::Line(Family::Rule) => "R or U",
            Due::Line(Family::Tables) => "T",
            Due::Line(Family::Entry) => "E",
            Due::Line(Family::Kernel) => "K",
            Due::Line(Family::Cell | Family::Other) => "S, N, A or P",
            Due::KernelOrCell => "K, S, N, A or P",
        }
    }
}

// What breaks the form of a line; a number is that of a field.
#[derive(Clone, Copy)]
pub enum FormFault<'a> {
    OrderMark,
    CrLf,
    NoLf,
    Space(usize),
    Byte(usize, u8),
    Empty(usize),
    LeadingZero(usize, Quoted<'a>),
    NoField(usize, Quoted<'a>),
    NumberDue(usize, Quoted<'a>),
    NumberOrMarkDue(usize, Quoted<'a>),
    LetterDue(Quoted<'a>, Due),
    // How many fields there are, and the family of the line, which has more.
    Short(usize, Family),
    // The most fields of the line, which has more.
    Long(usize),
}

impl fmt::Display for FormFault<'_> {
    fn fmt<W: fmt::Write>(&self, f: &mut fmt::Formatter<W>) -> fmt::Result {
        match *self {
            FormFault::OrderMark => write!(f, "the book begins with a byte order mark"),
            FormFault::CrLf => write!(f, "the line ends in CR LF, not in LF alone"),
            FormFault::NoLf => write!(f, "the line has no LF at its end"),
            FormFault::Space(k) => write!(f, "field {k} has a space in it"),
            FormFault::Byte(k, value) => {
                write!(
                    f,
                    "field {k} has a byte in it that no field has, of value {value}"
                )
            }
            FormFault::Empty(k) => write!(f, "field {k} is empty"),
            FormFault::LeadingZero(k, text) => {
                write!(f, "field {k}, {text}, is a number with a leading zero")
            }
            FormFault::NoField(k, text) => write!(
                f,
                "field {k}, {text}, is no number, mark or letter"
            ),
            FormFault::NumberDue(k, text) => write!(f, "field {k} is {text}, and a number is due"),
            FormFault::NumberOrMarkDue(k, text) => {
                write!(f, "field {k} is {text}, and a number or a mark is due")
            }
            FormFault::LetterDue(text, due) => {
                let letters = due.letters();
                write!(f, "field 1 is {text}, and the letter {letters} is due")
            }
            FormFault::Short(fields, family) => {
                let fewest = family.fewest();
                let least = if family.is_open() { "at least " } else { "" };
                write!(f, "number of fields: {fields}; due: {least}{fewest}")
            }
            FormFault::Long(most) => write!(f, "the line has more than {most} fields"),
        }
    }
}

// Why field k, at `at`, is no number, mark or letter with its end.
fn explain_broken(book: &[u8], at: usize, k: usize) -> FormFault<'_> {
    let (text, rest) = split_field(book, at);
    match rest {
        [] => FormFault::NoLf,
        [b',' | b'\n', ..] if text.is_empty() => FormFault::Empty(k),
        [b',' | b'\n', ..] if text.iter().all(|b| b.is_ascii_digit()) => {
            FormFault::LeadingZero(k, Quoted(text))
        }
        [b',' | b'\n', ..] => FormFault::NoField(k, Quoted(text)),
        [239, 187, 191, ..] if at == 0 && text.is_empty() => FormFault::OrderMark,
        [b'\r', b'\n', ..] => FormFault::CrLf,
        [b' ', ..] => FormFault::Space(k),
        [byte, ..] => FormFault::Byte(k, *byte),
    }
}

// What breaks the form of a line of that family from its second field, at `second`, on.
fn explain_fields<'a>(line: BookLine<'a>, second: Cursor, family: Family) -> Option<FormFault<'a>> {
    let book = line.book;
    let most = family.most();
    let mut c = second;
    // Each field has a byte of the book at its end.
    for k in 2..book.len() + 2 {
        if c.ended {
            return (k - 1 < family.fewest()).then_some(FormFault::Short(k - 1, family));
        }
        if most < k {
            return Some(FormFault::Long(most));
        }
        let Some((part, next)) = read_part(book, c) else {
            return Some(explain_broken(book, c.at, k));
        };
        if !family.takes(k, part) {
            let text = field_at(book, c.at);
            return Some(if family.has_mark(k) {
                FormFault::NumberOrMarkDue(k, text)
            } else {
                FormFault::NumberDue(k, text)
            });
        }
        c = next;
    }
    None
}

// What breaks the form of a line where that is due.
pub fn explain_form(line: BookLine<'_>, due: Due) -> Option<FormFault<'_>> {
    let Some((part, second)) = read_part(line.book, line.start()) else {
        return Some(explain_broken(line.book, line.place, 1));
    };
    match part {
        Part::Letter(letter) if due.takes(Family::of(letter)) => {
            explain_fields(line, second, Family::of(letter))
        }
        _ => Some(FormFault::LetterDue(field_at(line.book, line.place), due)),
    }
}
