// Why a book is refused, in words.
use crate::figures::FigureFault;
use crate::form::FormFault;
use crate::line::Excerpt;
use crate::order::OrderFault;
use std::fmt;

#[derive(Clone, Copy)]
pub enum BookKind {
    Grammar,
    Tables,
}

impl fmt::Display for BookKind {
    fn fmt<W: fmt::Write>(&self, f: &mut fmt::Formatter<W>) -> fmt::Result {
        match *self {
            BookKind::Grammar => write!(f, "grammar book"),
            BookKind::Tables => write!(f, "table book"),
        }
    }
}

// How many lines a book's header says, and how many follow it.
#[derive(Clone, Copy)]
pub struct Lines {
    pub book: BookKind,
    pub said: usize,
    pub after: usize,
}

impl fmt::Display for Lines {
    fn fmt<W: fmt::Write>(&self, f: &mut fmt::Formatter<W>) -> fmt::Result {
        let said = self.said;
        let after = self.after;
        let what = match self.book {
            BookKind::Grammar => "rules",
            BookKind::Tables => "entries",
        };
        write!(
            f,
            "the header says {said} {what}, and the lines after it are {after}"
        )
    }
}

// What is wrong with a line.
#[derive(Clone, Copy)]
pub enum LineFault<'a> {
    Form(FormFault<'a>),
    // The same, with how many entries the header says, and the number of the line after it.
    Entries(FormFault<'a>, usize, usize),
    Order(OrderFault),
    Figures(FigureFault<'a>),
    Lines(Lines),
    Meaning,
}

impl fmt::Display for LineFault<'_> {
    fn fmt<W: fmt::Write>(&self, f: &mut fmt::Formatter<W>) -> fmt::Result {
        match *self {
            LineFault::Form(fault) => write!(f, "{fault}"),
            LineFault::Entries(fault, said, n) => write!(
                f,
                "{fault}\nthe header says {said} entries, and this is line {n} after it"
            ),
            LineFault::Order(fault) => write!(f, "{fault}"),
            LineFault::Figures(fault) => write!(f, "{fault}"),
            LineFault::Lines(lines) => write!(f, "{lines}"),
            LineFault::Meaning => write!(
                f,
                "the line breaks its form, or lines are missing or too many"
            ),
        }
    }
}

// Why a book is refused.
#[derive(Clone, Copy)]
pub enum Reason<'a> {
    TooLong(BookKind),
    Empty(BookKind),
    // A line is due at its end.
    Ends(BookKind),
    // Fewer lines follow its header than it says.
    Short(Lines),
    // The number of a line, the line, and what is wrong with it.
    Line(BookKind, usize, Excerpt<'a>, LineFault<'a>),
    Unproductive(usize),
    Unreachable(usize),
}

impl fmt::Display for Reason<'_> {
    fn fmt<W: fmt::Write>(&self, f: &mut fmt::Formatter<W>) -> fmt::Result {
        match *self {
            Reason::TooLong(book) => write!(f, "{book}: it is longer than 65536 bytes"),
            Reason::Empty(book) => write!(f, "{book}: it is empty"),
            Reason::Ends(book) => write!(
                f,
                "{book}: it ends where a line is due\nno kernel line stands in it"
            ),
            Reason::Short(lines) => {
                let book = lines.book;
                write!(f, "{book}: it ends where a line is due\n{lines}")
            }
            Reason::Line(book, n, line, fault) => write!(f, "{book}, line {n}: {line}\n{fault}"),
            Reason::Unproductive(x) => write!(f, "nonterminal {x} derives no string of terminals"),
            Reason::Unreachable(x) => write!(f, "nonterminal {x} is not reached from the goal"),
        }
    }
}
