// What is wrong with a refused line of a book, in words: a second, forgiving look at the line.
// Inner: for `explain_states` and the programs that explain.
#![tactic(auto)]

ghost use Rattle.std.specs.Prelude.{◌≤◌, length};
ghost use Rattle.items.specs.Layout.{Shaped};

mod figures;
mod form;
mod line;
mod order;
mod reasons;

use figures::{Declared, explain_figures};
use form::{Due, Family, explain_form};
use line::{BookLine, lines_after};
use order::{Rules, explain_order};
use program::{Printer, print_text};
use reasons::{BookKind, LineFault, Lines, Reason};
use std::fmt;
use std::fmt::Write;

// A printer as a writer of text.
#[derive(Drop)]
pub struct Page<'a>(pub &'a mut Printer);

impl fmt::Write for Page<'_> {
    fn write_str(&mut self, s: &str) -> fmt::Result {
        print_text(&mut *self.0, s.as_bytes());
        Ok(())
    }
}

// Prints why a book is refused.
fn print(out: &mut Printer, reason: Reason<'_>) {
    let _ = writeln!(Page(out), "{reason}");
}

// A book that is too long. It is known by its header's letter, G or T.
pub fn explain_length(out: &mut Printer, header: u8) {
    let book = match header {
        b'G' => BookKind::Grammar,
        _ => BookKind::Tables,
    };
    print(out, Reason::TooLong(book));
}

// The first numbers of a book's header, 0 for those that it lacks.
fn read_header(book: &[u8]) -> (usize, usize, usize)
    requires { length book.now ≤ 65536 }
{
    let mut numbers = [0usize; 67];
    table_lines::read_line(book, 0, &mut numbers);
    (numbers[0], numbers[1], numbers[2])
}

// The lines of a book whose header says so many.
fn count_lines(kind: BookKind, book: &[u8], said: usize) -> Lines {
    Lines {
        book: kind,
        said,
        after: lines_after(book),
    }
}

// A book that ends where a line is due.
fn explain_end(kind: BookKind, book: &[u8], said: usize) -> Reason<'static> {
    if book.is_empty() {
        return Reason::Empty(kind);
    }
    let lines = count_lines(kind, book, said);
    if lines.after < said {
        Reason::Short(lines)
    } else {
        Reason::Ends(kind)
    }
}

// A line of a grammar book with so many rules that breaks its form, or is one too many.
fn explain_grammar_line(line: BookLine<'_>, rules: usize) -> LineFault<'_> {
    if rules < line.before() {
        return LineFault::Lines(count_lines(BookKind::Grammar, line.book, rules));
    }
    let due = match line.place {
        0 => Family::Grammar,
        _ => Family::Rule,
    };
    match explain_form(line, Due::Line(due)) {
        Some(fault) => LineFault::Form(fault),
        None => LineFault::Meaning,
    }
}

// The line that is due at a place of a table book with so many entries.
fn table_due(line: BookLine<'_>, entries: usize) -> Due {
    if line.place == 0 {
        return Due::Line(Family::Tables);
    }
    if line.before() <= entries {
        return Due::Line(Family::Entry);
    }
    match line.letter_before() {
        Some(b'E') => Due::Line(Family::Kernel),
        Some(b'K') => Due::KernelOrCell,
        _ => Due::Line(Family::Cell),
    }
}

// Whether the header's number of entries tells that another line is due than this one.
fn is_counted(due: Due, line: BookLine<'_>) -> bool {
    match due {
        Due::Line(Family::Entry) => line.letter() != b'E',
        Due::Line(Family::Kernel) => line.letter() != b'K',
        _ => false,
    }
}

// A line of a table book with so many entries that breaks its form or order, or is one too many.
fn explain_table_line<'a>(line: BookLine<'a>, entries: usize, rules: Rules<'a>) -> LineFault<'a> {
    let due = table_due(line, entries);
    match explain_form(line, due) {
        Some(fault) if is_counted(due, line) => LineFault::Entries(fault, entries, line.before()),
        Some(fault) => LineFault::Form(fault),
        None => match explain_order(line, rules) {
            Some(fault) => LineFault::Order(fault),
            None => LineFault::Meaning,
        },
    }
}

// A line of that number in the book, and what is wrong with it.
fn explain_line<'a>(book: BookKind, line: BookLine<'a>, fault: LineFault<'a>) -> Reason<'a> {
    Reason::Line(book, line.before() + 1, line.excerpt(), fault)
}

// A refusal of a grammar book as it is read: 1 to 6.
pub fn explain_grammar_book(out: &mut Printer, book: &[u8], number: u64, place: usize) {
    if 65536 < book.len() {
        explain_length(out, b'G');
        return;
    }
    match number {
        0..=4 => {}
        5 => return print(out, Reason::Unproductive(place)),
        _ => return print(out, Reason::Unreachable(place)),
    }
    let (terminals, nonterminals, rules) = read_header(book);
    if book.len() <= place {
        return print(out, explain_end(BookKind::Grammar, book, rules));
    }
    let line = BookLine::new(book, place);
    let declared = Declared {
        terminals,
        nonterminals,
        rules,
        items: rules,
        states: 0,
    };
    let fault = match number {
        1 => explain_grammar_line(line, rules),
        _ => LineFault::Figures(explain_figures(line, number, declared)),
    };
    print(out, explain_line(BookKind::Grammar, line, fault));
}

// A refusal of a table book as it is read, 1 to 3, by a grammar with these figures, whose rules are in the item table.
pub fn explain_table_book(
    out: &mut Printer,
    items: &[u8],
    terminals: usize,
    nonterminals: usize,
    rules: usize,
    book: &[u8],
    number: u64,
    place: usize,
)
    requires shaped { (Shaped items.now rules) × (rules ≤ 127) }
    requires book_len_bound { length book.now ≤ 65536 }
{
    let (states, entries, _) = read_header(book);
    if book.len() <= place {
        return print(out, explain_end(BookKind::Tables, book, entries));
    }
    let line = BookLine::new(book, place);
    let declared = Declared {
        terminals,
        nonterminals,
        rules,
        items: rules + entries.min(65536),
        states,
    };
    let fault = match number {
        1 => explain_table_line(
            line,
            entries,
            Rules {
                items,
                count: rules,
            },
        ),
        _ => LineFault::Figures(explain_figures(line, number, declared)),
    };
    print(out, explain_line(BookKind::Tables, line, fault));
}
