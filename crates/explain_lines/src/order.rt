// What breaks a line of a table book whose fields are of their kinds: its codes do not rise, it is a second line of one kind, or it is out of order.
ghost use Rattle.std.specs.Prelude.{◌≤◌, length};
ghost use Rattle.items.specs.Layout.{Shaped};

use crate::form::Family;
use crate::line::BookLine;
use std::fmt;
use table_lines::Line;

// The numbers of a line that are kept.
const KEPT: usize = 67;

// The item table and the number of the rules in it.
#[derive(Clone, Copy)]
pub struct Rules<'a> {
    pub items: &'a [u8],
    pub count: usize,
    ghost shaped: { Shaped items.now count },
    ghost few: { count ≤ 127 },
}

// What breaks a line.
#[derive(Clone, Copy)]
pub enum OrderFault {
    // The number of a field, and its code, which is not above the one before it.
    Fall(usize, usize),
    // The number of a line of this family, beside which there may be no second one.
    Second(Family, usize),
    // The number of a line of this family, which this one must follow.
    Early(Family, usize),
}

impl fmt::Display for OrderFault {
    fn fmt<W: fmt::Write>(&self, f: &mut fmt::Formatter<W>) -> fmt::Result {
        match *self {
            OrderFault::Fall(k, code) => {
                write!(f, "field {k}, code {code}, is not above the code before it")
            }
            OrderFault::Second(family, n) => {
                let key = key_of(family);
                write!(f, "the same {key} as line {n}")
            }
            OrderFault::Early(Family::Entry, n) => write!(
                f,
                "out of order: in the rules its group comes before that of line {n}"
            ),
            OrderFault::Early(family, n) => {
                let key = key_of(family);
                write!(f, "out of order: its {key} come before those of line {n}")
            }
        }
    }
}

// What two lines of a family may not both have.
fn key_of(family: Family) -> &'static str {
    match family {
        Family::Entry => "string",
        Family::Kernel => "state, item and dot",
        _ => "state and symbol",
    }
}

// A line's numbers: as many as are kept, how many there are, and whether its codes rise.
#[derive(Clone, Copy)]
struct Numbers {
    family: Family,
    kept: [usize; KEPT],
    count: usize,
    rising: bool,
}

impl Numbers {
    // Those of a line without any.
    fn new() -> Numbers {
        Numbers {
            family: Family::Other,
            kept: [0; KEPT],
            count: 0,
            rising: true,
        }
    }

    // Takes those of the line at `at`, and answers the position past it; none where the line is broken.
    fn read(&mut self, book: &[u8], at: usize) -> Option<usize>
        requires { length book.now ≤ 65536 }
    {
        self.kept = [0; KEPT];
        let Line::Whole(letter, tally, next) = table_lines::read_line(book, at, &mut self.kept)
        else {
            return None;
        };
        self.family = Family::of(letter);
        self.count = tally.count;
        self.rising = tally.rising;
        Some(next)
    }

    // The first code of a kernel line that does not rise, as far as they are kept.
    fn fall(&self) -> Option<OrderFault> {
        for k in 4..self.count.min(KEPT) {
            let code = self.kept[k];
            if code < 65536 && code <= self.kept[k - 1] {
                return Some(OrderFault::Fall(k + 2, code));
            }
        }
        None
    }

    // Whether both are lines of which only one may stand in a book: of the same string, the same triple, the same cell.
    fn is_second(&self, other: &Numbers) -> bool {
        let (a, b) = (&self.kept, &other.kept);
        self.family == other.family
            && match self.family {
                Family::Entry => {
                    self.count == other.count
                        && self.count <= KEPT
                        && a.iter()
                            .zip(b)
                            .take(self.count)
                            .skip(1)
                            .all(|(x, y)| x == y)
                }
                Family::Kernel => a[..3] == b[..3],
                Family::Cell => a[..2] == b[..2],
                _ => false,
            }
    }

    // Whether the string of an entry line is a group.
    fn is_group(&self, rules: Rules<'_>) -> bool {
        table_entries::use_of(
            rules.items,
            rules.count,
            rules.count,
            &self.kept,
            self.count,
        ) != 0
    }
}

// The number of a line before this one beside which this one is a second.
fn find_second(line: BookLine<'_>, numbers: &Numbers) -> Option<usize> {
    let mut other = Numbers::new();
    let mut at = 0;
    // Each line has a byte of the book at its end.
    for n in 1..line.book.len() + 1 {
        if line.place <= at {
            return None;
        }
        at = other.read(line.book, at)?;
        if numbers.is_second(&other) {
            return Some(n);
        }
    }
    None
}

// The number of the last entry line before this one whose group this one's must follow. The first entry line, line 2, binds no other.
fn find_group(line: BookLine<'_>, rules: Rules<'_>) -> Option<usize> {
    let mut numbers = Numbers::new();
    let mut last = None;
    let mut at = 0;
    for n in 1..line.book.len() + 1 {
        if line.place <= at {
            break;
        }
        let Some(next) = numbers.read(line.book, at) else {
            break;
        };
        if 2 < n && numbers.is_group(rules) {
            last = Some(n);
        }
        at = next;
    }
    last
}

// The number of the line that one of that family must follow where this one stands.
fn find_before(line: BookLine<'_>, family: Family, rules: Rules<'_>) -> Option<usize> {
    match family {
        Family::Entry => find_group(line, rules),
        _ => Some(line.before()).filter(|n| *n != 0),
    }
}

// What else breaks a line whose fields are of their kinds.
pub fn explain_order(line: BookLine<'_>, rules: Rules<'_>) -> Option<OrderFault> {
    let mut numbers = Numbers::new();
    numbers.read(line.book, line.place)?;
    let family = numbers.family;
    if family == Family::Kernel && !numbers.rising {
        return numbers.fall();
    }
    match find_second(line, &numbers) {
        Some(n) => Some(OrderFault::Second(family, n)),
        None => find_before(line, family, rules).map(|n| OrderFault::Early(family, n)),
    }
}
