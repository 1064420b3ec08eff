// What is wrong with the figures and marks of a line whose form is right.
use crate::form::Family;
use crate::line::{BookLine, Part, Quoted, field_at, read_part};
use std::fmt;
use symbol::Symbol;

// The largest figures that the lines before declare.
#[derive(Clone, Copy)]
pub struct Declared {
    pub terminals: usize,
    pub nonterminals: usize,
    pub rules: usize,
    pub items: usize,
    pub states: usize,
}

// What a number of a line stands for.
#[derive(Clone, Copy, PartialEq, Eq)]
enum Figure {
    State,
    Item,
    Rule,
    Code,
    Symbol,
    Terminal,
    Nonterminal,
    Lookahead,
    Free,
}

impl Figure {
    // What number k, from 2 on, of a line with this letter stands for.
    fn of(letter: u8, k: usize) -> Figure {
        match (letter, k) {
            (b'G', 5) | (b'R' | b'U', 2) => Figure::Nonterminal,
            (b'G', _) => Figure::Free,
            (b'R' | b'U', _) => Figure::Symbol,
            (_, 2) => Figure::State,
            (b'E', _) => Figure::Symbol,
            (b'K', 3) => Figure::Item,
            (b'K', 4) => Figure::Free,
            (b'K', _) => Figure::Code,
            (b'S', 3) => Figure::Terminal,
            (b'N', 3) => Figure::Nonterminal,
            (_, 3) => Figure::Lookahead,
            (b'A', _) => Figure::Rule,
            (b'P', _) => Figure::Free,
            _ => Figure::State,
        }
    }
}

// The last of so many nonterminals, as far as they can be so many.
fn last_nonterminal(count: usize) -> usize {
    Symbol::FIRST_NONTERMINAL - 1 + count.min(65536)
}

// The least and the most that number k of a line with this letter may be.
fn limits(letter: u8, k: usize) -> (usize, usize) {
    match (letter, k) {
        (b'G', 2) => (1, 63),
        (b'G', 3) => (1, 64),
        (b'G', 4) | (b'T', 3) => (1, 127),
        (b'T', 2) => (1, 255),
        _ => (0, 65535),
    }
}

impl Declared {
    fn has(self, figure: Figure, value: usize) -> bool {
        let symbol = Symbol { code: value };
        match figure {
            Figure::State => (1..=self.states).contains(&value),
            Figure::Item => (1..=self.items).contains(&value),
            Figure::Rule => (1..=self.rules).contains(&value),
            Figure::Symbol => symbol.is_declared(self.terminals, self.nonterminals),
            Figure::Terminal => symbol.is_terminal(self.terminals),
            Figure::Nonterminal => symbol.is_nonterminal(self.nonterminals),
            Figure::Code | Figure::Lookahead => symbol.is_lookahead(self.terminals),
            Figure::Free => true,
        }
    }
}

// A figure that is not declared, with what is.
#[derive(Clone, Copy)]
pub struct Undeclared {
    figure: Figure,
    value: usize,
    declared: Declared,
}

impl fmt::Display for Undeclared {
    fn fmt<W: fmt::Write>(&self, f: &mut fmt::Formatter<W>) -> fmt::Result {
        let v = self.value;
        let d = self.declared;
        let (states, items, rules, terminals) = (d.states, d.items, d.rules, d.terminals);
        let last = last_nonterminal(d.nonterminals);
        match self.figure {
            Figure::State => write!(f, "state {v}: states are 1 to {states}"),
            Figure::Item => write!(f, "item {v}: items are 1 to {items}"),
            Figure::Rule => write!(f, "rule {v}: rules are 1 to {rules}"),
            Figure::Code => write!(f, "code {v}: codes are 0 to {terminals}"),
            Figure::Terminal => write!(f, "symbol {v}: terminals are 1 to {terminals}"),
            Figure::Nonterminal => write!(f, "symbol {v}: nonterminals are 64 to {last}"),
            Figure::Lookahead => {
                write!(
                    f,
                    "symbol {v}: terminals are 1 to {terminals}, and 0 is the end"
                )
            }
            Figure::Symbol | Figure::Free => {
                write!(
                    f,
                    "symbol {v}: terminals are 1 to {terminals}, nonterminals 64 to {last}"
                )
            }
        }
    }
}

// What a reply is to.
#[derive(Clone, Copy)]
pub enum FigureFault<'a> {
    // The number of a field, its text, and the least and the most that it may be.
    Excess(usize, Quoted<'a>, usize, usize),
    Kernels,
    Symbols,
    Undeclared(usize, Undeclared),
    Dot,
    SomeFigure,
    SecondMark(usize),
    CutLeft(usize),
    CutBeside(usize),
    NoMark,
    CutLast,
}

impl fmt::Display for FigureFault<'_> {
    fn fmt<W: fmt::Write>(&self, f: &mut fmt::Formatter<W>) -> fmt::Result {
        match *self {
            FigureFault::Excess(k, text, least, most) => {
                write!(f, "field {k} is {text}, and it may be {least} to {most}")
            }
            FigureFault::Kernels => write!(f, "there are more than 1023 kernel lines"),
            FigureFault::Symbols => write!(f, "there are more than 15 symbols"),
            FigureFault::Undeclared(k, figure) => write!(f, "field {k}, {figure}"),
            FigureFault::Dot => write!(f, "field 4, the dot, is past the end of the item"),
            FigureFault::SomeFigure => write!(f, "a figure is undeclared"),
            FigureFault::SecondMark(k) => write!(f, "field {k} is a second ^"),
            FigureFault::CutLeft(k) => write!(f, "field {k} is a / with no ^ left of it"),
            FigureFault::CutBeside(k) => write!(f, "field {k} is a / beside another mark"),
            FigureFault::NoMark => write!(f, "no ^ stands in the line"),
            FigureFault::CutLast => write!(f, "a / stands last"),
        }
    }
}

// What stands before a field of a rule line: symbols with no `^` left of them, the `^`, a symbol right of it, or a `/`.
#[derive(Clone, Copy, PartialEq, Eq)]
enum Before {
    Left,
    Mark,
    Symbol,
    Cut,
}

impl Before {
    // What stands before the next field, after this one.
    fn then(self, part: Part) -> Before {
        match part {
            Part::Number(_) if self == Before::Left => Before::Left,
            Part::Number(_) => Before::Symbol,
            Part::Mark(b'^') => Before::Mark,
            Part::Mark(_) | Part::Letter(_) => Before::Cut,
        }
    }
}

// Field k of a line with this letter, and what stands before it.
#[derive(Clone, Copy)]
struct Spot<'a> {
    letter: u8,
    before: Before,
    k: usize,
    text: Quoted<'a>,
    part: Part,
}

impl<'a> Spot<'a> {
    // A number out of its limits.
    fn excess(self) -> Option<FigureFault<'a>> {
        let Part::Number(value) = self.part else {
            return None;
        };
        let (least, most) = limits(self.letter, self.k);
        if (least..=most).contains(&value) {
            return None;
        }
        Some(FigureFault::Excess(self.k, self.text, least, most))
    }

    // A number that is not declared.
    fn undeclared(self, declared: Declared) -> Option<FigureFault<'a>> {
        let Part::Number(value) = self.part else {
            return None;
        };
        let figure = Figure::of(self.letter, self.k);
        if declared.has(figure, value) {
            return None;
        }
        let undeclared = Undeclared {
            figure,
            value,
            declared,
        };
        Some(FigureFault::Undeclared(self.k, undeclared))
    }

    // A mark that stands where it may not.
    fn misplaced(self) -> Option<FigureFault<'a>> {
        let Part::Mark(mark) = self.part else {
            return None;
        };
        match (mark, self.before) {
            (b'^', Before::Left) => None,
            (b'^', _) => Some(FigureFault::SecondMark(self.k)),
            (_, Before::Symbol) => None,
            (_, Before::Left) => Some(FigureFault::CutLeft(self.k)),
            (_, Before::Mark | Before::Cut) => Some(FigureFault::CutBeside(self.k)),
        }
    }

    // What the reply of that number says of the field, if it is to it.
    fn fault(self, number: u64, declared: Declared) -> Option<FigureFault<'a>> {
        match number {
            2 => self.excess(),
            3 => self.undeclared(declared),
            _ => self.misplaced(),
        }
    }
}

// What it says of the line, where it is to none of its fields; `last` is what stands before the line's end.
fn line_fault(number: u64, letter: u8, last: Before) -> FigureFault<'static> {
    match (number, letter) {
        (2, b'K') => FigureFault::Kernels,
        (2, _) => FigureFault::Symbols,
        (3, b'K') => FigureFault::Dot,
        (3, _) => FigureFault::SomeFigure,
        _ if last == Before::Left => FigureFault::NoMark,
        _ => FigureFault::CutLast,
    }
}

// What the reply of that number, 2 to 4, says of a line: of its first field that it is to, or of the whole.
pub fn explain_figures(line: BookLine<'_>, number: u64, declared: Declared) -> FigureFault<'_> {
    let mut before = Before::Left;
    let Some((Part::Letter(letter), second)) = read_part(line.book, line.start()) else {
        return line_fault(number, 0, before);
    };
    let mut c = second;
    // Each field has a byte of the book at its end.
    for k in 2..line.book.len() + 2 {
        let Some((part, next)) = read_part(line.book, c) else {
            break;
        };
        let spot = Spot {
            letter,
            before,
            k,
            text: field_at(line.book, c.at),
            part,
        };
        if let Some(fault) = spot.fault(number, declared) {
            return fault;
        }
        before = before.then(part);
        c = next;
    }
    line_fault(number, letter, before)
}
