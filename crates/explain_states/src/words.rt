// How items, actions and the users of entries are put.
ghost use Rattle.std.specs.Prelude.{◌≡◌, ◌≤◌};
ghost use Rattle.items.specs.Layout.{Shaped};

use cells::{ANNOUNCE, POP, VALUES};
use std::fmt;

// The item table: rules, then entries.
#[derive(Clone, Copy)]
pub struct Items<'a> {
    pub rows: &'a [u8],
    pub rules: usize,
    pub count: usize,
    ghost shaped: { Shaped rows.now count },
}

impl<'a> Items<'a> {
    // Item i with its dot.
    pub fn item(self, i: usize, dot: usize) -> Item<'a>
        requires { i ≤ self.count }
        ensures { (result.number ≡ i) × (result.dot ≡ dot) }
    {
        Item {
            items: self,
            number: i,
            dot,
        }
    }

    // The symbols of item i from one number up to another.
    pub fn symbols(self, i: usize, from: usize, to: usize) -> Symbols<'a>
        requires item { i ≤ self.count }
        requires place { to ≤ 15 }
    {
        Symbols {
            items: self,
            number: i,
            from,
            to,
        }
    }

    // All symbols of item i.
    pub fn string(self, i: usize) -> Symbols<'a>
        requires { i ≤ self.count }
    {
        self.symbols(i, 0, items::length_of(self.rows, self.count, i))
    }

    // What stands before symbol k of item i: its recognition point, or the cut between two groups.
    fn mark(self, i: usize, k: usize) -> &'static str
        requires { i ≤ self.count }
    {
        if k == items::mark_of(self.rows, self.count, i) {
            " ^"
        } else if k < 15 && items::start_of(self.rows, self.count, i, k) != 0 {
            " /"
        } else {
            ""
        }
    }

    // The number of the group of rule i in which symbol `from` stands.
    pub fn group_number(self, i: usize, from: usize) -> usize
        requires { i ≤ self.count }
    {
        (0..=from.min(14))
            .filter(|k| items::start_of(self.rows, self.count, i, *k) != 0)
            .count()
    }
}

// An item with its dot, as a rule or an entry's string.
#[derive(Clone, Copy)]
pub struct Item<'a> {
    pub items: Items<'a>,
    pub number: usize,
    pub dot: usize,
    ghost low: { number ≤ items.count },
}

impl fmt::Display for Item<'_> {
    fn fmt<W: fmt::Write>(&self, f: &mut fmt::Formatter<W>) -> fmt::Result {
        let items = self.items;
        let i = self.number;
        let dot = self.dot;
        write!(f, "item {i}, dot {dot} (")?;
        if i <= items.rules {
            let left = items::left_of(items.rows, items.count, i);
            write!(f, "rule {i}: {left} ->")?;
        } else {
            let entry = i - items.rules;
            write!(f, "entry {entry}:")?;
        }
        let n = items::length_of(items.rows, items.count, i);
        for k in 0..n {
            let point = if k == dot { " ." } else { "" };
            let mark = items.mark(i, k);
            let symbol = items::symbol_of(items.rows, items.count, i, k);
            write!(f, "{point}{mark} {symbol}")?;
        }
        let point = if n == dot { " ." } else { "" };
        let mark = items.mark(i, n);
        write!(f, "{point}{mark})")
    }
}

// The symbols of an item from one number up to another.
#[derive(Clone, Copy)]
pub struct Symbols<'a> {
    items: Items<'a>,
    number: usize,
    from: usize,
    to: usize,
    ghost low: { number ≤ items.count },
    ghost within: { to ≤ 15 },
}

impl fmt::Display for Symbols<'_> {
    fn fmt<W: fmt::Write>(&self, f: &mut fmt::Formatter<W>) -> fmt::Result {
        let items = self.items;
        let to = self.to;
        for k in self.from..to {
            let symbol = items::symbol_of(items.rows, items.count, self.number, k);
            write!(f, " {symbol}")?;
        }
        Ok(())
    }
}

// An action, by the number that `cells` gives it; 0 is none.
#[derive(Clone, Copy)]
pub struct Action(pub usize);

impl fmt::Display for Action {
    fn fmt<W: fmt::Write>(&self, f: &mut fmt::Formatter<W>) -> fmt::Result {
        let demand = self.0;
        if demand == 0 {
            write!(f, "nothing")
        } else if demand < ANNOUNCE {
            write!(f, "shift")
        } else if demand < POP {
            let rule = demand - ANNOUNCE;
            write!(f, "announce of rule {rule}")
        } else if demand < POP + VALUES - 1 {
            let count = demand - POP + 1;
            write!(f, "pop of {count}")
        } else {
            write!(f, "pop of a count that no entry has")
        }
    }
}

// Who uses an entry, by what each group uses. The goal's is used by none, and a rule is no entry.
#[derive(Clone, Copy)]
pub struct User<'a> {
    pub uses: &'a [u8],
    pub entry: Option<usize>,
}

impl User<'_> {
    // Where the entry stands among the uses of the rules from the first on, 16 for each.
    fn place(self) -> Option<usize> {
        let entry = self.entry?;
        self.uses
            .iter()
            .skip(16)
            .position(|used| *used as usize == entry)
    }
}

impl fmt::Display for User<'_> {
    fn fmt<W: fmt::Write>(&self, f: &mut fmt::Formatter<W>) -> fmt::Result {
        let (Some(entry), Some(place)) = (self.entry, self.place()) else {
            return Ok(());
        };
        let group = place % 16 + 1;
        let rule = place / 16 + 1;
        write!(f, "; entry {entry} is group {group} of rule {rule}")
    }
}
