// A table in memory, with what the check computes of it and of a state.
ghost use Rattle.std.specs.Prelude.{◌≡◌, ◌+◌, ◌<◌, ◌≤◌, length};
ghost use Rattle.moves.specs.Moves.{Readable};
ghost use Rattle.item_first.specs.Rows.{FirstRoom};
ghost use Rattle.check_memory.specs.Given.{TableRoom};

use crate::words::{Item, Items, User};
use cells::SHIFT;
use memory::Totals;
use symbol::{CODES, Symbol};

// A table in memory.
#[derive(Clone, Copy)]
pub struct Table<'a> {
    pub items: &'a [u8],
    pub entries: &'a [u8],
    pub kernels: &'a [u8],
    pub lookaheads: &'a [u8],
    pub kinds: &'a [u8],
    pub values: &'a [u8],
    pub gotos: &'a [u8],
    pub named: &'a [u8],
    pub totals: Totals,
    ghost room: { TableRoom items.now entries.now kernels.now lookaheads.now kinds.now values.now gotos.now named.now totals.items totals.rules totals.entries totals.lines },
}

impl<'a> Table<'a> {
    // Its rules and entries.
    pub fn items(self) -> Items<'a>
        ensures { (result.count ≡ self.entry.totals.items) × (result.rules ≡ self.entry.totals.rules) }
    {
        Items {
            rows: self.items,
            rules: self.totals.rules,
            count: self.totals.items,
        }
    }

    // The item of kernel line l, with its dot.
    pub fn line_item(self, l: usize) -> Item<'a>
        requires { l < self.totals.lines }
        ensures { (result.number ≤ self.entry.totals.items) × (result.dot ≤ 15) }
    {
        let t = self.totals;
        self.items().item(
            kernel_lines::item_of(self.kernels, t.lines, t.items, l),
            kernel_lines::dot_of(self.kernels, t.lines, t.items, l),
        )
    }

    // The state to which state q goes on symbol x; 0 where it goes to none.
    pub fn next(self, q: usize, x: usize) -> usize
        requires state { q < 256 }
        requires symbol { x < 128 }
    {
        moves::next_of(self.kinds, self.values, self.gotos, q, x)
    }
}

// A table with what is computed of it before the states: links of the kernel lines, the entries that groups use, nullable symbols and first
// sets, and what is kept of each rule for the closures.
#[derive(Clone, Copy)]
pub struct Prepared<'a> {
    pub table: Table<'a>,
    pub links: &'a [usize],
    pub uses: &'a [u8],
    pub nullable: &'a [u8],
    pub first: &'a [u8],
    pub starts: &'a [u8],
    pub through: &'a [u8],
    ghost first_room: { FirstRoom table.items.now nullable.now first.now table.totals.items table.totals.codes },
}

// The row of an item's lookaheads: 64 flags from a start on.
#[derive(Clone, Copy)]
pub struct Row<'a> {
    pub flags: &'a [u8],
    pub start: usize,
    ghost within: { start + 64 ≤ length flags.now },
}

impl<'a> Prepared<'a> {
    // Who uses entry k.
    pub fn user(self, k: usize) -> User<'a> {
        User {
            uses: self.uses,
            entry: Some(k),
        }
    }

    // Who uses item i, where it is an entry's.
    pub fn item_user(self, i: usize) -> User<'a> {
        let rules = self.table.totals.rules;
        User {
            uses: self.uses,
            entry: i.checked_sub(rules).filter(|k| *k != 0),
        }
    }

    // What an item of the table with these lookaheads asks of the cell for code c; 0 where it asks nothing.
    pub fn demand(self, item: Item<'a>, row: Row<'_>, c: usize) -> usize
        requires item { item.number ≤ self.table.totals.items }
        requires dot { item.dot ≤ 15 }
        requires code { c < 64 }
    {
        let table = self.table;
        let mut asked = [0usize; CODES];
        let mut others = [0usize; CODES];
        cells::ask_item(
            table.items,
            self.nullable,
            self.first,
            row.flags,
            table.totals,
            item.number,
            item.dot,
            row.start,
            &mut asked,
            &mut others,
        );
        let next = moves::symbol_after(table.items, table.totals.items, item.number, item.dot);
        if c != Symbol::END && next == c {
            SHIFT
        } else {
            asked[c]
        }
    }
}

// A state with its closure: the nonterminals that it expands, the lookaheads of their rules, and the symbols on which something moves.
#[derive(Clone, Copy)]
pub struct State<'a> {
    pub prepared: Prepared<'a>,
    pub q: usize,
    pub present: &'a [u8],
    pub follow: &'a [u8],
    pub symbols: &'a [u8],
    ghost low: { q < 256 },
    ghost readable: { Readable prepared.table.items.now prepared.table.kernels.now prepared.links.now present.now prepared.table.totals.items prepared.table.totals.rules prepared.table.totals.lines },
    ghost follow_room: { length follow.now ≡ 4096 },
    ghost symbols_room: { length symbols.now ≡ 128 },
}
