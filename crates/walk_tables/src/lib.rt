// A machine in memory, as the walk reads it: cells, gotos and the rows of rules.
// Inner: for the walker and its parts, for who loads a machine, and for the trials of `expected`.
#![tactic(auto)]

ghost use Rattle.std.specs.Prelude.{◌≡◌, ◌<◌, replicate};
ghost use Rattle.walk_tables.specs.Memory.{cell_at, figure_of, goto_of};

use symbol::CODES;

// The bytes of the cells and of the gotos, and of the rows of rules: every index that bytes can make is in range.
pub const CELLS: usize = 16640;

pub const ROWS: usize = 8448;

// What a state does on a code: push the next state and take a token, announce a rule, pop an entry (the value is its
// length, and one state more is popped), or nothing.
#[derive(Clone, Copy)]
pub enum Cell {
    Shift(u8),
    Announce(u8),
    Pop(u8),
    Empty,
}

// A step that the walk is to make: the cell, and the code that it was looked up for.
#[derive(Clone, Copy)]
pub struct Step {
    pub cell: Cell,
    pub code: u8,
}

// All that a walk has to know: the kinds and values of the cells and the gotos at state * 64 + code, a rule's row at rule * 32,
// the state of the goal's entry, and the number of terminals.
#[derive(Clone, Copy)]
pub struct Machine {
    pub kinds: [u8; CELLS],
    pub values: [u8; CELLS],
    pub gotos: [u8; CELLS],
    pub rules: [u8; ROWS],
    pub start: u8,
    pub terminals: usize,
}

impl Machine {
    // The memory of a machine, to load one into.
    pub fn zeros() -> Machine
        ensures { result.rules ≡ replicate 8448 0 }
    {
        Machine {
            kinds: [0; CELLS],
            values: [0; CELLS],
            gotos: [0; CELLS],
            rules: [0; ROWS],
            start: 0,
            terminals: 0,
        }
    }

    // The cell of a state on a code. The code's part of the index is taken first: it is known before the state is.
    #[tactic(auto, unfolding(crate::specs::Memory::cell_at))]
    pub fn cell(&self, state: u8, code: u8) -> Cell
        ensures { result ≡ cell_at self.now.kinds self.now.values state code }
    {
        let from = code as usize;
        let kinds_on = &self.kinds[from..];
        let values_on = &self.values[from..];
        let row = state as usize * CODES;
        let value = values_on[row];
        match kinds_on[row] {
            1 => Cell::Shift(value),
            2 => Cell::Announce(value),
            3 => Cell::Pop(value),
            _ => Cell::Empty,
        }
    }

    // The step of a state on a code.
    pub fn step_at(&self, state: u8, code: u8) -> Step
        ensures { (result.cell ≡ cell_at self.now.kinds self.now.values state code) × (result.code ≡ code) }
    {
        Step {
            cell: self.cell(state, code),
            code,
        }
    }

    // Byte i of a rule's row.
    #[tactic(auto, unfolding(crate::specs::Memory::figure_of))]
    pub fn figure(&self, rule: u8, i: usize) -> u8
        requires { i < 260 }
        ensures { result ≡ figure_of self.now.rules rule i }
    {
        self.rules[rule as usize * 32 + i]
    }

    // The next state of a state for the nonterminal 64 + left.
    #[tactic(auto, unfolding(crate::specs::Memory::goto_of))]
    pub fn goto_at(&self, state: u8, left: u8) -> u8
        ensures { result ≡ goto_of self.now.gotos state left }
    {
        self.gotos[state as usize * CODES + left as usize]
    }
}
