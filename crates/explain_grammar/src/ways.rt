// How the states of a table are reached.
ghost use Rattle.std.specs.Prelude.{◌<◌, ◌≤◌, IfSome};
ghost use Rattle.moves.specs.Moves.{Cells};

use std::fmt;
use symbol::SYMBOLS;

// The cells and next states of a table.
#[derive(Clone, Copy)]
pub struct Moves<'a> {
    pub kinds: &'a [u8],
    pub values: &'a [u8],
    pub gotos: &'a [u8],
    ghost cells: { Cells kinds.now values.now gotos.now },
}

impl<'a> Moves<'a> {
    // The symbol on which state p goes to state q.
    fn symbol_between(self, p: usize, q: usize) -> Option<usize>
        requires { p < 256 }
        ensures { IfSome result (λ x. x < 128) }
    {
        for x in 1..SYMBOLS {
            if moves::next_of(self.kinds, self.values, self.gotos, p, x) == q {
                return Some(x);
            }
        }
        None
    }

    // The lowest state that goes to q, a higher one.
    fn state_before(self, q: usize) -> Option<usize>
        requires { q < 256 }
        ensures { IfSome result (λ p. (1 ≤ p) × (p < q)) }
    {
        for p in 1..q {
            if self.symbol_between(p, q).is_some() {
                return Some(p);
            }
        }
        None
    }

    // The way to state q from an entry's, whose states are the first so many. Every other state was found from a lower one.
    pub fn way_to(self, q: usize, entries: usize) -> Way<'a>
        requires { (1 ≤ q) × (q < 256) }
    {
        let mut states = [0u8; 256];
        let mut first = 255;
        let mut s = q;
        states[255] = q as u8;
        // Stays a `while`: each state is found from the one after it, so no range gives the steps.
        while entries < s {
            let Some(p) = self.state_before(s) else {
                break;
            };
            first -= 1;
            states[first] = p as u8;
            s = p;
        }
        Way {
            moves: self,
            states,
            first,
        }
    }
}

// A way over states, which are those from `first` on.
#[derive(Clone, Copy)]
pub struct Way<'a> {
    moves: Moves<'a>,
    states: [u8; 256],
    first: usize,
    ghost some: { first < 256 },
}

impl fmt::Display for Way<'_> {
    fn fmt<W: fmt::Write>(&self, f: &mut fmt::Formatter<W>) -> fmt::Result {
        let entry = self.states[self.first];
        let last = self.states[255];
        if self.first == 255 {
            return write!(f, "state {last} is that of entry {last}");
        }
        write!(f, "state {last} is reached from entry {entry}, over")?;
        for i in self.first..255 {
            let p = self.states[i] as usize;
            let q = self.states[i + 1] as usize;
            let x = self.moves.symbol_between(p, q).unwrap_or(0);
            write!(f, " {x}")?;
        }
        Ok(())
    }
}
