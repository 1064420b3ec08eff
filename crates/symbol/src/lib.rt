// Symbol codes: the end of the tokens, terminals and nonterminals.
// Inner: for the readers of lines, and for the tokens of a session.
#![tactic(auto)]

ghost use Rattle.std.specs.Prelude.{◌≡◌};
ghost use Rattle.symbol.specs.Symbol.{is_end, is_terminal, is_lookahead, is_nonterminal, is_declared};

use range::in_range;

// So many codes can be lookaheads, the end and 63 terminals, and so many nonterminals there can be: the length of a row with a
// place for each of them.
pub const CODES: usize = 64;
// All codes are below.
pub const SYMBOLS: usize = 128;

// A symbol by its code.
#[derive(Clone, Copy)]
pub struct Symbol {
    pub code: usize,
}

impl Symbol {
    // The end of the tokens.
    pub const END: usize = 0;
    // The code of the first nonterminal.
    pub const FIRST_NONTERMINAL: usize = 64;

    pub fn is_end(self) -> bool
        ensures { result ≡ is_end self.code }
    {
        self.code == Symbol::END
    }

    // One of the terminals 1 to t.
    pub fn is_terminal(self, t: usize) -> bool
        ensures { result ≡ is_terminal t self.code }
    {
        in_range(Symbol::END + 1, self.code, t)
    }

    // The end or one of the terminals 1 to t.
    #[tactic(auto, unfolding(range::specs::Range::within))]
    pub fn is_lookahead(self, t: usize) -> bool
        ensures { result ≡ is_lookahead t self.code }
    {
        self.is_end() || self.is_terminal(t)
    }

    // One of the n nonterminals from 64 on.
    #[tactic(auto, unfolding(range::specs::Range::within))]
    pub fn is_nonterminal(self, n: usize) -> bool
        ensures { result ≡ is_nonterminal n self.code }
    {
        Symbol::FIRST_NONTERMINAL <= self.code && self.code - Symbol::FIRST_NONTERMINAL < n
    }

    // A terminal or a nonterminal.
    #[tactic(auto, unfolding(crate::specs::Symbol::is_declared))]
    pub fn is_declared(self, t: usize, n: usize) -> bool
        ensures { result ≡ is_declared t n self.code }
    {
        self.is_terminal(t) || self.is_nonterminal(n)
    }
}
