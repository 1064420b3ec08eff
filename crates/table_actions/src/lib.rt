// Action lines of table books, the cells and gotos in memory.
// Inner: for `table_blocks`.
#![tactic(auto)]

ghost use Rattle.std.specs.Prelude.{◌≡◌, List, [], ◌∷◌, Bool, ℕ, ◌+◌, ◌*◌, ◌≤◌, ◌<◌, length};
ghost use Rattle.leftcorner.specs.Table.{ActionLine, L};
ghost use Rattle.memory.specs.Memory.{pop_value};
ghost use Rattle.table_order.specs.Order.{action_key};
ghost use Rattle.table_order.specs.Last.{LastIs, HoldsLast};
ghost use Rattle.table_lines.specs.Image.{image, flag};
ghost use Rattle.table_lines.specs.Block.{Summarizes, Comes, Reads};
ghost use Rattle.table_actions.specs.Actions.{is_action, action_of, action_declared, judge_action, action_next, actions_from};
ghost use Rattle.table_actions.specs.Memory.{Formed, Cells, Stored, Flags, ActionImage, ActionMemory};

use range::in_range;
use reply::{Kind, Refusal};
use symbol::{CODES, Symbol};
use table_lines::{Block, Judgement, Line, Step, Tally};

#[tactic(auto, unfolding(crate::specs::Actions::is_action))]
fn is_action(letter: u8) -> bool
    ensures { result ≡ is_action letter }
{
    matches!(letter, b'S' | b'N' | b'A' | b'P')
}

// Whether the symbol is of the kind that the letter asks for, and the next state or the rule is declared.
#[tactic(auto, unfolding(crate::specs::Actions::action_declared))]
fn action_declared(
    t: usize,
    n: usize,
    rules: usize,
    states: usize,
    letter: u8,
    symbol: usize,
    v: usize,
) -> bool
    ensures { result ≡ action_declared t n rules states letter symbol v }
{
    let x = Symbol { code: symbol };
    match letter {
        b'S' => x.is_terminal(t) && in_range(1, v, states),
        b'N' => x.is_nonterminal(n) && in_range(1, v, states),
        b'A' => x.is_lookahead(t) && in_range(1, v, rules),
        _ => x.is_lookahead(t),
    }
}

fn judge_action(
    t: usize,
    n: usize,
    rules: usize,
    states: usize,
    lines: usize,
    letter: u8,
    p: Tally,
    numbers: &[usize],
    last: &[usize],
) -> Judgement
    requires { (length numbers.now ≡ 67) × (length last.now ≡ 2) }
    ensures { (l : List ActionLine) (ns : List ℕ) → length l ≡ lines → LastIs action_key last.now l → Summarizes ns p numbers.now → result ≡ judge_action t n rules states l letter ns }
{
    if !is_action(letter) {
        return Judgement::Faulty(Kind::Malformed);
    }
    if p.count != 3 {
        return Judgement::Faulty(Kind::Malformed);
    }
    if !table_order::is_after(lines, last, numbers) {
        return Judgement::Faulty(Kind::Malformed);
    }
    if 65535 < p.largest {
        return Judgement::Faulty(Kind::LimitExceeded);
    }
    if !in_range(1, numbers[0], states) {
        return Judgement::Faulty(Kind::Undeclared);
    }
    if !action_declared(t, n, rules, states, letter, numbers[1], numbers[2]) {
        return Judgement::Faulty(Kind::Undeclared);
    }
    Judgement::Fine
}

// A pop's value in its cell.
fn pop_value(count: usize) -> usize
    ensures { (result ≡ pop_value count) × (result < 256) }
{
    match count {
        1..=255 => count - 1,
        _ => 255,
    }
}

// Stores the cell or the goto of a line, and marks its next state as named.
#[tactic(auto, unfolding(crate::specs::Actions::action_of))]
fn store_action(
    letter: u8,
    state: usize,
    symbol: usize,
    v: usize,
    kinds: &mut [u8],
    values: &mut [u8],
    gotos: &mut [u8],
    named: &mut [u8],
)
    requires { Formed (L state symbol (action_of letter v)) }
    ensures { Stored (L state symbol (action_of letter v)) kinds.old values.old gotos.old named.old kinds.new values.new gotos.new named.new }
{
    let cell = state * CODES + symbol;
    match letter {
        b'S' => {
            table_lines::put(kinds, cell, 1);
            table_lines::put(values, cell, v);
            table_lines::put(named, v, 1);
        }
        b'N' => {
            table_lines::put(gotos, cell - Symbol::FIRST_NONTERMINAL, v);
            table_lines::put(named, v, 1);
        }
        b'A' => {
            table_lines::put(kinds, cell, 2);
            table_lines::put(values, cell, v);
        }
        _ => {
            table_lines::put(kinds, cell, 3);
            table_lines::put(values, cell, pop_value(v));
        }
    }
}

// A line's state and symbol are now the last.
fn keep_pair(last: &mut [usize], state: usize, symbol: usize)
    requires { length last.old ≡ 2 }
    ensures { last.new ≡ state ∷ symbol ∷ [] }
{
    last.copy_from_slice(&[state, symbol]);
}

// The action line at `at`, after so many others.
fn read_action(
    s: &[u8],
    at: usize,
    t: usize,
    n: usize,
    rules: usize,
    states: usize,
    lines: usize,
    kinds: &mut [u8],
    values: &mut [u8],
    gotos: &mut [u8],
    named: &mut [u8],
    last: &mut [usize],
) -> Step
    requires s_len_bound { (length s.now < 65537) × (t ≤ 63) × (n ≤ 64) × (rules ≤ 127) × (states ≤ 255) × (length last.old ≡ 2) }
    requires holds_last { HoldsLast action_key last.old lines }
    ensures { (e : ℕ → Bool) (a b c d : ℕ) (l : List ActionLine) → length l ≡ lines → ActionMemory e a b c d l kinds.old values.old gotos.old named.old last.old
        → Comes l (λ k. ActionMemory e a b c d k kinds.new values.new gotos.new named.new last.new) (action_next s.now t n rules states at l) result }
{
    if s.len() <= at {
        return Step::Stopped;
    }
    let mut numbers = [0usize; 67];
    let Line::Whole(letter, p, next) = table_lines::read_line(s, at, &mut numbers) else {
        return Step::Refused(Refusal {
            kind: Kind::Malformed,
            place: at,
        });
    };
    let judgement = judge_action(t, n, rules, states, lines, letter, p, &numbers, last);
    if let Judgement::Faulty(kind) = judgement {
        return Step::Refused(Refusal { kind, place: at });
    }
    store_action(
        letter, numbers[0], numbers[1], numbers[2], kinds, values, gotos, named,
    );
    keep_pair(last, numbers[0], numbers[1]);
    Step::Taken(next)
}

// The action lines from `first` on, with a place for the last line's state and symbol.
fn read_rising(
    s: &[u8],
    first: usize,
    t: usize,
    n: usize,
    rules: usize,
    states: usize,
    kinds: &mut [u8],
    values: &mut [u8],
    gotos: &mut [u8],
    named: &mut [u8],
    last: &mut [usize],
) -> Block
    requires s_len_bound { (length s.now < 65537) × (t ≤ 63) × (n ≤ 64) × (rules ≤ 127) × (states ≤ 255) × (length last.old ≡ 2) × LastIs action_key last.old [] }
    requires cells { Cells (length kinds.old) (length values.old) (length gotos.old) [] kinds.old values.old gotos.old }
    requires flags { Flags named.old }
    ensures { (e : ℕ → Bool) → named.old ≡ image (length named.old) (λ q. flag (e q))
        → Reads (λ l. ActionMemory e (length kinds.old) (length values.old) (length gotos.old) (length named.old) l kinds.new values.new gotos.new named.new last.new) (actions_from s.now t n rules states first) result }
{
    let mut at = first;
    for k in 0..s.len() {
        match read_action(
            s, at, t, n, rules, states, k, kinds, values, gotos, named, last,
        ) {
            Step::Taken(next) => at = next,
            Step::Stopped => return Block::Read(k, at),
            Step::Refused(why) => return Block::Refused(why),
        }
    }
    Block::Read(s.len(), at)
}

// The action lines from `first` on to the book's end. A refusal leaves the slices free; `table::read_tables` then clears them.
pub fn read_actions(
    s: &[u8],
    first: usize,
    t: usize,
    n: usize,
    rules: usize,
    states: usize,
    kinds: &mut [u8],
    values: &mut [u8],
    gotos: &mut [u8],
    named: &mut [u8],
) -> Block
    requires s_len_bound { (length s.now < 65537) × (t ≤ 63) × (n ≤ 64) × (rules ≤ 127) × (states ≤ 255) }
    requires cells { Cells (length kinds.old) (length values.old) (length gotos.old) [] kinds.old values.old gotos.old }
    requires flags { Flags named.old }
    ensures { (e : ℕ → Bool) → named.old ≡ image (length named.old) (λ q. flag (e q))
        → Reads (λ l. ActionImage e (length kinds.old) (length values.old) (length gotos.old) (length named.old) l kinds.new values.new gotos.new named.new) (actions_from s.now t n rules states first) result }
{
    let mut last = [0usize; 2];
    read_rising(
        s, first, t, n, rules, states, kinds, values, gotos, named, &mut last,
    )
}
