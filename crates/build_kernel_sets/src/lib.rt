// Kernel sets in memory, and what joins them as a state is left. A kernel set is the rising list of the numbers item * 16 + dot of its items.
// Inner: for the builder.
#![tactic(auto)]

ghost use Rattle.std.specs.Prelude.{◌≡◌, ◌+◌, ◌<◌, ◌≤◌, length, take};
ghost use Rattle.moves.specs.Moves.{Cells};
ghost use Rattle.build_moves.specs.Moved.{picked};
ghost use Rattle.build_kernel_sets.specs.Sets.{part, sets_in, Bounds, FindsSet, Joins};
ghost use Rattle.build_kernel_sets.specs.Cells.{Stores};
ghost use Rattle.build_kernel_sets.specs.Leaving.{Leaves};

use symbol::{CODES, SYMBOLS, Symbol};

// A state that is led to, 0 for none, and how many states and kernel lines there are.
#[derive(Clone, Copy)]
struct Visit {
    state: usize,
    states: usize,
    lines: usize,
}

// The number, from 0, of the set that is the same as the `len` numbers from `lines` on; `states` where there is none.
fn find_set(sets: &[usize], starts: &[usize], states: usize, lines: usize, len: usize) -> usize
    requires bounds { Bounds sets.now starts.now states lines }
    requires len_in_bounds { lines + len ≤ length sets.now }
    ensures upper_bound { result ≤ states }
    ensures finds_set { FindsSet (sets_in sets.now starts.now states) (part sets.now lines (lines + len)) result }
{
    for p in 0..states {
        if sets[starts[p]..starts[p + 1]] == sets[lines..lines + len] {
            return p;
        }
    }
    states
}

// The `len` numbers from `lines` on join the sets, where they are new.
fn join_set(sets: &[usize], starts: &mut [usize], states: usize, lines: usize, len: usize) -> Visit
    requires bounds { Bounds sets.now starts.old states lines }
    requires le_len { (1 ≤ len) × (lines + len ≤ length sets.now) × (states ≤ 255) × (lines ≤ 1023) × (257 ≤ length starts.old) }
    ensures { Joins sets.now starts.old sets.now starts.new states lines (part sets.now lines (lines + len)) result.states result.lines result.state }
{
    let p = find_set(sets, starts, states, lines, len);
    if p < states {
        return Visit {
            state: p + 1,
            states,
            lines,
        };
    }
    starts[states + 1] = lines + len;
    Visit {
        state: states + 1,
        states: states + 1,
        lines: lines + len,
    }
}

// What moves on x joins the sets, where something moves.
fn visit_symbol(
    moved: &[usize],
    n: usize,
    x: usize,
    sets: &mut [usize],
    starts: &mut [usize],
    states: usize,
    lines: usize,
) -> Visit
    requires bounds { Bounds sets.old starts.old states lines }
    requires n_in_bounds { (n ≤ length moved.now) × (lines + n ≤ length sets.old) × (states ≤ 255) × (lines ≤ 1023) × (257 ≤ length starts.old) }
    ensures { Joins sets.old starts.old sets.new starts.new states lines (picked x (take n moved.now)) result.states result.lines result.state }
{
    let len = build_moves::pick_moves(moved, n, x, sets, lines);
    if len == 0 {
        return Visit {
            state: 0,
            states,
            lines,
        };
    }
    join_set(sets, starts, states, lines, len)
}

// Stores that state q goes to v on x, 0 for nowhere.
fn store_next(kinds: &mut [u8], values: &mut [u8], gotos: &mut [u8], q: usize, x: usize, v: usize)
    requires cells { Cells kinds.old values.old gotos.old }
    requires q_bound { (q < 256) × (x < 128) × (v < 256) }
    ensures { Stores kinds.old values.old gotos.old kinds.new values.new gotos.new q x v }
{
    if v == 0 {
        return;
    }
    if x >= Symbol::FIRST_NONTERMINAL {
        gotos[q * CODES + (x - Symbol::FIRST_NONTERMINAL)] = v as u8;
    } else {
        kinds[q * CODES + x] = 1;
        values[q * CODES + x] = v as u8;
    }
}

// How many states and kernel lines there are.
#[derive(Clone, Copy)]
pub struct Size {
    pub states: usize,
    pub lines: usize,
}

// Leaves state q on every symbol, by code, until a limit is passed.
pub fn leave_state(
    q: usize,
    moved: &[usize],
    n: usize,
    sets: &mut [usize],
    starts: &mut [usize],
    states: usize,
    lines: usize,
    kinds: &mut [u8],
    values: &mut [u8],
    gotos: &mut [u8],
) -> Size
    requires bounds { Bounds sets.old starts.old states lines }
    requires n_in_bounds { (n ≤ length moved.now) × (n ≤ 4096) × (5119 ≤ length sets.old) × (257 ≤ length starts.old) }
    requires q_bound { (q < 256) × (states ≤ 255) × (lines ≤ 1023) }
    requires cells { Cells kinds.old values.old gotos.old }
    ensures { Leaves (take n moved.now) sets.old starts.old kinds.old values.old gotos.old q states lines sets.new starts.new kinds.new values.new gotos.new result.states result.lines }
{
    let mut found = states;
    let mut end = lines;
    for x in 1..SYMBOLS {
        let visit = visit_symbol(moved, n, x, sets, starts, found, end);
        found = visit.states;
        end = visit.lines;
        if found > 255 || end > 1023 {
            break;
        }
        store_next(kinds, values, gotos, q, x, visit.state);
    }
    Size {
        states: found,
        lines: end,
    }
}
