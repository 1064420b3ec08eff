// The states of a grammar's table, found from the entries on.
// Inner: for `build_memory`.
#![tactic(auto)]

ghost use Rattle.std.specs.Prelude.{ℕ, ◌+◌, ◌*◌, ◌<◌, ◌≤◌, length, get_or};
ghost use Rattle.language.specs.Grammar.{Grammar};
ghost use Rattle.items.specs.Layout.{Shaped};
ghost use Rattle.moves.specs.Moves.{Cells};
ghost use Rattle.build_moves.specs.Held.{HoldsGrammar};
ghost use Rattle.build_kernel_sets.specs.Sets.{Bounds};
ghost use Rattle.build_kernel_sets.specs.Cells.{Blank};
ghost use Rattle.build_kernels.specs.Exploring.{Seeded, Explored};
ghost use Rattle.build_kernels.specs.Lines.{WritesLine, WritesSet, LinesOf};
ghost use Rattle.build_kernels.specs.Discovered.{Safe, Discovers};

use build_kernel_sets::Size;

// Stores the entries' kernel sets: entry j's is its item, dot 0.
fn seed_entries(rules: usize, strings: usize, sets: &mut [usize], starts: &mut [usize])
    requires { (rules ≤ 127) × (strings ≤ 127) × (5119 ≤ length sets.old) × (257 ≤ length starts.old) }
    ensures { Seeded rules strings sets.new starts.new }
{
    for j in 0..strings {
        sets[j] = (rules + 1 + j) * 16;
        starts[j] = j;
    }
    starts[strings] = strings;
}

// Leaves state after state, until all have been left or a limit is passed.
fn explore_states(
    items: &[u8],
    rules: usize,
    strings: usize,
    sets: &mut [usize],
    starts: &mut [usize],
    kinds: &mut [u8],
    values: &mut [u8],
    gotos: &mut [u8],
) -> Size
    requires shaped { Shaped items.now (rules + strings) }
    requires rules_bound { (rules ≤ 127) × (strings ≤ 127) × (5119 ≤ length sets.old) × (257 ≤ length starts.old) }
    requires seeded { Seeded rules strings sets.old starts.old }
    requires cells { Cells kinds.old values.old gotos.old }
    requires blank { Blank kinds.old values.old gotos.old }
    ensures { Explored items.now rules strings sets.new starts.new kinds.new values.new gotos.new result.states result.lines }
{
    let count = rules + strings;
    let mut moved = [0usize; 4096];
    let mut size = Size {
        states: strings,
        lines: strings,
    };
    let mut q = 0;
    // Stays a counted loop: leaving a state moves its end.
    while q < size.states {
        let kernel = &sets[starts[q]..starts[q + 1]];
        let n = build_moves::list_moves(items, count, rules, kernel, &mut moved);
        size = build_kernel_sets::leave_state(
            q + 1,
            &moved,
            n,
            sets,
            starts,
            size.states,
            size.lines,
            kinds,
            values,
            gotos,
        );
        if size.states > 255 || size.lines > 1023 {
            break;
        }
        q += 1;
    }
    size
}

// Writes kernel line l.
fn write_line(kernels: &mut [u8], l: usize, q: usize, x: usize)
    requires { (l * 4 + 4 ≤ length kernels.old) × (q < 256) × (x < 4096) }
    ensures { WritesLine kernels.old kernels.new l q x }
{
    kernels[l * 4] = q as u8;
    kernels[l * 4 + 1] = (x / 16) as u8;
    kernels[l * 4 + 2] = (x % 16) as u8;
}

// Writes the lines of one state.
fn write_set(sets: &[usize], a: usize, b: usize, q: usize, kernels: &mut [u8])
    requires a_le_b { (a ≤ b) × (b ≤ length sets.now) × (b * 4 ≤ length kernels.old) × (q < 256) }
    requires by_index { (l : ℕ) → l < b → get_or sets.now l 0 < 4096 }
    ensures { WritesSet sets.now kernels.old kernels.new a b q }
{
    for l in a..b {
        write_line(kernels, l, q, sets[l]);
    }
}

// Writes the lines of all states.
fn write_lines(sets: &[usize], starts: &[usize], states: usize, lines: usize, kernels: &mut [u8])
    requires bounds { Bounds sets.now starts.now states lines }
    requires states_bound { (states ≤ 255) × (lines * 4 ≤ length kernels.old) }
    requires by_index { (l : ℕ) → l < lines → get_or sets.now l 0 < 4096 }
    ensures { LinesOf sets.now starts.now states kernels.new }
{
    for p in 0..states {
        write_set(sets, starts[p], starts[p + 1], p + 1, kernels);
    }
}

// The states of a table, with their counts of states and kernel lines, or more of them than a table book may have.
#[derive(Clone, Copy)]
pub enum Discovery {
    States(usize, usize),
    TooMany,
}

// Finds the states of the grammar in `items`, in the builder's order: their kernel lines, where each state's begin, and their next states.
pub fn find_states(
    items: &[u8],
    rules: usize,
    strings: usize,
    kernels: &mut [u8],
    starts: &mut [usize],
    kinds: &mut [u8],
    values: &mut [u8],
    gotos: &mut [u8],
) -> Discovery
    requires shaped { Shaped items.now (rules + strings) }
    requires rules_bound { (rules ≤ 127) × (strings ≤ 127) × (4092 ≤ length kernels.old) × (257 ≤ length starts.old) }
    requires cells { Cells kinds.old values.old gotos.old }
    requires blank { Blank kinds.old values.old gotos.old }
    ensures safe { Safe kernels.new starts.new (rules + strings) result }
    ensures discovers { (g : Grammar) → HoldsGrammar items.now rules strings g → Discovers g kernels.new starts.new kinds.new values.new gotos.new result }
{
    let mut sets = [0usize; 5120];
    seed_entries(rules, strings, &mut sets, starts);
    let Size { states, lines } = explore_states(
        items, rules, strings, &mut sets, starts, kinds, values, gotos,
    );
    if states > 255 || lines > 1023 {
        return Discovery::TooMany;
    }
    write_lines(&sets, starts, states, lines, kernels);
    Discovery::States(states, lines)
}
