// The inclusions that lookaheads must meet; states whose lookaheads are too few are flagged.
// Inner: for the checker.
#![tactic(auto)]

ghost use Rattle.std.specs.Prelude.{◌≡◌, ◌*◌, ◌<◌, ◌≤◌, length};
ghost use Rattle.fixpoint.specs.Flags.{Decides};
ghost use Rattle.kernel_lines.specs.Lines.{Lines, Linked};
ghost use Rattle.analysis.specs.Adds.{Adds};
ghost use Rattle.check_lookaheads.specs.Narrow.{Narrows};
ghost use Rattle.check_lookaheads.specs.Memory.{Covers, StateCovers, GoalAsks};

use symbol::{CODES, Symbol};

// Whether each code that is asked of line l is one of its lookaheads.
fn covers(included: &[u8], lookaheads: &[u8], lines: usize, l: usize, codes: usize) -> bool
    requires { (l < lines) × (lines ≤ 1023) × (codes ≤ 64) × (lines * 64 ≤ length included.now) × (lines * 64 ≤ length lookaheads.now) }
    ensures { Decides (Covers included.now lookaheads.now l codes) result }
{
    for c in 0..codes {
        if included[l * CODES + c] != 0 && lookaheads[l * CODES + c] == 0 {
            return false;
        }
    }
    true
}

// Flags the states of the lines that are asked for more than they have.
pub fn mark_narrow(
    kernels: &[u8],
    included: &[u8],
    lookaheads: &[u8],
    lines: usize,
    count: usize,
    codes: usize,
    narrow: &mut [u8],
)
    requires lines { Lines kernels.now lines count }
    requires codes_bound { (codes ≤ 64) × (lines * 64 ≤ length included.now) × (lines * 64 ≤ length lookaheads.now) × (length narrow.old ≡ 256) }
    ensures { Narrows (StateCovers kernels.now included.now lookaheads.now lines codes) narrow.old narrow.new }
{
    for l in 0..lines {
        if !covers(included, lookaheads, lines, l, codes) {
            narrow[kernel_lines::state_of(kernels, lines, count, l)] = 1;
        }
    }
}

// Asks code 0 of the line of the goal's entry.
pub fn ask_goal(
    kernels: &[u8],
    links: &[usize],
    entries: &[u8],
    lines: usize,
    count: usize,
    rules: usize,
    included: &mut [u8],
)
    requires lines { Lines kernels.now lines count }
    requires linked { Linked kernels.now links.now lines }
    requires rules_bound { (rules ≤ 127) × (2 ≤ length entries.now) × (lines * 64 ≤ length included.old) }
    ensures { Adds (GoalAsks kernels.now entries.now rules lines) included.old included.new }
{
    let mut row = [0u8; CODES];
    row[Symbol::END] = 1;
    inclusions::add_lines(
        kernels,
        links,
        &row,
        lines,
        count,
        1,
        entries[1] as usize,
        rules + 1,
        0,
        0,
        included,
    );
}
