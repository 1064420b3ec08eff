// The builder's lookaheads: the smallest that satisfy the inclusions, by passes over the states.
// Inner: for `build_memory`.
#![tactic(auto)]

ghost use Rattle.std.specs.Prelude.{◌≡◌, ◌+◌, ◌*◌, ◌<◌, ◌≤◌, length};
ghost use Rattle.language.specs.Grammar.{Grammar};
ghost use Rattle.build_states.specs.Lookaheads.{Lookahead};
ghost use Rattle.analysis.specs.FirstBy.{FirstBy};
ghost use Rattle.closure.specs.Prepared.{Prepared};
ghost use Rattle.kernel_lines.specs.Lines.{Lines};
ghost use Rattle.moves.specs.Moves.{Cells};
ghost use Rattle.inclusions.specs.Asks.{Sourced};
ghost use Rattle.build_lookaheads.specs.StatesHeld.{StatesHeld, HoldsLookaheads};
ghost use Rattle.build_lookaheads.specs.Passes.{StateAdds, StatesAdd, Merges, PassMade};

use memory::Totals;
use symbol::{CODES, Symbol};

// Flags what the items of p ask.
fn ask_state(
    items: &[u8],
    entries: &[u8],
    kernels: &[u8],
    links: &[usize],
    lookaheads: &[u8],
    kinds: &[u8],
    values: &[u8],
    gotos: &[u8],
    uses: &[u8],
    nullable: &[u8],
    first: &[u8],
    starts: &[u8],
    through: &[u8],
    totals: Totals,
    p: usize,
    asked: &mut [u8],
)
    requires sourced { Sourced items.now kernels.now links.now entries.now uses.now nullable.now first.now totals.items totals.rules totals.lines totals.codes }
    requires cells { Cells kinds.now values.now gotos.now }
    requires starts_len { (length starts.now ≡ 8192) × (length through.now ≡ 128) }
    requires prepared { Prepared items.now (totals.rules + 1) totals.codes nullable.now first.now starts.now through.now }
    requires p_bound { (p < 256) × (totals.lines * 64 ≤ length lookaheads.now) × (totals.lines * 64 ≤ length asked.old) }
    ensures { StateAdds items.now kernels.now lookaheads.now kinds.now values.now gotos.now entries.now uses.now nullable.now first.now totals.rules totals.lines totals.codes p asked.old asked.new }
{
    let mut present = [0u8; CODES];
    let mut follow = [0u8; CODES * CODES];
    closure::close_state(
        items,
        kernels,
        links,
        lookaheads,
        nullable,
        first,
        starts,
        through,
        totals,
        p,
        &mut present,
        &mut follow,
    );
    inclusions::add_inclusions(
        items, entries, kernels, links, lookaheads, kinds, values, gotos, uses, nullable, first,
        &present, &follow, totals, p, asked,
    );
}

// Flags what the items of the states ask that are flagged in `changed`.
fn ask_states(
    items: &[u8],
    entries: &[u8],
    kernels: &[u8],
    links: &[usize],
    lookaheads: &[u8],
    kinds: &[u8],
    values: &[u8],
    gotos: &[u8],
    uses: &[u8],
    nullable: &[u8],
    first: &[u8],
    starts: &[u8],
    through: &[u8],
    changed: &[u8],
    totals: Totals,
    asked: &mut [u8],
)
    requires sourced { Sourced items.now kernels.now links.now entries.now uses.now nullable.now first.now totals.items totals.rules totals.lines totals.codes }
    requires cells { Cells kinds.now values.now gotos.now }
    requires starts_len { (length starts.now ≡ 8192) × (length through.now ≡ 128) }
    requires prepared { Prepared items.now (totals.rules + 1) totals.codes nullable.now first.now starts.now through.now }
    requires states_bound { (totals.states ≤ 255) × (length changed.now ≡ 256) × (totals.lines * 64 ≤ length lookaheads.now) × (totals.lines * 64 ≤ length asked.old) }
    ensures { StatesAdd items.now kernels.now lookaheads.now kinds.now values.now gotos.now entries.now uses.now nullable.now first.now totals.rules totals.lines totals.codes changed.now totals.states (totals.states + 1) asked.old asked.new }
{
    for p in 1..totals.states + 1 {
        if changed[p] != 0 {
            ask_state(
                items, entries, kernels, links, lookaheads, kinds, values, gotos, uses, nullable,
                first, starts, through, totals, p, asked,
            );
        }
    }
}

// Sets the flags that are set in `from`, counts those that were not, and flags the states of their lines.
fn add_flags(
    kernels: &[u8],
    from: &[u8],
    lines: usize,
    count: usize,
    flags: &mut [u8],
    changed: &mut [u8],
) -> usize
    requires lines { Lines kernels.now lines count }
    requires lines_in_bounds { (lines * 64 ≤ length from.now) × (lines * 64 ≤ length flags.old) × (length changed.old ≡ 256) }
    ensures merges { Merges kernels.now from.now (lines * 64) flags.old flags.new changed.new result }
    ensures changed_len { length changed.new ≡ 256 }
{
    let mut added: usize = 0;
    for y in 0..lines * CODES {
        if from[y] != 0 && flags[y] == 0 {
            let s = kernel_lines::state_of(kernels, lines, count, y / CODES);
            flags[y] = 1;
            changed[s] = 1;
            added += 1;
        }
    }
    added
}

// One pass; the number of lookaheads that it adds.
fn make_pass(
    items: &[u8],
    entries: &[u8],
    kernels: &[u8],
    links: &[usize],
    kinds: &[u8],
    values: &[u8],
    gotos: &[u8],
    uses: &[u8],
    nullable: &[u8],
    first: &[u8],
    starts: &[u8],
    through: &[u8],
    totals: Totals,
    changed: &mut [u8],
    asked: &mut [u8],
    lookaheads: &mut [u8],
) -> usize
    requires sourced { Sourced items.now kernels.now links.now entries.now uses.now nullable.now first.now totals.items totals.rules totals.lines totals.codes }
    requires cells { Cells kinds.now values.now gotos.now }
    requires starts_len { (length starts.now ≡ 8192) × (length through.now ≡ 128) }
    requires prepared { Prepared items.now (totals.rules + 1) totals.codes nullable.now first.now starts.now through.now }
    requires states_bound { (totals.states ≤ 255) × (length changed.old ≡ 256) × (totals.lines * 64 ≤ length asked.old) × (totals.lines * 64 ≤ length lookaheads.old) }
    ensures { PassMade items.now kernels.now kinds.now values.now gotos.now entries.now uses.now nullable.now first.now totals.rules totals.lines totals.codes totals.states changed.old changed.new asked.old asked.new lookaheads.old lookaheads.new result }
{
    ask_states(
        items, entries, kernels, links, lookaheads, kinds, values, gotos, uses, nullable, first,
        starts, through, changed, totals, asked,
    );
    reply::clear(changed);
    add_flags(
        kernels,
        asked,
        totals.lines,
        totals.items,
        lookaheads,
        changed,
    )
}

// The lookaheads of each kernel line.
pub fn find_lookaheads(
    items: &[u8],
    entries: &[u8],
    kernels: &[u8],
    links: &[usize],
    kinds: &[u8],
    values: &[u8],
    gotos: &[u8],
    uses: &[u8],
    nullable: &[u8],
    first: &[u8],
    starts: &[u8],
    through: &[u8],
    totals: Totals,
    lookaheads: &mut [u8],
)
    requires sourced { Sourced items.now kernels.now links.now entries.now uses.now nullable.now first.now totals.items totals.rules totals.lines totals.codes }
    requires cells { Cells kinds.now values.now gotos.now }
    requires starts_len { (length starts.now ≡ 8192) × (length through.now ≡ 128) }
    requires prepared { Prepared items.now (totals.rules + 1) totals.codes nullable.now first.now starts.now through.now }
    requires states_bound { (totals.states ≤ 255) × (totals.lines * 64 ≤ length lookaheads.old) }
    ensures { (g : Grammar) → StatesHeld g items.now entries.now uses.now kernels.now kinds.now values.now gotos.now totals.rules totals.entries totals.lines totals.states totals.codes → HoldsLookaheads (Lookahead g (FirstBy totals.codes nullable.now first.now)) kernels.now lookaheads.new totals.lines }
{
    reply::clear(lookaheads);
    let mut row = [0u8; CODES];
    row[Symbol::END] = 1;
    inclusions::add_lines(
        kernels,
        links,
        &row,
        totals.lines,
        totals.items,
        1,
        1,
        totals.rules + 1,
        0,
        0,
        lookaheads,
    );
    let mut changed = [1u8; 256];
    let mut asked = [0u8; 65536];
    'passes: loop {
        let added = make_pass(
            items,
            entries,
            kernels,
            links,
            kinds,
            values,
            gotos,
            uses,
            nullable,
            first,
            starts,
            through,
            totals,
            &mut changed,
            &mut asked,
            lookaheads,
        );
        if added == 0 {
            break 'passes;
        }
    }
}
