// The blocks of a table book, entry lines, kernel lines and action lines, read into memory.
// Inner: for `table`.
#![tactic(auto)]

ghost use Rattle.std.specs.Prelude.{◌≡◌, ◌≤◌, ◌<◌, length};
ghost use Rattle.language.specs.Grammar.{Grammar};
ghost use Rattle.grammar.specs.Memory.{heading_of};
ghost use Rattle.table_blocks.specs.Blocks.{entries_of};
ghost use Rattle.table_blocks.specs.Memory.{slices, HoldsHeading, GrammarOnly, ReadsBlocks};

use grammar_header::Heading;
use reply::Refusal;
use table_lines::Block;

// The blocks that were read: the numbers of entries and of kernel lines.
#[derive(Clone, Copy)]
pub enum Blocks {
    Read(usize, usize),
    Refused(Refusal),
}

// The blocks after the first line, read into memory that holds the grammar's rules and nothing else. A refusal leaves the slices free;
// `table::read_tables` then clears them.
pub fn read_blocks(
    s: &[u8],
    h: Heading,
    states: usize,
    entries: usize,
    first: usize,
    items: &mut [u8],
    entry_states: &mut [u8],
    kernels: &mut [u8],
    lookaheads: &mut [u8],
    kinds: &mut [u8],
    values: &mut [u8],
    gotos: &mut [u8],
    named: &mut [u8],
) -> Blocks
    requires s_len_bound { (length s.now < 65537) × (states ≤ 255) × (entries ≤ 127) }
    requires holds_heading { HoldsHeading h (slices items.old entry_states.old kernels.old lookaheads.old kinds.old values.old gotos.old named.old) }
    ensures { (g : Grammar) → GrammarOnly g (slices items.old entry_states.old kernels.old lookaheads.old kinds.old values.old gotos.old named.old) → h ≡ heading_of g
        → ReadsBlocks g states (slices items.old entry_states.old kernels.old lookaheads.old kinds.old values.old gotos.old named.old) (slices items.new entry_states.new kernels.new lookaheads.new kinds.new values.new gotos.new named.new) (entries_of g s.now states entries first) result }
{
    let t = h.terminals;
    let n = h.nonterminals;
    let rules = h.rules;
    match table_entries::read_entries(
        s,
        first,
        t,
        n,
        states,
        rules,
        entries,
        items,
        entry_states,
        named,
    ) {
        Block::Refused(why) => Blocks::Refused(why),
        Block::Read(count, at) => match table_kernels::read_kernels(
            s,
            at,
            t,
            states,
            rules + count,
            items,
            kernels,
            lookaheads,
        ) {
            Block::Refused(why) => Blocks::Refused(why),
            Block::Read(lines, at) => match table_actions::read_actions(
                s, at, t, n, rules, states, kinds, values, gotos, named,
            ) {
                Block::Refused(why) => Blocks::Refused(why),
                Block::Read(_, _) => Blocks::Read(count, lines),
            },
        },
    }
}
