// The construction's table of a grammar book, in memory.
// Inner: for `builder` and `explain_grammar`.
#![tactic(auto)]

ghost use Rattle.std.specs.Prelude.{◌≡◌, List, ℕ, ◌≤◌, length};
ghost use Rattle.language.specs.Grammar.{Grammar};
ghost use Rattle.grammar.specs.Book.{accepted, grammar_of};
ghost use Rattle.build_memory.specs.Stages.{Entered, Stated, Numbered, Settled, SomeEntered, SomeStated, BuildRoom};
ghost use Rattle.build_memory.specs.Memory.{Lent, BuiltIs};

use build_kernels::Discovery;
use grammar::GrammarReply;
use grammar_header::Heading;
use memory::Totals;
use reply::Refusal;
use symbol::{CODES, SYMBOLS};
use table::Counts;

// What building comes to: a table, one whose lowest state with a conflict is told first, why the grammar book is refused, or that there would be
// more entries, states or kernel lines than a table may have.
#[derive(Clone, Copy)]
pub enum Built {
    Table(Counts),
    Conflict(usize, Counts),
    Refused(Refusal),
    TooLarge,
}

// Entry k's state is k.
fn number_entries(strings: usize, entries: &mut [u8])
    requires { (strings ≤ 127) × (length entries.old ≡ 256) }
    ensures { Numbered entries.new strings }
{
    for k in 0..strings + 1 {
        entries[k] = k as u8;
    }
}

// Finds the lookaheads of each kernel line, and adds announces and pops to the cells, which hold the moves. Answers the lowest state with a
// conflict, 0 where there is none.
fn complete_cells(
    items: &[u8],
    entries: &[u8],
    kernels: &[u8],
    gotos: &[u8],
    heading: Heading,
    strings: usize,
    all: usize,
    lines: usize,
    lookaheads: &mut [u8],
    kinds: &mut [u8],
    values: &mut [u8],
) -> usize
    requires some_stated { SomeStated items.now kernels.now kinds.old values.old gotos.now heading.terminals heading.goal heading.rules strings all lines }
    requires build_room { BuildRoom kernels.now kinds.old values.old gotos.now }
    requires numbered { Numbered entries.now strings }
    requires lookaheads_len { length lookaheads.old ≡ 65536 }
    ensures lookaheads_len_2 { (length lookaheads.new ≡ 65536) × BuildRoom kernels.now kinds.new values.new gotos.now }
    ensures settled { (g : Grammar) → Stated g items.now kernels.now kinds.old values.old gotos.now heading.terminals heading.goal heading.rules strings all lines
        → Settled g kernels.now lookaheads.new kinds.new values.new gotos.now result }
{
    let count = heading.rules + strings;
    let codes = heading.terminals + 1;
    let totals = Totals {
        items: count,
        rules: heading.rules,
        entries: strings,
        lines,
        codes,
        states: all,
    };
    let mut uses = [0u8; 2048];
    let mut nullable = [0u8; SYMBOLS];
    let mut first = [0u8; SYMBOLS * CODES];
    let mut starts = [0u8; 8192];
    let mut through = [0u8; 128];
    let mut links = [0usize; 1280];
    check_entries::entries_meet(items, heading.rules, strings, heading.goal, &mut uses);
    analysis::find_sets(
        items,
        heading.terminals,
        heading.rules,
        &mut nullable,
        &mut first,
    );
    closure::prepare_rules(
        items,
        &nullable,
        &first,
        count,
        heading.rules,
        codes,
        &mut starts,
        &mut through,
    );
    kernel_lines::link_lines(kernels, lines, count, &mut links);
    build_lookaheads::find_lookaheads(
        items, entries, kernels, &links, kinds, values, gotos, &uses, &nullable, &first, &starts,
        &through, totals, lookaheads,
    );
    build_cells::fill_cells(
        items, kernels, &links, lookaheads, &nullable, &first, &starts, &through, totals, kinds,
        values,
    )
}

// Goes on where the states are found.
fn build_stated(
    items: &[u8],
    kernels: &[u8],
    gotos: &[u8],
    heading: Heading,
    strings: usize,
    all: usize,
    lines: usize,
    entries: &mut [u8],
    lookaheads: &mut [u8],
    kinds: &mut [u8],
    values: &mut [u8],
) -> Built
    requires some_stated { SomeStated items.now kernels.now kinds.old values.old gotos.now heading.terminals heading.goal heading.rules strings all lines }
    requires build_room { BuildRoom kernels.now kinds.old values.old gotos.now }
    requires entries_len { (length entries.old ≡ 256) × (length lookaheads.old ≡ 65536) }
    ensures { (gs : List ℕ) (g : Grammar) → grammar_of gs ≡ accepted g → Stated g items.now kernels.now kinds.old values.old gotos.now heading.terminals heading.goal heading.rules strings all lines
        → BuiltIs gs result items.now entries.new kernels.now lookaheads.new kinds.new values.new gotos.now }
{
    number_entries(strings, entries);
    let conflict = complete_cells(
        items, entries, kernels, gotos, heading, strings, all, lines, lookaheads, kinds, values,
    );
    let counts = Counts {
        grammar: heading,
        states: all,
        entries: strings,
        kernels: lines,
    };
    if conflict != 0 {
        return Built::Conflict(conflict, counts);
    }
    Built::Table(counts)
}

// Goes on where the grammar and its entries are in memory.
fn build_entered(
    items: &[u8],
    heading: Heading,
    strings: usize,
    entries: &mut [u8],
    kernels: &mut [u8],
    lookaheads: &mut [u8],
    kinds: &mut [u8],
    values: &mut [u8],
    gotos: &mut [u8],
) -> Built
    requires some_entered { SomeEntered items.now heading.terminals heading.goal heading.rules strings }
    requires lent { Lent items.now entries.old kernels.old lookaheads.old kinds.old values.old gotos.old }
    ensures { (gs : List ℕ) (g : Grammar) → grammar_of gs ≡ accepted g → Entered g items.now heading.terminals heading.goal heading.rules strings
        → BuiltIs gs result items.now entries.new kernels.new lookaheads.new kinds.new values.new gotos.new }
{
    let mut starts = [0usize; 257];
    let found = build_kernels::find_states(
        items,
        heading.rules,
        strings,
        kernels,
        &mut starts,
        kinds,
        values,
        gotos,
    );
    let Discovery::States(all, lines) = found else {
        return Built::TooLarge;
    };
    build_stated(
        items, kernels, gotos, heading, strings, all, lines, entries, lookaheads, kinds, values,
    )
}

// Builds the table of a grammar book in the slices that are lent. A refusal leaves them free: locals of the callers, not read then.
pub fn build(
    grammar: &[u8],
    items: &mut [u8],
    entries: &mut [u8],
    kernels: &mut [u8],
    lookaheads: &mut [u8],
    kinds: &mut [u8],
    values: &mut [u8],
    gotos: &mut [u8],
) -> Built
    requires { Lent items.old entries.old kernels.old lookaheads.old kinds.old values.old gotos.old }
    ensures { BuiltIs grammar.now result items.new entries.new kernels.new lookaheads.new kinds.new values.new gotos.new }
{
    let answer = grammar::read_grammar(grammar, items);
    let heading = match answer {
        GrammarReply::Read(heading) => heading,
        GrammarReply::Refused(why) => {
            return Built::Refused(why);
        }
    };
    let strings = build_entries::list_entries(items, heading.rules, heading.goal);
    if 127 < strings {
        return Built::TooLarge;
    }
    build_entered(
        items, heading, strings, entries, kernels, lookaheads, kinds, values, gotos,
    )
}
