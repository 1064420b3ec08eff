// Reads a table book, with the grammar book it belongs to, into memory.
// The door is `read_tables`; `clear_all` is inner.
#![tactic(auto)]

ghost use Rattle.std.specs.Prelude.{◌≡◌, false, ◌<◌, length, replicate};
ghost use Rattle.language.specs.Grammar.{Grammar};
ghost use Rattle.grammar.specs.Memory.{heading_of};
ghost use Rattle.table_blocks.specs.Memory.{HoldsHeading, GrammarOnly};
ghost use Rattle.table.specs.Book.{table_of, tables_of, read_of};
ghost use Rattle.table.specs.Memory.{as_reply, reply_of, slices, room_for, has_room, ZeroSlices, Holds, Fills};

use grammar::GrammarReply;
use grammar_header::Heading;
use reply::{Kind, Refusal, Reply, clear};
use table_blocks::Blocks;
use table_head::Head;

// The bytes that each slice must have at least.
pub const ITEMS: usize = 16640;

pub const ENTRY_STATES: usize = 256;

pub const KERNELS: usize = 4096;

pub const LOOKAHEADS: usize = 65536;

pub const CELLS: usize = 16640;

pub const NAMED: usize = 256;

// The figures of tables that are in memory: the grammar's, and the numbers of states, entries and kernel lines.
#[derive(Clone, Copy)]
pub struct Counts {
    pub grammar: Heading,
    pub states: usize,
    pub entries: usize,
    pub kernels: usize,
}

// What reading both books comes to.
#[derive(Clone, Copy)]
pub enum TableReply {
    Read(Counts),
    Refused(Refusal),
}

// A table book read into memory that holds the grammar's rules and nothing else.
fn read_book(
    s: &[u8],
    h: Heading,
    items: &mut [u8],
    entry_states: &mut [u8],
    kernels: &mut [u8],
    lookaheads: &mut [u8],
    kinds: &mut [u8],
    values: &mut [u8],
    gotos: &mut [u8],
    named: &mut [u8],
) -> TableReply
    requires s_len_bound { length s.now < 65537 }
    requires holds_heading { HoldsHeading h (slices items.old entry_states.old kernels.old lookaheads.old kinds.old values.old gotos.old named.old) }
    ensures { (g : Grammar) → GrammarOnly g (slices items.old entry_states.old kernels.old lookaheads.old kinds.old values.old gotos.old named.old) → h ≡ heading_of g
        → Fills (slices items.old entry_states.old kernels.old lookaheads.old kinds.old values.old gotos.old named.old) (slices items.new entry_states.new kernels.new lookaheads.new kinds.new values.new gotos.new named.new) (table_of g s.now) result }
{
    match table_head::read_head(s) {
        Head::Refused(why) => TableReply::Refused(why),
        Head::Read(states, entries, first) => match table_blocks::read_blocks(
            s,
            h,
            states,
            entries,
            first,
            items,
            entry_states,
            kernels,
            lookaheads,
            kinds,
            values,
            gotos,
            named,
        ) {
            Blocks::Refused(why) => TableReply::Refused(why),
            Blocks::Read(count, lines) => TableReply::Read(Counts {
                grammar: h,
                states,
                entries: count,
                kernels: lines,
            }),
        },
    }
}

// Zeros in each slice.
pub fn clear_all(
    items: &mut [u8],
    entry_states: &mut [u8],
    kernels: &mut [u8],
    lookaheads: &mut [u8],
    kinds: &mut [u8],
    values: &mut [u8],
    gotos: &mut [u8],
    named: &mut [u8],
)
    ensures after { items.new ≡ replicate (length items.old) 0 }
    ensures entry_states_after { entry_states.new ≡ replicate (length entry_states.old) 0 }
    ensures kernels_after { kernels.new ≡ replicate (length kernels.old) 0 }
    ensures lookaheads_after { lookaheads.new ≡ replicate (length lookaheads.old) 0 }
    ensures kinds_after { kinds.new ≡ replicate (length kinds.old) 0 }
    ensures values_after { values.new ≡ replicate (length values.old) 0 }
    ensures gotos_after { gotos.new ≡ replicate (length gotos.old) 0 }
    ensures named_after { named.new ≡ replicate (length named.old) 0 }
{
    clear(items);
    clear(entry_states);
    clear(kernels);
    clear(lookaheads);
    clear(kinds);
    clear(values);
    clear(gotos);
    clear(named);
}

// Both books read into slices of zeros that have room. What a refusal leaves is to be cleared.
fn read_cleared(
    grammar: &[u8],
    book: &[u8],
    items: &mut [u8],
    entry_states: &mut [u8],
    kernels: &mut [u8],
    lookaheads: &mut [u8],
    kinds: &mut [u8],
    values: &mut [u8],
    gotos: &mut [u8],
    named: &mut [u8],
) -> TableReply
    requires { ZeroSlices (slices items.old entry_states.old kernels.old lookaheads.old kinds.old values.old gotos.old named.old) }
    ensures { Fills (slices items.old entry_states.old kernels.old lookaheads.old kinds.old values.old gotos.old named.old) (slices items.new entry_states.new kernels.new lookaheads.new kinds.new values.new gotos.new named.new) (tables_of grammar.now book.now) result }
{
    if 65536 < book.len() {
        return TableReply::Refused(Refusal {
            kind: Kind::LimitExceeded,
            place: 0,
        });
    }
    match grammar::read_grammar(grammar, items) {
        GrammarReply::Refused(why) => TableReply::Refused(why),
        GrammarReply::Read(h) => read_book(
            book,
            h,
            items,
            entry_states,
            kernels,
            lookaheads,
            kinds,
            values,
            gotos,
            named,
        ),
    }
}

// What is answered where the slices are too short. Only items are looked at while lines are read; what has no room is not stored.
fn read_short(grammar: &[u8], book: &[u8]) -> TableReply
    ensures { result ≡ reply_of (read_of false (tables_of grammar.now book.now)) }
{
    let mut items = [0u8; ITEMS];
    let mut entry_states = [0u8; 1];
    let mut kernels = [0u8; 1];
    let mut lookaheads = [0u8; 1];
    let mut kinds = [0u8; 1];
    let mut values = [0u8; 1];
    let mut gotos = [0u8; 1];
    let mut named = [0u8; 1];
    let answer = read_cleared(
        grammar,
        book,
        &mut items,
        &mut entry_states,
        &mut kernels,
        &mut lookaheads,
        &mut kinds,
        &mut values,
        &mut gotos,
        &mut named,
    );
    let TableReply::Refused(why) = answer else {
        return TableReply::Refused(Refusal {
            kind: Kind::BufferTooSmall,
            place: 0,
        });
    };
    TableReply::Refused(why)
}

// Whether slices of these lengths have room.
#[tactic(auto, unfolding(crate::specs::Memory::room_for))]
fn has_room(
    items: usize,
    entry_states: usize,
    kernels: usize,
    lookaheads: usize,
    kinds: usize,
    values: usize,
    gotos: usize,
    named: usize,
) -> bool
    ensures { result ≡ room_for items entry_states kernels lookaheads kinds values gotos named }
{
    ITEMS <= items
        && ENTRY_STATES <= entry_states
        && KERNELS <= kernels
        && LOOKAHEADS <= lookaheads
        && CELLS <= kinds
        && CELLS <= values
        && CELLS <= gotos
        && NAMED <= named
}

// Reads a grammar book and a table book into memory. A refusal leaves zeros.
pub fn read_tables(
    grammar: &[u8],
    book: &[u8],
    items: &mut [u8],
    entry_states: &mut [u8],
    kernels: &mut [u8],
    lookaheads: &mut [u8],
    kinds: &mut [u8],
    values: &mut [u8],
    gotos: &mut [u8],
    named: &mut [u8],
) -> TableReply
    ensures value { result ≡ reply_of (read_of (has_room (slices items.old entry_states.old kernels.old lookaheads.old kinds.old values.old gotos.old named.old)) (tables_of grammar.now book.now)) }
    ensures holds { Holds (read_of (has_room (slices items.old entry_states.old kernels.old lookaheads.old kinds.old values.old gotos.old named.old)) (tables_of grammar.now book.now)) (slices items.old entry_states.old kernels.old lookaheads.old kinds.old values.old gotos.old named.old) (slices items.new entry_states.new kernels.new lookaheads.new kinds.new values.new gotos.new named.new) }
{
    let room = has_room(
        items.len(),
        entry_states.len(),
        kernels.len(),
        lookaheads.len(),
        kinds.len(),
        values.len(),
        gotos.len(),
        named.len(),
    );
    clear_all(
        items,
        entry_states,
        kernels,
        lookaheads,
        kinds,
        values,
        gotos,
        named,
    );
    if !room {
        return read_short(grammar, book);
    }
    let answer = read_cleared(
        grammar,
        book,
        items,
        entry_states,
        kernels,
        lookaheads,
        kinds,
        values,
        gotos,
        named,
    );
    if let TableReply::Refused(why) = answer {
        clear_all(
            items,
            entry_states,
            kernels,
            lookaheads,
            kinds,
            values,
            gotos,
            named,
        );
        return TableReply::Refused(why);
    }
    answer
}

// The answer as a reply, with its number and place.
pub fn as_reply(answer: TableReply) -> Reply
    ensures { result ≡ as_reply answer }
{
    match answer {
        TableReply::Read(_) => Reply::Accepted(0),
        TableReply::Refused(why) => Reply::Refused(why),
    }
}
