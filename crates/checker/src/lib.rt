// The checker of tables, over both books.
// The door is `check_tables`; `load_tables` is inner, for `session`, and `check_books`, for the program that explains.
#![tactic(auto)]

ghost use Rattle.std.specs.Prelude.{◌≡◌};
ghost use Rattle.table.specs.Book.{tables_of};
ghost use Rattle.table.specs.Memory.{reply_of, slices, SlicesRoom, Holds};
ghost use Rattle.table.specs.declared.Counts.{Counts};
ghost use Rattle.checker.specs.Checked.{checked_of, verdict_of, reply_to};
ghost use Rattle.checker.specs.Loaded.{Loaded};

use memory::Totals;
use reply::Reply;
use table::TableReply;

// What reading both books comes to, and the reply to what was read.
#[derive(Clone, Copy)]
pub struct Checked {
    pub answer: TableReply,
    pub verdict: Reply,
}

// Reads both books into the slices, and checks the tables. These stay in the slices whatever the reply; a book that is refused leaves zeros.
pub fn check_books(
    grammar: &[u8],
    book: &[u8],
    items: &mut [u8],
    entry_states: &mut [u8],
    kernels: &mut [u8],
    lookaheads: &mut [u8],
    kinds: &mut [u8],
    values: &mut [u8],
    gotos: &mut [u8],
    named: &mut [u8],
) -> Checked
    requires { SlicesRoom (slices items.old entry_states.old kernels.old lookaheads.old kinds.old values.old gotos.old named.old) }
    ensures answer_value { result.answer ≡ reply_of (tables_of grammar.now book.now) }
    ensures holds { Holds (tables_of grammar.now book.now) (slices items.old entry_states.old kernels.old lookaheads.old kinds.old values.old gotos.old named.old) (slices items.new entry_states.new kernels.new lookaheads.new kinds.new values.new gotos.new named.new) }
    ensures verdict_value { result.verdict ≡ reply_to (tables_of grammar.now book.now) }
{
    let answer = table::read_tables(
        grammar,
        book,
        items,
        entry_states,
        kernels,
        lookaheads,
        kinds,
        values,
        gotos,
        named,
    );
    let TableReply::Read(counts) = answer else {
        return Checked {
            answer,
            verdict: table::as_reply(answer),
        };
    };
    let heading = counts.grammar;
    let count = heading.rules + counts.entries;
    let codes = heading.terminals + 1;
    let totals = Totals {
        items: count,
        rules: heading.rules,
        entries: counts.entries,
        lines: counts.kernels,
        codes,
        states: counts.states,
    };
    let verdict = check_memory::check_table(
        items,
        entry_states,
        kernels,
        lookaheads,
        kinds,
        values,
        gotos,
        named,
        totals,
        heading.goal,
    );
    Checked { answer, verdict }
}

// Reads and checks both books. Tables that are accepted are then in the slices; a refusal leaves zeros.
pub fn load_tables(
    grammar: &[u8],
    book: &[u8],
    items: &mut [u8],
    entry_states: &mut [u8],
    kernels: &mut [u8],
    lookaheads: &mut [u8],
    kinds: &mut [u8],
    values: &mut [u8],
    gotos: &mut [u8],
    named: &mut [u8],
) -> TableReply
    requires { SlicesRoom (slices items.old entry_states.old kernels.old lookaheads.old kinds.old values.old gotos.old named.old) }
    ensures value { result ≡ reply_of (checked_of grammar.now book.now) }
    ensures holds { Holds (checked_of grammar.now book.now) (slices items.old entry_states.old kernels.old lookaheads.old kinds.old values.old gotos.old named.old) (slices items.new entry_states.new kernels.new lookaheads.new kinds.new values.new gotos.new named.new) }
    ensures loaded { (c : Counts) → result ≡ TableReply.Read c → Loaded grammar.now book.now (slices items.new entry_states.new kernels.new lookaheads.new kinds.new values.new gotos.new named.new) c }
{
    let checked = check_books(
        grammar,
        book,
        items,
        entry_states,
        kernels,
        lookaheads,
        kinds,
        values,
        gotos,
        named,
    );
    if let Reply::Refused(why) = checked.verdict {
        table::clear_all(
            items,
            entry_states,
            kernels,
            lookaheads,
            kinds,
            values,
            gotos,
            named,
        );
        return TableReply::Refused(why);
    }
    checked.answer
}

// The verdict on both books.
pub fn check_tables(grammar: &[u8], book: &[u8]) -> Reply
    ensures { result ≡ verdict_of grammar.now book.now }
{
    let mut items = [0u8; table::ITEMS];
    let mut entry_states = [0u8; table::ENTRY_STATES];
    let mut kernels = [0u8; table::KERNELS];
    let mut lookaheads = [0u8; table::LOOKAHEADS];
    let mut kinds = [0u8; table::CELLS];
    let mut values = [0u8; table::CELLS];
    let mut gotos = [0u8; table::CELLS];
    let mut named = [0u8; table::NAMED];
    let answer = load_tables(
        grammar,
        book,
        &mut items,
        &mut entry_states,
        &mut kernels,
        &mut lookaheads,
        &mut kinds,
        &mut values,
        &mut gotos,
        &mut named,
    );
    table::as_reply(answer)
}
