// Writes a table that stands in memory as a table book.
// Inner: for `builder`.
#![tactic(auto)]

ghost use Rattle.std.specs.Prelude.{◌≡◌, [], ◌∷◌, map, ◌+◌, ◌*◌, ◌<◌, ◌≤◌, min, length, replicate};
ghost use Rattle.items.specs.Layout.{Shaped};
ghost use Rattle.memory.specs.Memory.{state_at, item_at, dot_at};
ghost use Rattle.build_states.specs.States.{range};
ghost use Rattle.build_book.specs.Built.{line_if, actions_of};
ghost use Rattle.text.specs.Digits.{lead};
ghost use Rattle.build_book.specs.Text.{fields, line, entry_text, kernel_text, action_text};
ghost use Rattle.build_writer.specs.MemoryTable.{symbols_in, entry_in, set_in, codes_in, kernel_in, cell_in, goto_in, action_in, lines_in, memory_text, WriterRoom};
ghost use Rattle.build_writer.specs.Sink.{Wrote, in_room};

use symbol::{CODES, Symbol};
use table::Counts;

// Stores a byte, where there is room for it.
fn put(out: &mut [u8], at: usize, byte: u8) -> usize
    ensures { Wrote out.old at (byte ∷ []) out.new result }
{
    if at >= 65537 {
        return 65537;
    }
    if at < out.len() {
        out[at] = byte;
    }
    at + 1
}

// The digit of v that p stands for, where v has it.
fn put_lead(out: &mut [u8], at: usize, v: usize, p: usize) -> usize
    requires { (at ≤ 65537) × (0 < p) }
    ensures { Wrote out.old at (lead p v) out.new result }
{
    if v < p {
        return at;
    }
    put(out, at, 48 + (v / p % 10) as u8)
}

// A comma and a number.
fn put_field(out: &mut [u8], at: usize, v: usize) -> usize
    requires { v < 1000 }
    ensures { Wrote out.old at (fields (v ∷ [])) out.new result }
{
    let hundreds = put(out, at, b',');
    let tens = put_lead(out, hundreds, v, 100);
    let ones = put_lead(out, tens, v, 10);
    put(out, ones, 48 + (v % 10) as u8)
}

// The symbols of item i.
fn put_symbols(items: &[u8], count: usize, i: usize, out: &mut [u8], at: usize) -> usize
    requires shaped { Shaped items.now count }
    requires i_le_count { (i ≤ count) × (at ≤ 65537) }
    ensures { Wrote out.old at (fields (symbols_in items.now i)) out.new result }
{
    let mut to = at;
    for k in 0..items::length_of(items, count, i) {
        to = put_field(out, to, items::symbol_of(items, count, i, k));
    }
    to
}

// The line of an entry, whose string is item i.
fn put_entry(items: &[u8], count: usize, i: usize, state: usize, out: &mut [u8], at: usize) -> usize
    requires shaped { Shaped items.now count }
    requires i_le_count { (i ≤ count) × (state < 1000) }
    ensures { Wrote out.old at (line 69 (state ∷ symbols_in items.now i)) out.new result }
{
    let first = put(out, at, b'E');
    let second = put_field(out, first, state);
    let end = put_symbols(items, count, i, out, second);
    put(out, end, b'\n')
}

// The lines of the entries.
fn put_entries(
    items: &[u8],
    entries: &[u8],
    rules: usize,
    strings: usize,
    out: &mut [u8],
    at: usize,
) -> usize
    requires shaped { Shaped items.now (rules + strings) }
    requires strings_in_bounds { (strings < length entries.now) × (at ≤ 65537) }
    ensures { Wrote out.old at (entry_text (map (entry_in items.now entries.now rules) (range 1 strings))) out.new result }
{
    let mut to = at;
    for k in 1..strings + 1 {
        let state = entries[k] as usize;
        to = put_entry(items, rules + strings, rules + k, state, out, to);
    }
    to
}

// Code d of kernel line l, where its flag is set.
fn put_code(lookaheads: &[u8], l: usize, d: usize, out: &mut [u8], at: usize) -> usize
    requires { (l * 64 + 64 ≤ length lookaheads.now) × (d < 64) × (at ≤ 65537) }
    ensures { Wrote out.old at (fields (set_in lookaheads.now l (d ∷ []))) out.new result }
{
    if lookaheads[l * CODES + d] == 0 {
        return at;
    }
    put_field(out, at, d)
}

// The codes of kernel line l.
fn put_codes(lookaheads: &[u8], l: usize, codes: usize, out: &mut [u8], at: usize) -> usize
    requires { (l * 64 + 64 ≤ length lookaheads.now) × (codes ≤ 64) × (at ≤ 65537) }
    ensures { Wrote out.old at (fields (codes_in lookaheads.now l codes)) out.new result }
{
    let mut to = at;
    for d in 0..codes {
        to = put_code(lookaheads, l, d, out, to);
    }
    to
}

// Kernel line l.
fn put_kernel(
    kernels: &[u8],
    lookaheads: &[u8],
    codes: usize,
    l: usize,
    out: &mut [u8],
    at: usize,
) -> usize
    requires { (l * 4 + 4 ≤ length kernels.now) × (l * 64 + 64 ≤ length lookaheads.now) × (codes ≤ 64) }
    ensures { Wrote out.old at (line 75 (state_at kernels.now l ∷ item_at kernels.now l ∷ dot_at kernels.now l ∷ codes_in lookaheads.now l codes)) out.new result }
{
    let first = put(out, at, b'K');
    let second = put_field(out, first, kernels[l * 4] as usize);
    let third = put_field(out, second, kernels[l * 4 + 1] as usize);
    let fourth = put_field(out, third, kernels[l * 4 + 2] as usize);
    let end = put_codes(lookaheads, l, codes, out, fourth);
    put(out, end, b'\n')
}

// The kernel lines.
fn put_kernels(
    kernels: &[u8],
    lookaheads: &[u8],
    lines: usize,
    codes: usize,
    out: &mut [u8],
    at: usize,
) -> usize
    requires { (lines * 4 ≤ length kernels.now) × (lines * 64 ≤ length lookaheads.now) × (codes ≤ 64) × (at ≤ 65537) }
    ensures { Wrote out.old at (kernel_text (map (kernel_in kernels.now lookaheads.now codes) (range 0 lines))) out.new result }
{
    let mut to = at;
    for l in 0..lines {
        to = put_kernel(kernels, lookaheads, codes, l, out, to);
    }
    to
}

// A line of three figures.
fn put_line(out: &mut [u8], at: usize, letter: u8, a: usize, b: usize, c: usize) -> usize
    requires { (a < 1000) × (b < 1000) × (c < 1000) }
    ensures { Wrote out.old at (line letter (a ∷ b ∷ c ∷ [])) out.new result }
{
    let first = put(out, at, letter);
    let second = put_field(out, first, a);
    let third = put_field(out, second, b);
    let end = put_field(out, third, c);
    put(out, end, b'\n')
}

// The line of a cell on code x, where it holds an action.
fn put_cell(kind: u8, value: usize, q: usize, x: usize, out: &mut [u8], at: usize) -> usize
    requires { (value < 256) × (q < 256) × (x < 256) × (at ≤ 65537) }
    ensures { Wrote out.old at (action_text (line_if q x (cell_in kind value) [])) out.new result }
{
    match kind {
        1 => put_line(out, at, b'S', q, x, value),
        2 => put_line(out, at, b'A', q, x, value),
        3 => put_line(out, at, b'P', q, x, value + 1),
        _ => at,
    }
}

// The line of a move on nonterminal x, where there is one.
fn put_goto(next: usize, q: usize, x: usize, out: &mut [u8], at: usize) -> usize
    requires { (next < 256) × (q < 256) × (x < 256) × (at ≤ 65537) }
    ensures { Wrote out.old at (action_text (line_if q x (goto_in next) [])) out.new result }
{
    if next == 0 {
        return at;
    }
    put_line(out, at, b'N', q, x, next)
}

// The action line of state q on symbol x, where there is one.
fn put_action(
    kinds: &[u8],
    values: &[u8],
    gotos: &[u8],
    q: usize,
    symbol: u8,
    out: &mut [u8],
    at: usize,
) -> usize
    requires { (16640 ≤ length kinds.now) × (16640 ≤ length values.now) × (16640 ≤ length gotos.now) × (q < 256) × (at ≤ 65537) }
    ensures { Wrote out.old at (action_text (line_if q symbol (action_in kinds.now values.now gotos.now q symbol) [])) out.new result }
{
    let x = symbol as usize;
    if x < Symbol::FIRST_NONTERMINAL {
        let cell = q * CODES + x;
        put_cell(kinds[cell], values[cell] as usize, q, x, out, at)
    } else {
        let cell = q * CODES + (x - Symbol::FIRST_NONTERMINAL);
        put_goto(gotos[cell] as usize, q, x, out, at)
    }
}

// The action lines of state q.
fn put_state(
    kinds: &[u8],
    values: &[u8],
    gotos: &[u8],
    q: usize,
    out: &mut [u8],
    at: usize,
) -> usize
    requires { (16640 ≤ length kinds.now) × (16640 ≤ length values.now) × (16640 ≤ length gotos.now) × (q < 256) × (at ≤ 65537) }
    ensures { Wrote out.old at (action_text (lines_in kinds.now values.now gotos.now q)) out.new result }
{
    let mut to = at;
    for x in 0..128 {
        to = put_action(kinds, values, gotos, q, x, out, to);
    }
    to
}

// The action lines.
fn put_actions(
    kinds: &[u8],
    values: &[u8],
    gotos: &[u8],
    states: usize,
    out: &mut [u8],
    at: usize,
) -> usize
    requires { (16640 ≤ length kinds.now) × (16640 ≤ length values.now) × (16640 ≤ length gotos.now) × (states ≤ 255) × (at ≤ 65537) }
    ensures { Wrote out.old at (action_text (actions_of (action_in kinds.now values.now gotos.now) (range 1 states))) out.new result }
{
    let mut to = at;
    for q in 1..states + 1 {
        to = put_state(kinds, values, gotos, q, out, to);
    }
    to
}

// The first line.
fn put_header(out: &mut [u8], states: usize, strings: usize) -> usize
    requires { (states < 1000) × (strings < 1000) }
    ensures { Wrote out.old 0 (line 84 (states ∷ strings ∷ [])) out.new result }
{
    let first = put(out, 0, b'T');
    let second = put_field(out, first, states);
    let end = put_field(out, second, strings);
    put(out, end, b'\n')
}

// Writes the table's book, as far as there is room, into a slice of zeros; its length, or 65,537 where it is longer than a book may be.
pub fn write_table(
    items: &[u8],
    entries: &[u8],
    kernels: &[u8],
    lookaheads: &[u8],
    kinds: &[u8],
    values: &[u8],
    gotos: &[u8],
    counts: Counts,
    out: &mut [u8],
) -> usize
    requires writer_room { WriterRoom items.now entries.now kernels.now lookaheads.now kinds.now values.now gotos.now counts.grammar.rules counts.entries counts.kernels counts.states (counts.grammar.terminals + 1) }
    requires out_value { out.old ≡ replicate (length out.old) 0 }
    ensures value { result ≡ min (length (memory_text items.now entries.now kernels.now lookaheads.now kinds.now values.now gotos.now counts.grammar.rules counts.entries counts.kernels counts.states (counts.grammar.terminals + 1))) 65537 }
    ensures out_after { out.new ≡ in_room (length out.old) (memory_text items.now entries.now kernels.now lookaheads.now kinds.now values.now gotos.now counts.grammar.rules counts.entries counts.kernels counts.states (counts.grammar.terminals + 1)) }
{
    let rules = counts.grammar.rules;
    let codes = counts.grammar.terminals + 1;
    let first = put_header(out, counts.states, counts.entries);
    let second = put_entries(items, entries, rules, counts.entries, out, first);
    let third = put_kernels(kernels, lookaheads, counts.kernels, codes, out, second);
    put_actions(kinds, values, gotos, counts.states, out, third)
}
