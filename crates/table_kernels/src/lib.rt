// Kernel lines of table books, their figures and lookaheads in memory.
// Inner: for `table_blocks`.
#![tactic(auto)]

ghost use Rattle.std.specs.Prelude.{◌≡◌, List, [], ◌∷◌, ℕ, ◌+◌, ◌*◌, ◌≤◌, ◌<◌, length, get_or, take, drop, set};
ghost use Rattle.items.specs.Layout.{Shaped, length_at};
ghost use Rattle.leftcorner.specs.Table.{KernelLine};
ghost use Rattle.table_order.specs.Order.{kernel_key};
ghost use Rattle.table_order.specs.Last.{LastIs, HoldsLast};
ghost use Rattle.table_lines.specs.Block.{Summarizes, step_of, Comes, Reads};
ghost use Rattle.table_kernels.specs.Kernels.{judge_with, no_kernel, kernel_next, kernels_from};
ghost use Rattle.table_kernels.specs.Memory.{flagged, KernelImage, KernelMemory};

use range::in_range;
use reply::{Kind, Refusal};
use symbol::{CODES, Symbol};
use table_lines::{Block, Judgement, Line, Step, Tally};

fn judge_kernel(
    t: usize,
    states: usize,
    items: usize,
    lines: usize,
    p: Tally,
    numbers: &[usize],
    m: &[u8],
    last: &[usize],
) -> Judgement
    requires numbers_len { (length numbers.now ≡ 67) × (length last.now ≡ 3) }
    requires shaped { Shaped m.now items }
    ensures { (l : List KernelLine) (ns : List ℕ) → length l ≡ lines → LastIs kernel_key last.now l → Summarizes ns p numbers.now → result ≡ judge_with p.rising t states items (length_at m.now) l ns }
{
    if p.count < 4 {
        return Judgement::Faulty(Kind::Malformed);
    }
    if !p.rising {
        return Judgement::Faulty(Kind::Malformed);
    }
    if !table_order::is_after(lines, last, numbers) {
        return Judgement::Faulty(Kind::Malformed);
    }
    if 65535 < p.largest {
        return Judgement::Faulty(Kind::LimitExceeded);
    }
    if 1023 <= lines {
        return Judgement::Faulty(Kind::LimitExceeded);
    }
    if !in_range(1, numbers[0], states) {
        return Judgement::Faulty(Kind::Undeclared);
    }
    let item = numbers[1];
    if !in_range(1, item, items) {
        return Judgement::Faulty(Kind::Undeclared);
    }
    if items::length_of(m, items, item) < numbers[2] {
        return Judgement::Faulty(Kind::Undeclared);
    }
    // the codes rise, so that the last is the largest
    let last = Symbol { code: p.last };
    if !last.is_lookahead(t) {
        return Judgement::Faulty(Kind::Undeclared);
    }
    Judgement::Fine
}

// Stores the codes, which stand from the fourth number on.
fn store_codes(lookaheads: &mut [u8], base: usize, numbers: &[usize], count: usize)
    requires le_count { (3 ≤ count) × (count ≤ length numbers.now) × (base ≤ 65536) }
    requires by_index { (k : ℕ) → 3 ≤ k → k < count → get_or numbers.now k 0 < 64 }
    ensures { lookaheads.new ≡ flagged lookaheads.old base (drop 3 (take count numbers.now)) }
{
    for code in &numbers[3..count] {
        table_lines::put(lookaheads, base + *code, 1);
    }
}

// Stores the figures of a line.
fn store_figures(kernels: &mut [u8], line: usize, state: usize, item: usize, dot: usize)
    requires { (line < 1024) × (state < 256) × (item < 256) × (dot < 256) }
    ensures { kernels.new ≡ set (set (set kernels.old (line * 4) state) (line * 4 + 1) item) (line * 4 + 2) dot }
{
    table_lines::put(kernels, line * 4, state);
    table_lines::put(kernels, line * 4 + 1, item);
    table_lines::put(kernels, line * 4 + 2, dot);
}

// A line's triple is now the last.
fn keep_triple(last: &mut [usize], state: usize, item: usize, dot: usize)
    requires { length last.old ≡ 3 }
    ensures { last.new ≡ state ∷ item ∷ dot ∷ [] }
{
    last.copy_from_slice(&[state, item, dot]);
}

// What comes of a place without kernel line, after so many lines.
fn no_kernel(at: usize, lines: usize) -> Step
    ensures { (l : List KernelLine) → length l ≡ lines → result ≡ step_of (no_kernel at l) }
{
    if lines == 0 {
        return Step::Refused(Refusal {
            kind: Kind::Malformed,
            place: at,
        });
    }
    Step::Stopped
}

// The kernel line at `at`, after so many others.
fn read_kernel(
    s: &[u8],
    at: usize,
    t: usize,
    states: usize,
    items: usize,
    lines: usize,
    m: &[u8],
    kernels: &mut [u8],
    lookaheads: &mut [u8],
    last: &mut [usize],
) -> Step
    requires s_len_bound { (length s.now < 65537) × (t ≤ 63) × (states ≤ 255) × (items ≤ 255) × (length last.old ≡ 3) }
    requires shaped { Shaped m.now items }
    requires holds_last { HoldsLast kernel_key last.old lines }
    ensures { (a b : ℕ) (l : List KernelLine) → length l ≡ lines → KernelMemory a b l kernels.old lookaheads.old last.old
        → Comes l (λ k. KernelMemory a b k kernels.new lookaheads.new last.new) (kernel_next s.now t states items (length_at m.now) at l) result }
{
    let mut numbers = [0usize; 67];
    let Line::Whole(letter, p, next) = table_lines::read_line(s, at, &mut numbers) else {
        return no_kernel(at, lines);
    };
    if letter != b'K' {
        return no_kernel(at, lines);
    }
    let judgement = judge_kernel(t, states, items, lines, p, &numbers, m, last);
    if let Judgement::Faulty(kind) = judgement {
        return Step::Refused(Refusal { kind, place: at });
    }
    let state = numbers[0];
    let item = numbers[1];
    let dot = numbers[2];
    store_figures(kernels, lines, state, item, dot);
    store_codes(lookaheads, lines * CODES, &numbers, p.count);
    keep_triple(last, state, item, dot);
    Step::Taken(next)
}

// The kernel lines from `first` on, with a place for the last line's triple.
fn read_rising(
    s: &[u8],
    first: usize,
    t: usize,
    states: usize,
    items: usize,
    m: &[u8],
    kernels: &mut [u8],
    lookaheads: &mut [u8],
    last: &mut [usize],
) -> Block
    requires s_len_bound { (length s.now < 65537) × (t ≤ 63) × (states ≤ 255) × (items ≤ 255) × (length last.old ≡ 3) }
    requires shaped { Shaped m.now items }
    requires kernel_memory { KernelMemory (length kernels.old) (length lookaheads.old) [] kernels.old lookaheads.old last.old }
    ensures { Reads (λ l. KernelMemory (length kernels.old) (length lookaheads.old) l kernels.new lookaheads.new last.new) (kernels_from s.now t states items (length_at m.now) first) result }
{
    let mut at = first;
    for k in 0..1024 {
        match read_kernel(s, at, t, states, items, k, m, kernels, lookaheads, last) {
            Step::Taken(next) => at = next,
            Step::Stopped => return Block::Read(k, at),
            Step::Refused(why) => return Block::Refused(why),
        }
    }
    Block::Read(1024, at)
}

// The kernel lines from `first` on. A line is compared with the one before it, whose triple is kept apart, since what is lent may be
// too short to hold it. A refusal leaves the slices free; `table::read_tables` then clears them.
pub fn read_kernels(
    s: &[u8],
    first: usize,
    t: usize,
    states: usize,
    items: usize,
    m: &[u8],
    kernels: &mut [u8],
    lookaheads: &mut [u8],
) -> Block
    requires s_len_bound { (length s.now < 65537) × (t ≤ 63) × (states ≤ 255) × (items ≤ 255) }
    requires shaped { Shaped m.now items }
    requires kernel_image { KernelImage (length kernels.old) (length lookaheads.old) [] kernels.old lookaheads.old }
    ensures { Reads (λ l. KernelImage (length kernels.old) (length lookaheads.old) l kernels.new lookaheads.new) (kernels_from s.now t states items (length_at m.now) first) result }
{
    let mut last = [0usize; 3];
    read_rising(
        s, first, t, states, items, m, kernels, lookaheads, &mut last,
    )
}
