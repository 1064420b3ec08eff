// Kernel lines in memory, found by state, item and dot.
// Inner: for the checker and the builder.
#![tactic(auto)]

ghost use Rattle.std.specs.Prelude.{◌≡◌, ℕ, ◌+◌, ◌<◌, ◌≤◌, length, get_or};
ghost use Rattle.fixpoint.specs.Flags.{Decides};
ghost use Rattle.memory.specs.Memory.{state_at, item_at, dot_at};
ghost use Rattle.kernel_lines.specs.Lines.{Lines, LineAt, Finds, last_before, Linked};

use fixpoint::Found;

// The state of line l.
pub fn state_of(kernels: &[u8], lines: usize, items: usize, l: usize) -> usize
    requires lines { Lines kernels.now lines items }
    requires l_lt_lines { l < lines }
    ensures { (result ≡ state_at kernels.now l) × (result < 256) }
{
    kernels[l * 4] as usize
}

// The item of line l.
pub fn item_of(kernels: &[u8], lines: usize, items: usize, l: usize) -> usize
    requires lines { Lines kernels.now lines items }
    requires l_lt_lines { l < lines }
    ensures { (result ≡ item_at kernels.now l) × (result ≤ items) }
{
    kernels[l * 4 + 1] as usize
}

// The dot of line l.
pub fn dot_of(kernels: &[u8], lines: usize, items: usize, l: usize) -> usize
    requires lines { Lines kernels.now lines items }
    requires l_lt_lines { l < lines }
    ensures { (result ≡ dot_at kernels.now l) × (result ≤ 15) }
{
    kernels[l * 4 + 2] as usize
}

// Links the lines of each state.
pub fn link_lines(kernels: &[u8], lines: usize, items: usize, links: &mut [usize])
    requires lines { Lines kernels.now lines items }
    requires links_len { length links.old ≡ 1280 }
    ensures { Linked kernels.now links.new lines }
{
    // No state has a line yet.
    links[1024..].fill(0);
    for l in 0..lines {
        let q = state_of(kernels, lines, items, l);
        links[l] = links[1024 + q];
        links[1024 + q] = l + 1;
    }
}

// One more than the last line for state q; 0 where there is none.
#[tactic(auto, using(crate::proofs::LinkLaws::last_low))]
pub fn last_line(kernels: &[u8], links: &[usize], lines: usize, q: usize) -> usize
    requires linked { Linked kernels.now links.now lines }
    requires q_bound { q < 256 }
    ensures { (result ≡ last_before kernels.now q lines) × (result ≤ lines) }
{
    links[1024 + q]
}

// One more than the line before line l for the same state; 0 where there is none.
#[tactic(auto, using(crate::proofs::LinkLaws::last_low))]
pub fn line_before(kernels: &[u8], links: &[usize], lines: usize, l: usize) -> usize
    requires linked { Linked kernels.now links.now lines }
    requires l_lt_lines { (l < lines) × (lines ≤ 1023) }
    ensures { (result ≡ last_before kernels.now (state_at kernels.now l) l) × (result ≤ l) }
{
    links[l]
}

// Whether line l has item i and dot k.
pub fn is_of(kernels: &[u8], lines: usize, items: usize, l: usize, i: usize, k: usize) -> bool
    requires lines { Lines kernels.now lines items }
    requires l_lt_lines { l < lines }
    ensures { Decides ((item_at kernels.now l ≡ i) × (dot_at kernels.now l ≡ k)) result }
{
    item_of(kernels, lines, items, l) == i && dot_of(kernels, lines, items, l) == k
}

// The line for item i, dot k in state q.
pub fn find_line(
    kernels: &[u8],
    links: &[usize],
    lines: usize,
    items: usize,
    q: usize,
    i: usize,
    k: usize,
) -> Found
    requires lines { Lines kernels.now lines items }
    requires linked { Linked kernels.now links.now lines }
    requires q_bound { q < 256 }
    ensures { Finds kernels.now lines q i k result }
{
    let mut p = last_line(kernels, links, lines, q);
    // Stays a while: it follows the links of the state, and counts nothing.
    while 0 < p {
        let l = p - 1;
        if is_of(kernels, lines, items, l, i, k) {
            return Found::At(l);
        }
        p = line_before(kernels, links, lines, l);
    }
    Found::Nothing
}

// Whether there is such a line.
pub fn has_line(
    kernels: &[u8],
    links: &[usize],
    lines: usize,
    items: usize,
    q: usize,
    i: usize,
    k: usize,
) -> bool
    requires lines { Lines kernels.now lines items }
    requires linked { Linked kernels.now links.now lines }
    requires q_bound { q < 256 }
    ensures { Decides (LineAt kernels.now lines q i k) result }
{
    let found = find_line(kernels, links, lines, items, q, i, k);
    match found {
        Found::At(_) => true,
        Found::Nothing => false,
    }
}
