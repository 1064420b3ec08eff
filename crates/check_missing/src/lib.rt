// Which lookahead a kernel line of a state lacks.
// Inner: for `explain_states`.
#![tactic(auto)]

ghost use Rattle.std.specs.Prelude.{◌≡◌, List, ℕ, ◌+◌, ◌*◌, ◌<◌, ◌≤◌, length};
ghost use Rattle.language.specs.Grammar.{Grammar};
ghost use Rattle.leftcorner.specs.Table.{Table};
ghost use Rattle.leftcorner.specs.Construction.{LookaheadsMeet};
ghost use Rattle.fixpoint.specs.Flags.{On};
ghost use Rattle.memory.specs.Held.{HoldsTable};
ghost use Rattle.kernel_lines.specs.Lines.{Lines, Linked};
ghost use Rattle.analysis.specs.FirstBy.{FirstBy};
ghost use Rattle.check_entries.specs.Uses.{HoldsUses};
ghost use Rattle.check_lookaheads.specs.Sources.{GoalMeets, LookaheadsFrom};
ghost use Rattle.fixpoint.specs.Misses.{Misses};
ghost use Rattle.check_memory.specs.Given.{TableRoom, Computed, Given};
ghost use Rattle.check_missing.specs.Missing.{MissingIn, MissingAt, MissingIs};

use fixpoint::Found;
use memory::Totals;
use symbol::CODES;

// A kernel line, a code that it lacks, and the state whose items ask it; 0 where it is asked of the goal's entry.
#[derive(Clone, Copy)]
pub enum MissingCode {
    Code(usize, usize, usize),
    Nothing,
}

// The first code that is asked of line l and not one of its lookaheads.
fn find_code(asked: &[u8], lookaheads: &[u8], lines: usize, l: usize, codes: usize) -> Found
    requires { (l < lines) × (lines ≤ 1023) × (codes ≤ 64) × (lines * 64 ≤ length asked.now) × (lines * 64 ≤ length lookaheads.now) }
    ensures { Misses (λ c. On asked.now (l * 64 + c)) (λ c. On lookaheads.now (l * 64 + c)) 0 codes result }
{
    for c in 0..codes {
        if asked[l * CODES + c] != 0 && lookaheads[l * CODES + c] == 0 {
            return Found::At(c);
        }
    }
    Found::Nothing
}

// The last line of q that lacks a code that is asked of it; `asked` has those of each line that `source` asks.
fn find_asked(
    kernels: &[u8],
    links: &[usize],
    lookaheads: &[u8],
    asked: &[u8],
    lines: usize,
    count: usize,
    codes: usize,
    q: usize,
    source: usize,
) -> MissingCode
    requires lines { Lines kernels.now lines count }
    requires linked { Linked kernels.now links.now lines }
    requires q_bound { (q < 256) × (codes ≤ 64) × (lines * 64 ≤ length asked.now) × (lines * 64 ≤ length lookaheads.now) }
    ensures { MissingIn kernels.now lookaheads.now asked.now lines codes q source result }
{
    let mut p = kernel_lines::last_line(kernels, links, lines, q);
    // Stays a `while`: each line's link names the next one, so there is no range or slice to go over.
    while 0 < p {
        let l = p - 1;
        if let Found::At(c) = find_code(asked, lookaheads, lines, l, codes) {
            return MissingCode::Code(l, c, source);
        }
        p = kernel_lines::line_before(kernels, links, lines, l);
    }
    MissingCode::Nothing
}

// A lookahead that q lacks and that the items of p ask.
fn find_from(
    items: &[u8],
    entries: &[u8],
    kernels: &[u8],
    links: &[usize],
    lookaheads: &[u8],
    kinds: &[u8],
    values: &[u8],
    gotos: &[u8],
    named: &[u8],
    uses: &[u8],
    nullable: &[u8],
    first: &[u8],
    starts: &[u8],
    through: &[u8],
    totals: Totals,
    p: usize,
    q: usize,
) -> MissingCode
    requires table_room { TableRoom items.now entries.now kernels.now lookaheads.now kinds.now values.now gotos.now named.now totals.items totals.rules totals.entries totals.lines }
    requires computed { Computed items.now kernels.now links.now uses.now nullable.now first.now starts.now through.now totals.rules totals.lines totals.codes }
    requires le_p { (1 ≤ p) × (p < 256) × (q < 256) }
    ensures missing_at { MissingAt kernels.now lookaheads.now totals.lines totals.codes q result }
    ensures missing_is { (g : Grammar) (t : Table) (states : ℕ) → Given g t items.now entries.now kernels.now lookaheads.now kinds.now values.now gotos.now named.now totals.rules totals.entries totals.lines states totals.codes
        → HoldsUses uses.now g t → MissingIs g t (FirstBy totals.codes nullable.now first.now) (LookaheadsFrom g t (FirstBy totals.codes nullable.now first.now) p q) q result }
{
    let mut present = [0u8; CODES];
    let mut follow = [0u8; 4096];
    let mut asked = [0u8; 65536];
    closure::close_state(
        items,
        kernels,
        links,
        lookaheads,
        nullable,
        first,
        starts,
        through,
        totals,
        p,
        &mut present,
        &mut follow,
    );
    inclusions::add_inclusions(
        items, entries, kernels, links, lookaheads, kinds, values, gotos, uses, nullable, first,
        &present, &follow, totals, p, &mut asked,
    );
    find_asked(
        kernels,
        links,
        lookaheads,
        &asked,
        totals.lines,
        totals.items,
        totals.codes,
        q,
        p,
    )
}

// Code 0, which the line of the goal's entry lacks where q is its state.
fn find_goal(
    entries: &[u8],
    kernels: &[u8],
    links: &[usize],
    lookaheads: &[u8],
    rules: usize,
    lines: usize,
    count: usize,
    q: usize,
) -> MissingCode
    requires lines { Lines kernels.now lines count }
    requires linked { Linked kernels.now links.now lines }
    requires q_bound { (q < 256) × (rules ≤ 127) × (lines * 64 ≤ length lookaheads.now) × (2 ≤ length entries.now) }
    ensures by_index { (codes : ℕ) → 1 ≤ codes → MissingAt kernels.now lookaheads.now lines codes q result }
    ensures missing_is { (g : Grammar) (t : Table) (items kinds values gotos nul fst : List ℕ) (strings codes : ℕ) → 1 ≤ strings → HoldsTable g t items entries.now kernels.now lookaheads.now kinds values gotos rules strings lines
        → MissingIs g t (FirstBy codes nul fst) (GoalMeets g t q) q result }
{
    let mut asked = [0u8; 65536];
    check_lookaheads::ask_goal(kernels, links, entries, lines, count, rules, &mut asked);
    find_asked(kernels, links, lookaheads, &asked, lines, count, 1, q, 0)
}

// A lookahead that a line of q lacks.
pub fn find_missing(
    items: &[u8],
    entries: &[u8],
    kernels: &[u8],
    links: &[usize],
    lookaheads: &[u8],
    kinds: &[u8],
    values: &[u8],
    gotos: &[u8],
    named: &[u8],
    uses: &[u8],
    nullable: &[u8],
    first: &[u8],
    starts: &[u8],
    through: &[u8],
    totals: Totals,
    q: usize,
) -> MissingCode
    requires table_room { TableRoom items.now entries.now kernels.now lookaheads.now kinds.now values.now gotos.now named.now totals.items totals.rules totals.entries totals.lines }
    requires computed { Computed items.now kernels.now links.now uses.now nullable.now first.now starts.now through.now totals.rules totals.lines totals.codes }
    requires le_codes { (1 ≤ totals.codes) × (totals.states ≤ 255) × (q < 256) }
    ensures missing_at { MissingAt kernels.now lookaheads.now totals.lines totals.codes q result }
    ensures missing_is { (g : Grammar) (t : Table) → Given g t items.now entries.now kernels.now lookaheads.now kinds.now values.now gotos.now named.now totals.rules totals.entries totals.lines totals.states totals.codes
        → HoldsUses uses.now g t → MissingIs g t (FirstBy totals.codes nullable.now first.now) (LookaheadsMeet g t (FirstBy totals.codes nullable.now first.now) q) q result }
{
    let goal = find_goal(
        entries,
        kernels,
        links,
        lookaheads,
        totals.rules,
        totals.lines,
        totals.items,
        q,
    );
    let MissingCode::Nothing = goal else {
        return goal;
    };
    for p in 1..totals.states + 1 {
        let missing = find_from(
            items, entries, kernels, links, lookaheads, kinds, values, gotos, named, uses,
            nullable, first, starts, through, totals, p, q,
        );
        let MissingCode::Nothing = missing else {
            return missing;
        };
    }
    MissingCode::Nothing
}
