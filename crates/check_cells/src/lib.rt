// Which cells of a state are not what its items ask.
// Inner: for the checker and `explain_states`.
#![tactic(auto)]

ghost use Rattle.std.specs.Prelude.{◌≡◌, List, ℕ, suc, ◌<◌, ◌≤◌, length, get_or};
ghost use Rattle.language.specs.Grammar.{Grammar};
ghost use Rattle.leftcorner.specs.Table.{Table};
ghost use Rattle.leftcorner.specs.Construction.{CellsMeet};
ghost use Rattle.fixpoint.specs.Flags.{Decides};
ghost use Rattle.fixpoint.specs.Misses.{Any, Misses};
ghost use Rattle.memory.specs.Held.{HoldsTable};
ghost use Rattle.analysis.specs.FirstBy.{FirstBy};
ghost use Rattle.moves.specs.Moves.{Cells};
ghost use Rattle.moves.specs.Flags.{HoldsMoves};
ghost use Rattle.cells.specs.Demands.{HoldsAsked};
ghost use Rattle.check_cells.specs.Contents.{demand_at, GotoMeets};

use cells::{SHIFT, VALUES};
use fixpoint::Found;
use symbol::{CODES, Symbol};

// What the cell of q for code c holds, as the number of what would be asked.
#[tactic(auto, unfolding(crate::specs::Contents::demand_at))]
pub fn demand_of(kinds: &[u8], values: &[u8], q: usize, c: usize) -> usize
    requires { (16384 ≤ length kinds.now) × (16384 ≤ length values.now) × (q < 256) × (c < 64) }
    ensures { result ≡ demand_at kinds.now values.now q c }
{
    match kinds[q * CODES + c] {
        0 => 0,
        1 => SHIFT,
        kind => kind as usize * VALUES + values[q * CODES + c] as usize,
    }
}

// The first code whose cell of q is not what is asked.
pub fn find_cell(asked: &[usize], kinds: &[u8], values: &[u8], codes: usize, q: usize) -> Found
    requires asked_len { (length asked.now ≡ 64) × (codes ≤ 64) }
    requires in_bounds { (16384 ≤ length kinds.now) × (16384 ≤ length values.now) × (q < 256) }
    ensures { Misses Any (λ c. get_or asked.now c 0 ≡ demand_at kinds.now values.now q c) 0 codes result }
{
    for c in 0..codes {
        if asked[c] != demand_of(kinds, values, q, c) {
            return Found::At(c);
        }
    }
    Found::Nothing
}

// Whether q has a next state for nonterminal 64 + b exactly where something moves.
fn goto_meets(moves: &[u8], gotos: &[u8], q: usize, b: usize) -> bool
    requires { (length moves.now ≡ 128) × (16384 ≤ length gotos.now) × (q < 256) × (b < 64) }
    ensures { Decides (GotoMeets moves.now gotos.now q b) result }
{
    (moves[Symbol::FIRST_NONTERMINAL + b] == 0) == (gotos[q * CODES + b] == 0)
}

// The first b where q has a next state for nonterminal 64 + b and nothing moves, or the other way round.
pub fn find_goto(moves: &[u8], gotos: &[u8], q: usize) -> Found
    requires { (length moves.now ≡ 128) × (16384 ≤ length gotos.now) × (q < 256) }
    ensures { Misses Any (GotoMeets moves.now gotos.now q) 0 64 result }
{
    for b in 0..CODES {
        if !goto_meets(moves, gotos, q, b) {
            return Found::At(b);
        }
    }
    Found::Nothing
}

// Whether the cells and next states of q are those that its items ask for.
pub fn cells_meet(
    asked: &[usize],
    moves: &[u8],
    kinds: &[u8],
    values: &[u8],
    gotos: &[u8],
    codes: usize,
    q: usize,
) -> bool
    requires cells { Cells kinds.now values.now gotos.now }
    requires asked_len { (length asked.now ≡ 64) × (length moves.now ≡ 128) × (codes ≤ 64) × (q < 256) }
    ensures { (g : Grammar) (t : Table) (items entries kernels lookaheads nul fst : List ℕ) (rules strings lines : ℕ) → HoldsTable g t items entries kernels lookaheads kinds.now values.now gotos.now rules strings lines → codes ≡ suc g.terminals → HoldsMoves g t q moves.now → HoldsAsked g t (FirstBy codes nul fst) q asked.now → Decides (CellsMeet g t (FirstBy codes nul fst) q) result }
{
    matches!(find_cell(asked, kinds, values, codes, q), Found::Nothing)
        && matches!(find_goto(moves, gotos, q), Found::Nothing)
}
