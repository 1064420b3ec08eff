// The cells of the builder's table: announces and pops join the moves, unless items ask two different actions of one cell.
// Inner: for `build_memory`.
#![tactic(auto)]

ghost use Rattle.std.specs.Prelude.{◌≡◌, true, List, ℕ, suc, ◌+◌, ◌*◌, ◌<◌, ◌≤◌, length, replicate};
ghost use Rattle.language.specs.Grammar.{Grammar};
ghost use Rattle.leftcorner.specs.Table.{Table};
ghost use Rattle.leftcorner.specs.Construction.{CellsAgree};
ghost use Rattle.fixpoint.specs.Flags.{Decides};
ghost use Rattle.memory.specs.Held.{HoldsTable};
ghost use Rattle.analysis.specs.FirstBy.{FirstBy};
ghost use Rattle.cells.specs.Demands.{HoldsAsked};
ghost use Rattle.build_cells.specs.Fill.{FillsCell, FillsState};
ghost use Rattle.build_cells.specs.Cells.{Agree, HoldsMoves, HoldsLines, StateFilled, Filled, StateRoom};

use cells::{ANNOUNCE, POP, VALUES};
use memory::Totals;
use symbol::{CODES, SYMBOLS};

// Fills cell x with what is asked of it, a move apart.
fn fill_cell(kinds: &mut [u8], values: &mut [u8], x: usize, demand: usize)
    requires { (x < length kinds.old) × (x < length values.old) }
    ensures { FillsCell demand x kinds.old values.old kinds.new values.new }
{
    if ANNOUNCE <= demand && demand < POP + VALUES {
        kinds[x] = (demand / VALUES) as u8;
        values[x] = (demand % VALUES) as u8;
    }
}

// Fills the cells of q.
fn fill_state(asked: &[usize], q: usize, kinds: &mut [u8], values: &mut [u8])
    requires { (length asked.now ≡ 64) × (q < 256) × (16384 ≤ length kinds.old) × (16384 ≤ length values.old) }
    ensures { FillsState asked.now q 64 kinds.old values.old kinds.new values.new }
{
    for (c, &demand) in asked.iter().enumerate() {
        fill_cell(kinds, values, q * CODES + c, demand);
    }
}

// Finds what the items of q ask of each code's cell. The answer is no where they ask two different things of one.
fn ask_state(
    items: &[u8],
    kernels: &[u8],
    links: &[usize],
    lookaheads: &[u8],
    nullable: &[u8],
    first: &[u8],
    starts: &[u8],
    through: &[u8],
    totals: Totals,
    q: usize,
    asked: &mut [usize],
) -> bool
    requires state_room { StateRoom items.now kernels.now links.now lookaheads.now nullable.now first.now starts.now through.now totals.items totals.rules totals.entries totals.lines totals.codes }
    requires q_bound { (q < 256) × (asked.old ≡ replicate 64 0) }
    ensures asked_len { length asked.new ≡ 64 }
    ensures decides { (g : Grammar) (t : Table) (entries kinds values gotos : List ℕ) → HoldsTable g t items.now entries kernels.now lookaheads.now kinds values gotos totals.rules totals.entries totals.lines → totals.codes ≡ suc g.terminals
        → Decides (CellsAgree g t (FirstBy totals.codes nullable.now first.now) q) result × (result ≡ true → HoldsAsked g t (FirstBy totals.codes nullable.now first.now) q asked.new) }
{
    let mut present = [0u8; CODES];
    let mut follow = [0u8; CODES * CODES];
    let mut symbols = [0u8; SYMBOLS];
    let mut others = [0usize; CODES];
    closure::close_state(
        items,
        kernels,
        links,
        lookaheads,
        nullable,
        first,
        starts,
        through,
        totals,
        q,
        &mut present,
        &mut follow,
    );
    moves::flag_moves(
        items,
        kernels,
        links,
        &present,
        totals.items,
        totals.rules,
        totals.lines,
        q,
        &mut symbols,
    );
    cells::ask_cells(
        items,
        kernels,
        links,
        lookaheads,
        nullable,
        first,
        &present,
        &follow,
        &symbols,
        totals,
        q,
        asked,
        &mut others,
    )
}

// Fills the cells of q with what its items ask; the answer is no where they ask two different things of one cell.
fn complete_state(
    items: &[u8],
    kernels: &[u8],
    links: &[usize],
    lookaheads: &[u8],
    nullable: &[u8],
    first: &[u8],
    starts: &[u8],
    through: &[u8],
    totals: Totals,
    q: usize,
    kinds: &mut [u8],
    values: &mut [u8],
) -> bool
    requires state_room { StateRoom items.now kernels.now links.now lookaheads.now nullable.now first.now starts.now through.now totals.items totals.rules totals.entries totals.lines totals.codes }
    requires q_bound { (q < 256) × (16384 ≤ length kinds.old) × (16384 ≤ length values.old) }
    ensures kinds_len_unchanged { (length kinds.new ≡ length kinds.old) × (length values.new ≡ length values.old) }
    ensures decides { (g : Grammar) (entries : List ℕ) (all : ℕ) → HoldsLines g items.now entries kernels.now lookaheads.now nullable.now first.now totals.rules totals.entries totals.lines all totals.codes
        → Decides (Agree g q) result × (result ≡ true → StateFilled g q kinds.old values.old kinds.new values.new) }
{
    let mut asked = [0usize; CODES];
    let agree = ask_state(
        items, kernels, links, lookaheads, nullable, first, starts, through, totals, q, &mut asked,
    );
    if agree {
        fill_state(&asked, q, kinds, values);
    }
    agree
}

// Adds announces and pops to the cells of all states, which hold the moves. Answers the lowest state whose items ask two different actions
// of one cell, 0 where there is none.
pub fn fill_cells(
    items: &[u8],
    kernels: &[u8],
    links: &[usize],
    lookaheads: &[u8],
    nullable: &[u8],
    first: &[u8],
    starts: &[u8],
    through: &[u8],
    totals: Totals,
    kinds: &mut [u8],
    values: &mut [u8],
) -> usize
    requires state_room { StateRoom items.now kernels.now links.now lookaheads.now nullable.now first.now starts.now through.now totals.items totals.rules totals.entries totals.lines totals.codes }
    requires states_bound { (totals.states ≤ 255) × (16384 ≤ length kinds.old) × (16384 ≤ length values.old) }
    ensures kinds_len_unchanged { (length kinds.new ≡ length kinds.old) × (length values.new ≡ length values.old) }
    ensures filled { (g : Grammar) (entries gotos : List ℕ) → HoldsLines g items.now entries kernels.now lookaheads.now nullable.now first.now totals.rules totals.entries totals.lines totals.states totals.codes → HoldsMoves g kinds.old values.old gotos
        → Filled g kinds.new values.new gotos result }
{
    for q in 1..totals.states + 1 {
        if !complete_state(
            items, kernels, links, lookaheads, nullable, first, starts, through, totals, q, kinds,
            values,
        ) {
            return q;
        }
    }
    0
}
