// What is asked of the cells of a state, a number for each code: the first action, and the first that differs from it.
// Inner: for `cells`.
#![tactic(auto)]

ghost use Rattle.std.specs.Prelude.{◌≡◌, ℕ, ◌+◌, ◌<◌, ◌≤◌, length};
ghost use Rattle.fixpoint.specs.Flags.{Off, Decides};
ghost use Rattle.cell_demands.specs.Demands.{Asks, Wants, CodeAsks};

// Asks for `demand` in the cell for code c. Where something else was asked first, `others` keeps the first that differs.
fn ask(asked: &mut [usize], others: &mut [usize], c: usize, demand: usize)
    requires { (length asked.old ≡ 64) × (length others.old ≡ 64) × (c < 64) × (1 ≤ demand) }
    ensures { Asks (Wants c demand) asked.old others.old asked.new others.new }
{
    let before = asked[c];
    if before == 0 {
        asked[c] = demand;
    } else if before != demand && others[c] == 0 {
        others[c] = demand;
    }
}

// Asks for it in the cell of each code that is flagged, from code `low` on.
pub fn ask_codes(
    from: &[u8],
    start: usize,
    low: usize,
    codes: usize,
    demand: usize,
    asked: &mut [usize],
    others: &mut [usize],
)
    requires start_in_bounds { (start + 64 ≤ length from.now) × (codes ≤ 64) × (1 ≤ demand) }
    requires asked_len { (length asked.old ≡ 64) × (length others.old ≡ 64) }
    ensures { Asks (CodeAsks from.now start low codes demand) asked.old others.old asked.new others.new }
{
    for c in low..codes {
        if from[start + c] != 0 {
            ask(asked, others, c, demand);
        }
    }
}

// Whether nothing else was asked of any cell.
pub fn agree(others: &[usize]) -> bool
    requires { length others.now ≡ 64 }
    ensures { Decides ((c : ℕ) → c < 64 → Off others.now c) result }
{
    others.iter().all(|other| *other == 0)
}
