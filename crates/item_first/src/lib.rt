// The items of a state with their lookaheads, and what can begin behind their dots.
// Inner: for the checker and the builder.
#![tactic(auto)]

ghost use Rattle.std.specs.Prelude.{◌≡◌, ◌+◌, ◌≤◌, length};
ghost use Rattle.analysis.specs.Adds.{Adds};
ghost use Rattle.item_first.specs.Rows.{FirstsAt, FirstRoom};

// Sets the flags of first(β, σ): β stands behind item i's dot k, the flags of σ from `start` on.
pub fn item_first(
    items: &[u8],
    count: usize,
    i: usize,
    k: usize,
    codes: usize,
    nul: &[u8],
    fst: &[u8],
    from: &[u8],
    start: usize,
    row: &mut [u8],
)
    requires first_room { FirstRoom items.now nul.now fst.now count codes }
    requires i_le_count { (i ≤ count) × (start + 64 ≤ length from.now) × (length row.old ≡ 64) }
    ensures { Adds (FirstsAt items.now codes nul.now fst.now from.now start i k) row.old row.new }
{
    if analysis::any_code(from, start, codes)
        && analysis::rest_first(items, count, i, k, codes, nul, fst, row, 0)
    {
        analysis::add_codes(from, start, codes, row, 0);
    }
}
