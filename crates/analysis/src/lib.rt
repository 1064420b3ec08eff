// Nullable symbols and first sets of a grammar in memory, and first of the rest of an item.
// Inner: for the checker and the builder.
#![tactic(auto)]

ghost use Rattle.std.specs.Prelude.{◌≡◌, ◌+◌, ◌<◌, ◌≤◌, length, replicate};
ghost use Rattle.language.specs.Grammar.{Grammar};
ghost use Rattle.items.specs.Layout.{Shaped, Holds};
ghost use Rattle.fixpoint.specs.Flags.{On, Marks, Decides};
ghost use Rattle.fixpoint.specs.Pass.{Pass};
ghost use Rattle.fixpoint.specs.Rows.{Row};
ghost use Rattle.analysis.specs.Rests.{rest_at};
ghost use Rattle.analysis.specs.Adds.{Adds, InRow, AnyIn, RestFirst};
ghost use Rattle.analysis.specs.InMemory.{Has, FirstFrom, Copied, Includes, RuleMet, Diagonal, SetsOf};

use symbol::CODES;

// Sets in row `to` what is set in row `from`; answers how many flags that were.
fn merge_row(flags: &mut [u8], from: usize, to: usize) -> usize
    requires flags_len { length flags.old ≡ 8192 }
    requires from_bound { (from < 128) × (to < 128) }
    ensures { Pass 8192 (Copied flags.old from to) flags.old flags.new 0 result (Includes from to) }
{
    let mut added: usize = 0;
    for c in 0..CODES {
        if flags[from * CODES + c] != 0 && flags[to * CODES + c] == 0 {
            flags[to * CODES + c] = 1;
            added += 1;
        }
    }
    added
}

// Puts into the left side's row of rule i what can begin its right side; answers how many flags that set.
fn merge_symbols(m: &[u8], rules: usize, i: usize, nullable: &[u8], first: &mut [u8]) -> usize
    requires shaped { Shaped m.now rules }
    requires le_i { (1 ≤ i) × (i ≤ rules) }
    requires nullable_len { (length nullable.now ≡ 128) × (length first.old ≡ 8192) }
    ensures { Pass 8192 (Row (FirstFrom m.now rules (On nullable.now) (Has first.old))) first.old first.new 0 result (RuleMet m.now (On nullable.now) i) }
{
    let left = items::left_of(m, rules, i);
    let mut added: usize = 0;
    for k in 0..items::length_of(m, rules, i) {
        let x = items::symbol_of(m, rules, i, k);
        added += merge_row(first, x, left);
        if nullable[x] == 0 {
            return added;
        }
    }
    added
}

// Closes the rows under the rules: what begins a right side begins the left side.
fn close_first(m: &[u8], rules: usize, nullable: &[u8], first: &mut [u8])
    requires shaped { Shaped m.now rules }
    requires nullable_len { (length nullable.now ≡ 128) × (length first.old ≡ 8192) }
    ensures { Marks (Row (FirstFrom m.now rules (On nullable.now) (Has first.old))) first.new }
{
    'passes: loop {
        let mut added: usize = 0;
        'rules: for i in 1..rules + 1 {
            added += merge_symbols(m, rules, i, nullable, first);
        }
        if added == 0 {
            break 'passes;
        }
    }
}

// Sets each terminal's own code in its row.
fn flag_diagonal(t: usize, first: &mut [u8])
    requires t_bound { t ≤ 63 }
    requires first_value { first.old ≡ replicate 8192 0 }
    ensures { Marks (Row (Diagonal t)) first.new }
{
    for c in 1..t + 1 {
        first[c * CODES + c] = 1;
    }
}

// The nullable symbols, and the codes that begin what each symbol derives.
pub fn find_sets(m: &[u8], terminals: usize, rules: usize, nullable: &mut [u8], first: &mut [u8])
    requires shaped { Shaped m.now rules }
    requires terminals_bound { terminals ≤ 63 }
    requires nullable_value { (nullable.old ≡ replicate 128 0) × (first.old ≡ replicate 8192 0) }
    ensures { (g : Grammar) → Holds m.now rules g → g.terminals ≡ terminals → SetsOf g nullable.new first.new }
{
    grammar_reduction::close_productions(m, rules, nullable);
    flag_diagonal(terminals, first);
    close_first(m, rules, nullable, first);
}

// Whether a row of flags has one that is set.
pub fn any_code(from: &[u8], start: usize, codes: usize) -> bool
    requires { start + codes ≤ length from.now }
    ensures { Decides (AnyIn from.now start codes) result }
{
    from[start..start + codes].iter().any(|flag| *flag != 0)
}

// Sets in one row of flags those that are set in another.
pub fn add_codes(from: &[u8], start: usize, codes: usize, flags: &mut [u8], at: usize)
    requires codes_in_bounds { start + codes ≤ length from.now }
    requires codes_in_bounds_2 { at + codes ≤ length flags.old }
    ensures { Adds (InRow from.now start codes at) flags.old flags.new }
{
    for c in 0..codes {
        if from[start + c] != 0 {
            flags[at + c] = 1;
        }
    }
}

// Sets the flags of the codes that can begin the rest of item i from dot k on, and tells whether that can be empty: then the codes of σ, too, are in
// first(rest, σ).
pub fn rest_first(
    m: &[u8],
    items: usize,
    i: usize,
    k: usize,
    codes: usize,
    nul: &[u8],
    fst: &[u8],
    flags: &mut [u8],
    at: usize,
) -> bool
    requires shaped { Shaped m.now items }
    requires i_le { (i ≤ items) × (codes ≤ 64) }
    requires nul_len { (length nul.now ≡ 128) × (length fst.now ≡ 8192) }
    requires codes_in_bounds { at + codes ≤ length flags.old }
    ensures { RestFirst codes nul.now fst.now (rest_at m.now i k) at flags.old flags.new result }
{
    for j in k..items::length_of(m, items, i) {
        let x = items::symbol_of(m, items, i, j);
        add_codes(fst, x * CODES, codes, flags, at);
        if nul[x] == 0 {
            return false;
        }
    }
    true
}
