// The rules as the walker reads them: what an announce of each needs, in a row of 32 bytes.
// Inner: for `session`.
#![tactic(auto)]

ghost use Rattle.std.specs.Prelude.{◌≡◌, ℕ, ◌+◌, ◌*◌, ◌<◌, ◌≤◌, length, replicate};
ghost use Rattle.language.specs.Grammar.{Grammar};
ghost use Rattle.leftcorner.specs.Table.{Table};
ghost use Rattle.leftcorner.specs.Construction.{EntriesMeet};
ghost use Rattle.items.specs.Layout.{Shaped};
ghost use Rattle.memory.specs.Memory.{HoldsEntries};
ghost use Rattle.check_entries.specs.Uses.{HoldsStrings};
ghost use Rattle.walk_rules.specs.Linked.{Linked};
ghost use Rattle.walk_rules.specs.Rows.{GroupCount, GroupsLinked, RuleLinked};

use symbol::CODES;

// The number of groups of rule i: they use entries, and a 0 stands behind the last.
fn count_groups(uses: &[u8], i: usize) -> usize
    requires { (length uses.now ≡ 2048) × (i < 128) }
    ensures { GroupCount uses.now i result }
{
    for n in 0..15 {
        if uses[i * 16 + n] == 0 {
            return n;
        }
    }
    15
}

// Writes the entry states of rule i's groups into its row, the last group's first.
fn link_groups(entries: &[u8], uses: &[u8], i: usize, groups: usize, rows: &mut [u8])
    requires in_bounds { (256 ≤ length entries.now) × (length uses.now ≡ 2048) × (length rows.old ≡ 8448) }
    requires i_bound { (i < 128) × (groups ≤ 15) }
    ensures { GroupsLinked entries.now uses.now i groups groups rows.old rows.new }
{
    for j in 0..groups {
        let e = uses[i * 16 + j] as usize;
        rows[i * 32 + 3 + groups - j] = entries[e];
    }
}

// Writes the row of rule i.
fn link_rule(items: &[u8], count: usize, i: usize, entries: &[u8], uses: &[u8], rows: &mut [u8])
    requires shaped { Shaped items.now count }
    requires in_bounds { (256 ≤ length entries.now) × (length uses.now ≡ 2048) × (length rows.old ≡ 8448) }
    requires i_le_count { (i ≤ count) × (i < 128) }
    ensures { RuleLinked items.now entries.now uses.now i rows.old rows.new }
{
    let groups = count_groups(uses, i);
    link_groups(entries, uses, i, groups, rows);
    rows[i * 32] = items::mark_of(items, count, i) as u8;
    rows[i * 32 + 1] = (items::left_of(items, count, i) % CODES) as u8;
    rows[i * 32 + 2] = items::unit_of(items, count, i) as u8;
    rows[i * 32 + 3] = groups as u8;
}

// Writes the rows of all rules, by the items and the entries' states.
pub fn link_rules(items: &[u8], rules: usize, strings: usize, entries: &[u8], rows: &mut [u8])
    requires shaped { Shaped items.now (rules + strings) }
    requires rules_bound { (rules ≤ 127) × (strings ≤ 127) × (256 ≤ length entries.now) × (rows.old ≡ replicate 8448 0) }
    ensures rows_len { length rows.new ≡ 8448 }
    ensures linked { (g : Grammar) (t : Table) (start : ℕ) → HoldsStrings g t items.now rules strings → HoldsEntries entries.now t → EntriesMeet g t
        → Linked rows.new start g t }
{
    let mut uses = [0u8; 2048];
    check_entries::note_uses(items, rules, strings, &mut uses);
    for i in 1..rules + 1 {
        link_rule(items, rules + strings, i, entries, &uses, rows);
    }
}
