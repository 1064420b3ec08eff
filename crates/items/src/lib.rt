// The item table in memory: rules, then entry strings, a row of 64 bytes each.
// Inner: for crates that know the table to be in shape.
#![tactic(auto)]

ghost use Rattle.std.specs.Prelude.{◌≡◌, ◌+◌, ◌*◌, ◌<◌, ◌≤◌};
ghost use Rattle.items.specs.Layout.{Shaped, left_at, length_at, mark_at, unit_at, symbol_at, start_at};

// The bytes of a row.
pub const ROW: usize = 64;

// The left side of rule i; 0 for an entry item.
pub fn left_of(m: &[u8], items: usize, i: usize) -> usize
    requires shaped { Shaped m.now items }
    requires i_le { i ≤ items }
    ensures { (result ≡ left_at m.now i) × (result < 128) }
{
    m[i * ROW] as usize
}

// The number of symbols of item i.
pub fn length_of(m: &[u8], items: usize, i: usize) -> usize
    requires shaped { Shaped m.now items }
    requires i_le { i ≤ items }
    ensures { (result ≡ length_at m.now i) × (result ≤ 15) }
{
    m[i * ROW + 1] as usize
}

// The dot at which item i is recognized; 255 for an entry item, which has no such point.
pub fn mark_of(m: &[u8], items: usize, i: usize) -> usize
    requires shaped { Shaped m.now items }
    requires i_le { i ≤ items }
    ensures { (result ≡ mark_at m.now i) × (result < 256) }
{
    m[i * ROW + 2] as usize
}

// 1 for a unit rule, else 0.
pub fn unit_of(m: &[u8], items: usize, i: usize) -> usize
    requires shaped { Shaped m.now items }
    requires i_le { i ≤ items }
    ensures { (result ≡ unit_at m.now i) × (result < 256) }
{
    m[i * ROW + 3] as usize
}

// Symbol k of item i.
pub fn symbol_of(m: &[u8], items: usize, i: usize, k: usize) -> usize
    requires shaped { Shaped m.now items }
    requires i_le { i ≤ items }
    requires k_bound { k < 15 }
    ensures { (result ≡ symbol_at m.now i k) × (result < 128) }
{
    m[i * ROW + 16 + k] as usize
}

// 1 where symbol k of item i is the first of a group, else 0.
pub fn start_of(m: &[u8], items: usize, i: usize, k: usize) -> usize
    requires shaped { Shaped m.now items }
    requires i_le { i ≤ items }
    requires k_bound { k < 15 }
    ensures { (result ≡ start_at m.now i k) × (result < 256) }
{
    m[i * ROW + 32 + k] as usize
}
