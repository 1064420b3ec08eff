// Least sets as flags in memory.
// Inner: for crates that keep flags in memory.
#![tactic(auto)]

ghost use Rattle.std.specs.Prelude.{◌≤◌, length};
ghost use Rattle.fixpoint.specs.Flags.{Off};
ghost use Rattle.fixpoint.specs.Lowest.{Lowest};

// A number that was looked for.
#[derive(Clone, Copy)]
pub enum Found {
    At(usize),
    Nothing,
}

// The lowest number from `low` on and below `high` whose flag is not set.
pub fn lowest_unset(flags: &[u8], low: usize, high: usize) -> Found
    requires { high ≤ length flags.now }
    ensures { Lowest (Off flags.now) low high result }
{
    for x in low..high {
        if flags[x] == 0 {
            return Found::At(x);
        }
    }
    Found::Nothing
}
