// Ranges of figures.
// Inner: for the readers of lines.
#![tactic(auto)]

ghost use Rattle.std.specs.Prelude.{◌≡◌};
ghost use Rattle.range.specs.Range.{within};

// Whether x is at least `least` and at most `most`.
#[tactic(auto, unfolding(crate::specs::Range::within))]
pub fn in_range(least: usize, x: usize, most: usize) -> bool
    ensures { result ≡ within least x most }
{
    least <= x && x <= most
}
