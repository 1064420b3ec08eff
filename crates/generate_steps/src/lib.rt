// The steps that a load is written by: a token, a rule where its mark is, the next depth.
// Inner: for `generator`.
#![tactic(auto)]

ghost use Rattle.std.specs.Prelude.{◌≡◌, ◌⊎◌, [], ◌∷◌, ◌-◌, ◌<◌, ◌≤◌, length};
ghost use Rattle.generate_steps.specs.Put.{PutsToken, PutsRule, at_mark};

// The most tokens that a load may have.
pub const TOKENS: usize = 65535;

// How far the expansion is: the state, and how many tokens and rules are written.
#[derive(Clone, Copy)]
pub struct Point {
    pub state: u32,
    pub tokens: usize,
    pub rules: usize,
}

// The next point, or the first token or rule that does not fit.
#[derive(Clone, Copy)]
pub enum Step {
    Fits(Point),
    Full,
}

// Writes a token.
pub fn put_token(tokens: &mut [u8], x: usize, at: Point) -> Step
    requires { x < 64 }
    ensures { PutsToken (x ∷ []) at tokens.old tokens.new result }
{
    let place = at.tokens;
    if tokens.len() <= place {
        return Step::Full;
    }
    tokens[place] = x as u8;
    Step::Fits(Point {
        tokens: place + 1,
        ..at
    })
}

// Lists rule i where k is its mark.
pub fn put_rule(listing: &mut [u8], i: usize, k: usize, mark: usize, at: Point) -> Step
    requires i_bound { i < 256 }
    requires rules_in_bounds { at.rules ≤ length listing.old }
    ensures { PutsRule (at_mark i k mark) at listing.old listing.new result }
{
    if k != mark {
        return Step::Fits(at);
    }
    let place = at.rules;
    if listing.len() <= place {
        return Step::Full;
    }
    listing[place] = i as u8;
    Step::Fits(Point {
        rules: place + 1,
        ..at
    })
}

// One depth less; below 0 it stays 0.
pub fn one_less(depth: usize) -> usize
    ensures { result ≡ depth - 1 }
{
    depth.saturating_sub(1)
}

// The lesser of a slice's length and TOKENS.
pub fn capped(n: usize) -> usize
    ensures { (result ≤ n) × (result ≤ 65535) × ((result ≡ n) ⊎ (result ≡ 65535)) }
{
    n.min(TOKENS)
}
