// The trial of one code: the walk over some tokens and the code behind them.
// Inner: for `expected_trials`; `clear_walks` is for `expected`.
#![tactic(auto)]

ghost use Rattle.std.specs.Prelude.{◌≡◌, ◌++◌, ◌<◌, length, take, replicate};
ghost use Rattle.walker.specs.Walked.{memory_walk};
ghost use Rattle.expected_trial.specs.Trial.{as_tokens, trial_of};

use reply::clear;
use walk_tables::Machine;

// What the trial of a code tells: that it could come, that it could not, or that the walk outgrows what is lent before it is taken.
#[derive(Clone, Copy)]
pub enum Trial {
    Fits,
    Misfit,
    Outgrown,
}

// Walks the first tokens and a code behind them: past the place, the code was taken.
fn try_tokens(
    machine: &Machine,
    tokens: &[u8],
    place: usize,
    stack: &mut [u8],
    listing: &mut [u8],
) -> Trial
    ensures { result ≡ trial_of place (memory_walk machine.now (length stack.old) (length listing.old) tokens.now) }
{
    let Err(why) = walker::run(machine, tokens, stack, listing) else {
        return Trial::Fits;
    };
    if place < why.place {
        return Trial::Fits;
    }
    if reply::kind_number(why.kind) == 12 {
        return Trial::Misfit;
    }
    Trial::Outgrown
}

// Tries a code after the first tokens, which stand in `trial`.
pub fn try_code(
    machine: &Machine,
    trial: &mut [u8],
    place: usize,
    code: u8,
    stack: &mut [u8],
    listing: &mut [u8],
) -> Trial
    requires { place < length trial.old }
    ensures value { result ≡ trial_of place (memory_walk machine.now (length stack.old) (length listing.old) (take place trial.old ++ as_tokens code)) }
    ensures trial_unchanged { take place trial.new ≡ take place trial.old }
{
    trial[place] = code;
    let end = if code == 0 { place } else { place + 1 };
    try_tokens(machine, &trial[..end], place, stack, listing)
}

// Clears the slices of the walks, once for all trials.
pub fn clear_walks(stack: &mut [u8], listing: &mut [u8])
    ensures { (stack.new ≡ replicate (length stack.old) 0) × (listing.new ≡ replicate (length listing.old) 0) }
{
    clear(stack);
    clear(listing);
}
