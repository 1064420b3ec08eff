// The codes that would have fitted after some tokens: each is tried, by the walk over the tokens and the code behind them.
// Inner: for `expected`, whose answer is an `ExpectedReply`.
#![tactic(auto)]

ghost use Rattle.std.specs.Prelude.{◌≡◌, ◌++◌, suc, ◌≤◌, ◌<◌, length, take, replicate};
ghost use Rattle.walker.specs.Walked.{memory_walk};
ghost use Rattle.expected_trial.specs.Trial.{as_tokens, trial_of};
ghost use Rattle.expected_trials.specs.Trials.{tried, refused_by, answered_at, ListTold};

use expected_trial::Trial;
use reply::{Kind, Refusal, clear};
use walk_tables::Machine;

// The place of the session's reply 0 or 12, and the number of codes in the list.
#[derive(Clone, Copy)]
pub struct Listed {
    pub place: usize,
    pub codes: usize,
}

// A list, or the refusal.
pub type ExpectedReply = Result<Listed, Refusal>;

// A trial or the list outgrows what is lent.
fn refuse_list(at: usize, codes: &mut [u8]) -> ExpectedReply
    ensures { ListTold (refused_by (length codes.old) (record { kind = Kind.BufferTooSmall; place = at })) result codes.new }
{
    clear(codes);
    Err(Refusal {
        kind: Kind::BufferTooSmall,
        place: at,
    })
}

// Tries the codes 0 to t and notes those that fit.
pub fn try_codes(
    machine: &Machine,
    trial: &mut [u8],
    place: usize,
    stack: &mut [u8],
    listing: &mut [u8],
    codes: &mut [u8],
) -> ExpectedReply
    requires { (place < length trial.old) × (machine.now.terminals ≤ 63) × (codes.old ≡ replicate (length codes.old) 0) }
    ensures { ListTold (answered_at (length codes.old) place (tried (λ c. trial_of place (memory_walk machine.now (length stack.old) (length listing.old) (take place trial.old ++ as_tokens c))) (suc machine.now.terminals) 0)) result codes.new }
{
    let mut count: usize = 0;
    for code in 0..machine.terminals as u8 + 1 {
        match expected_trial::try_code(machine, trial, place, code, stack, listing) {
            Trial::Fits => {
                if codes.len() <= count {
                    return refuse_list(place, codes);
                }
                codes[count] = code;
                count += 1;
            }
            Trial::Misfit => {}
            Trial::Outgrown => return refuse_list(place, codes),
        }
    }
    Ok(Listed {
        place,
        codes: count,
    })
}
