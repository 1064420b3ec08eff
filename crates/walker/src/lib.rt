// The inner loop of the session walker, over a machine in memory.
// Inner: for `session` and `expected_trial`. `Walked`, `as_reply`, `rule_count` and `unit_count` are for whoever calls a door.
#![tactic(auto)]

ghost use Rattle.std.specs.Prelude.{◌≡◌, length, replicate};
ghost use Rattle.reply.specs.Reply.{padded};
ghost use Rattle.walk_tables.specs.Memory.{memory_grammar};
ghost use Rattle.walk_steps.specs.Turn.{Stands};
ghost use Rattle.walker.specs.Walked.{memory_walk, answer, listed, as_reply, rule_count, unit_count, Ended};
ghost use Rattle.walker.specs.Advance.{Advances};

use reply::{Kind, Refusal, Reply};
use walk_steps::{Position, Turn};
use walk_tables::{Cell, Machine};

// What a walk to the end counts.
#[derive(Clone, Copy)]
pub struct Tally {
    pub tokens: usize,
    pub rules: usize,
    pub units: usize,
}

// How a walk ends.
pub type Walked = Result<Tally, Refusal>;

// One step of the walk.
fn advance(
    machine: &Machine,
    tokens: &[u8],
    stack: &mut [u8],
    listing: &mut [u8],
    p: Position,
) -> Turn
    requires { Stands (memory_grammar machine.now.rules) (length stack.old) (length listing.old) tokens.now stack.old listing.old p }
    ensures { Advances machine.now tokens.now stack.old listing.old p result stack.new listing.new }
{
    let step = machine.step_at(p.top, p.code);
    match step.cell {
        Cell::Shift(next) => walk_steps::shift(tokens, stack, next, p),
        Cell::Announce(rule) => walk_steps::announce(machine, stack, listing, rule, p),
        Cell::Pop(symbols) => walk_steps::pop(stack, symbols, p),
        Cell::Empty => Turn::Wrong,
    }
}

// The walk, which leaves its states in the stack and its rules in the listing: for trials, of which many share slices that are
// cleared once.
pub fn run(machine: &Machine, tokens: &[u8], stack: &mut [u8], listing: &mut [u8]) -> Walked
    ensures { Ended (memory_grammar machine.now.rules) (memory_walk machine.now (length stack.old) (length listing.old) tokens.now) result listing.new }
{
    if stack.is_empty() {
        return Err(Refusal {
            kind: Kind::BufferTooSmall,
            place: 0,
        });
    }
    let top = machine.start;
    stack[0] = top;
    let mut p = Position {
        height: 1,
        taken: 0,
        listed: 0,
        units: 0,
        top,
        code: walk_steps::code_at(tokens, 0),
    };
    loop {
        match advance(machine, tokens, stack, listing, p) {
            Turn::On(next) => p = next,
            Turn::Whole => {
                return Ok(Tally {
                    tokens: p.taken,
                    rules: p.listed,
                    units: p.units,
                });
            }
            Turn::Wrong => {
                return Err(Refusal {
                    kind: Kind::SyntaxError,
                    place: p.taken,
                });
            }
            Turn::Short => {
                return Err(Refusal {
                    kind: Kind::BufferTooSmall,
                    place: p.taken,
                });
            }
        }
    }
}

// The answer without its counts.
pub fn as_reply(w: Walked) -> Reply
    ensures { result ≡ as_reply w }
{
    match w {
        Ok(tally) => Reply::Accepted(tally.tokens),
        Err(why) => Reply::Refused(why),
    }
}

// The rules that stand in the listing after a walk.
pub fn rule_count(w: Walked) -> usize
    ensures { result ≡ rule_count w }
{
    w.map_or(0, |tally| tally.rules)
}

// The units among them.
pub fn unit_count(w: Walked) -> usize
    ensures { result ≡ unit_count w }
{
    w.map_or(0, |tally| tally.units)
}

// Walks the tokens from the state where the machine starts, with the states in the stack slice and the rules in the listing slice,
// over a machine that holds whatever it holds.
pub fn walk_tokens(machine: &Machine, tokens: &[u8], stack: &mut [u8], listing: &mut [u8]) -> Walked
    ensures reply { result ≡ answer (memory_grammar machine.now.rules) (memory_walk machine.now (length stack.old) (length listing.old) tokens.now) }
    ensures rules { listing.new ≡ padded (length listing.old) (listed (memory_walk machine.now (length stack.old) (length listing.old) tokens.now)) }
    ensures cleared { stack.new ≡ replicate (length stack.old) 0 }
{
    let w = run(machine, tokens, stack, listing);
    reply::clear(stack);
    let n = rule_count(w);
    reply::clear(&mut listing[n..]);
    w
}
