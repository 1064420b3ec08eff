// What the calls for C tell of a reply, in single figures.
// Inner: for `buraigue_c`.
#![tactic(auto)]

ghost use Rattle.std.specs.Prelude.{◌≡◌};
ghost use Rattle.walker.specs.Walked as walker;
ghost use Rattle.c_told.specs.Given.{ReplyGiven};

use reply::Reply;
use walker::Walked;

// Puts a reply's place where the reference points, and answers its number.
pub fn tell_reply(reply: Reply, place: &mut u64) -> u64
    ensures { ReplyGiven reply result place.new }
{
    *place = reply::place(reply) as u64;
    reply::number(reply)
}

// The same for a session's reply, with its counts.
pub fn tell_session(answer: Walked, place: &mut u64, rules: &mut u64, units: &mut u64) -> u64
    ensures reply_given { ReplyGiven (walker.as_reply answer) result place.new }
    ensures rules_after { (rules.new ≡ walker.rule_count answer) × (units.new ≡ walker.unit_count answer) }
{
    *rules = walker::rule_count(answer) as u64;
    *units = walker::unit_count(answer) as u64;
    tell_reply(walker::as_reply(answer), place)
}
