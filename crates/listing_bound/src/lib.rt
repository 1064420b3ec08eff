// How long the listing of a session can be: a bound from a grammar book and a number of scans.
// The door is `bound_listing`.
#![tactic(auto)]

ghost use Rattle.std.specs.Prelude.{◌≡◌, ◌-◌, ◌*◌, ◌≤◌};
ghost use Rattle.language.specs.Grammar.{Grammar};
ghost use Rattle.items.specs.Layout.{Shaped, Holds};
ghost use Rattle.grammar.specs.Memory.{HoldsSomeGrammar, HoldsGrammar};
ghost use Rattle.listing_bound.specs.Bound.{has_empty, of_grammar, bound_of, as_reply, is_unbounded, rule_count};

use grammar::GrammarReply;
use grammar_header::Heading;
use reply::{Kind, Refusal, Reply};

// The most rules that a session lists; or that there is no bound, since a right side is empty; or why the answer is refused.
#[derive(Clone, Copy)]
pub enum ListingBound {
    Rules(usize),
    Unbounded,
    Refused(Refusal),
}

// Whether some rule has an empty right side.
fn has_empty(items: &[u8], rules: usize) -> bool
    requires { (Shaped items.now rules) × (rules ≤ 127) }
    ensures { (g : Grammar) → Holds items.now rules g → result ≡ has_empty g.rules }
{
    for i in 1..rules + 1 {
        if items::length_of(items, rules, i) == 0 {
            return true;
        }
    }
    false
}

// The bound, of n nonterminals and k scans.
fn most_rules(n: usize, k: usize) -> usize
    requires { (n ≤ 64) × (k ≤ 65535) }
    ensures { result ≡ n * (2 * k - 1) }
{
    n * (2 * k).saturating_sub(1)
}

// The answer for the grammar in memory.
fn bound_rules(items: &[u8], heading: Heading, scans: usize) -> ListingBound
    requires { (HoldsSomeGrammar items.now heading) × (scans ≤ 65535) }
    ensures { (g : Grammar) → HoldsGrammar items.now heading g → result ≡ of_grammar g scans }
{
    if has_empty(items, heading.rules) {
        ListingBound::Unbounded
    } else {
        ListingBound::Rules(most_rules(heading.nonterminals, scans))
    }
}

// How many rules the listing of a sentence of so many scans can have, whatever tables are accepted for the grammar.
pub fn bound_listing(grammar: &[u8], scans: usize) -> ListingBound
    ensures { result ≡ bound_of grammar.now scans }
{
    if 65535 < scans {
        return ListingBound::Refused(Refusal {
            kind: Kind::LimitExceeded,
            place: 0,
        });
    }
    let mut items = [0u8; grammar::TABLE];
    match grammar::read_grammar(grammar, &mut items) {
        GrammarReply::Refused(why) => ListingBound::Refused(why),
        GrammarReply::Read(heading) => bound_rules(&items, heading, scans),
    }
}

// The answer as a reply, with its number and place.
pub fn as_reply(answer: ListingBound) -> Reply
    ensures { result ≡ as_reply answer }
{
    match answer {
        ListingBound::Rules(_) | ListingBound::Unbounded => Reply::Accepted(0),
        ListingBound::Refused(why) => Reply::Refused(why),
    }
}

// Whether there is no bound.
pub fn is_unbounded(answer: ListingBound) -> bool
    ensures { result ≡ is_unbounded answer }
{
    matches!(answer, ListingBound::Unbounded)
}

// The bound, 0 where there is none and after a refusal.
pub fn rule_count(answer: ListingBound) -> usize
    ensures { result ≡ rule_count answer }
{
    match answer {
        ListingBound::Rules(count) => count,
        ListingBound::Unbounded | ListingBound::Refused(_) => 0,
    }
}
