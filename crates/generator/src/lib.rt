// Test loads: a sentence and its listing from a grammar book, a seed and a depth.
// The door is `make_load`.
#![tactic(auto)]

ghost use Rattle.std.specs.Prelude.{◌≡◌, length, replicate};
ghost use Rattle.language.specs.Grammar.{Grammar};
ghost use Rattle.language.specs.Sentence.{AllProductive};
ghost use Rattle.grammar.specs.Memory.{HoldsGrammar};
ghost use Rattle.generate_loads.specs.Load.{load};
ghost use Rattle.generator.specs.Generated.{Tells, load_of, generated, as_reply, token_count, rule_count};
ghost use Rattle.generator.specs.Written.{Inside, StaysIn, Expandable, Expands};

use generate_choices::{CHOICES, choose, find_choices};
use generate_steps::{Point, Step, capped, one_less, put_rule, put_token};
use grammar::GrammarReply;
use grammar_header::Heading;
use reply::{Kind, Refusal, Reply, clear};

// The figures of a load.
#[derive(Clone, Copy)]
pub struct Generated {
    pub tokens: usize,
    pub rules: usize,
}

// A load is written, or refused.
#[derive(Clone, Copy)]
pub enum GeneratorReply {
    Written(Generated),
    Refused(Refusal),
}

// Writes what x expands to behind what is written, and stops at the first token or rule that does not fit.
fn expand(
    items: &[u8],
    rules: usize,
    choices: &[u8],
    x: usize,
    depth: usize,
    from: Point,
    tokens: &mut [u8],
    listing: &mut [u8],
) -> Step
    requires expandable { Expandable items.now choices.now rules x }
    requires inside { Inside from tokens.old listing.old }
    ensures stays_in { StaysIn tokens.new listing.new result }
    ensures expands { Expands items.now choices.now rules x depth from tokens.old listing.old tokens.new listing.new result }
{
    if x < 64 {
        return put_token(tokens, x, from);
    }
    let chosen = choose(choices, x, depth, from.state);
    let i = chosen.rule;
    let n = items::length_of(items, rules, i);
    let mark = items::mark_of(items, rules, i);
    let below = one_less(depth);
    let mut at = Point {
        state: chosen.state,
        ..from
    };
    for k in 0..n {
        let Step::Fits(marked) = put_rule(listing, i, k, mark, at) else {
            return Step::Full;
        };
        let y = items::symbol_of(items, rules, i, k);
        let Step::Fits(next) = expand(items, rules, choices, y, below, marked, tokens, listing)
        else {
            return Step::Full;
        };
        at = next;
    }
    put_rule(listing, i, n, mark, at)
}

fn refuse(kind: Kind, place: usize) -> GeneratorReply
    ensures { result ≡ GeneratorReply.Refused (record { kind = kind; place = place }) }
{
    GeneratorReply::Refused(Refusal { kind, place })
}

// The load of the grammar in memory, into slices of zeros.
fn write_load(
    items: &[u8],
    heading: Heading,
    seed: u32,
    depth: usize,
    tokens: &mut [u8],
    listing: &mut [u8],
) -> GeneratorReply
    requires holds_grammar { (g : Grammar) × HoldsGrammar items.now heading g × AllProductive g }
    requires tokens_value { (tokens.old ≡ replicate (length tokens.old) 0) × (listing.old ≡ replicate (length listing.old) 0) }
    ensures { (g : Grammar) → HoldsGrammar items.now heading g → AllProductive g → Tells (load_of (length tokens.old) (length listing.old) g (load g seed depth)) result tokens.new listing.new }
{
    let mut choices = [0u8; CHOICES];
    find_choices(
        items,
        heading.terminals,
        heading.nonterminals,
        heading.rules,
        &mut choices,
    );
    let end = capped(tokens.len());
    let start = Point {
        state: seed,
        tokens: 0,
        rules: 0,
    };
    let Step::Fits(last) = expand(
        items,
        heading.rules,
        &choices,
        heading.goal,
        depth,
        start,
        &mut tokens[..end],
        listing,
    ) else {
        clear(tokens);
        clear(listing);
        return refuse(Kind::BufferTooSmall, 0);
    };
    GeneratorReply::Written(Generated {
        tokens: last.tokens,
        rules: last.rules,
    })
}

// Writes the load of a grammar book, a seed and a depth, and its listing, each followed by zeros. A refusal leaves zeros.
pub fn make_load(
    grammar: &[u8],
    seed: u32,
    depth: usize,
    tokens: &mut [u8],
    listing: &mut [u8],
) -> GeneratorReply
    ensures { Tells (generated (length tokens.old) (length listing.old) grammar.now seed depth) result tokens.new listing.new }
{
    clear(tokens);
    clear(listing);
    if 15 < depth {
        return refuse(Kind::LimitExceeded, 0);
    }
    let mut items = [0u8; grammar::TABLE];
    match grammar::read_grammar(grammar, &mut items) {
        GrammarReply::Refused(why) => GeneratorReply::Refused(why),
        GrammarReply::Read(heading) => write_load(&items, heading, seed, depth, tokens, listing),
    }
}

// The answer as a reply, with its number and place.
pub fn as_reply(answer: GeneratorReply) -> Reply
    ensures { result ≡ as_reply answer }
{
    match answer {
        GeneratorReply::Written(_) => Reply::Accepted(0),
        GeneratorReply::Refused(why) => Reply::Refused(why),
    }
}

// The number of tokens of the load, 0 after a refusal.
pub fn token_count(answer: GeneratorReply) -> usize
    ensures { result ≡ token_count answer }
{
    match answer {
        GeneratorReply::Written(load) => load.tokens,
        GeneratorReply::Refused(_) => 0,
    }
}

// The number of rules that are listed, 0 after a refusal.
pub fn rule_count(answer: GeneratorReply) -> usize
    ensures { result ≡ rule_count answer }
{
    match answer {
        GeneratorReply::Written(load) => load.rules,
        GeneratorReply::Refused(_) => 0,
    }
}
