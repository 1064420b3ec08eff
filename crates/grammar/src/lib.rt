// Reads a grammar book into the item table.
// The door is `read_grammar`.
#![tactic(auto)]

ghost use Rattle.std.specs.Prelude.{◌≡◌, ◌+◌, ◌*◌, ◌≤◌, length, replicate};
ghost use Rattle.language.specs.Grammar.{Grammar};
ghost use Rattle.grammar.specs.Book.{rules_from, end_of, book_of, reduced_of, grammar_of};
ghost use Rattle.grammar.specs.Memory.{as_reply, reply_of, read_of, memory_of, lines_reply, Listed, Laid, HoldsGrammar, HoldsSomeGrammar};

use fixpoint::Found;
use grammar_header::{HeaderLine, Heading, read_header};
use grammar_reduction::{lowest_unproductive, lowest_unreachable};
use grammar_rule::{RuleLine, read_rule};
use reply::{Kind, Refusal, Reply, clear};

// The bytes of an item table of 127 rules: a row of 64 for each, after row 0.
pub const TABLE: usize = 8192;

// The position past the rule lines, or why one is refused.
#[derive(Clone, Copy)]
pub enum RuleLines {
    Read(usize),
    Refused(Refusal),
}

// The figures of a grammar that is in the item table, or why its book is refused.
#[derive(Clone, Copy)]
pub enum GrammarReply {
    Read(Heading),
    Refused(Refusal),
}

// `count` rule lines from `first` on, each read into the next row.
fn read_rules(s: &[u8], first: usize, t: usize, n: usize, count: usize, m: &mut [u8]) -> RuleLines
    requires t_bound { (t ≤ 63) × (n ≤ 64) }
    requires s_len_bound { length s.now ≤ 65536 }
    requires m_value { (m.old ≡ replicate (length m.old) 0) × (count * 64 + 64 ≤ length m.old) }
    ensures answered { result ≡ lines_reply (rules_from count s.now t n first) }
    ensures stored { Listed (rules_from count s.now t n first) (length m.old) m.new }
{
    let mut at = first;
    for i in 1..=count {
        match read_rule(s, at, t, n, m, i * items::ROW) {
            RuleLine::Read(next) => at = next,
            RuleLine::Refused(why) => return RuleLines::Refused(why),
        }
    }
    RuleLines::Read(at)
}

fn refuse(kind: Kind, place: usize) -> GrammarReply
    ensures { result ≡ GrammarReply.Refused (record { kind = kind; place = place }) }
{
    GrammarReply::Refused(Refusal { kind, place })
}

// The lines of a book, all of them, read into a table of zeros.
fn read_lines(s: &[u8], m: &mut [u8]) -> GrammarReply
    requires { (m.old ≡ replicate (length m.old) 0) × (8192 ≤ length m.old) }
    ensures answered { result ≡ reply_of (book_of s.now) }
    ensures stored { Laid (book_of s.now) (length m.old) m.new }
{
    if 65536 < s.len() {
        return refuse(Kind::LimitExceeded, 0);
    }
    let first = read_header(s);
    match first {
        HeaderLine::Refused(why) => GrammarReply::Refused(why),
        HeaderLine::Read(h, next) => {
            let lines = read_rules(s, next, h.terminals, h.nonterminals, h.rules, m);
            match lines {
                RuleLines::Refused(why) => GrammarReply::Refused(why),
                RuleLines::Read(end) => {
                    if end != s.len() {
                        return refuse(Kind::Malformed, end);
                    }
                    GrammarReply::Read(h)
                }
            }
        }
    }
}

// Refuses a grammar in which a nonterminal is unproductive or unreachable.
fn check_reduced(h: Heading, m: &[u8]) -> GrammarReply
    requires { HoldsSomeGrammar m.now h }
    ensures { (g : Grammar) → HoldsGrammar m.now h g → result ≡ reply_of (reduced_of g) }
{
    let unproductive = lowest_unproductive(m, h.terminals, h.nonterminals, h.rules);
    if let Found::At(x) = unproductive {
        return refuse(Kind::Unproductive, x);
    }
    let unreachable = lowest_unreachable(m, h.goal, h.nonterminals, h.rules);
    if let Found::At(x) = unreachable {
        return refuse(Kind::Unreachable, x);
    }
    GrammarReply::Read(h)
}

// A book read into a slice that has room for a whole table.
fn read_into(s: &[u8], m: &mut [u8]) -> GrammarReply
    requires { 8192 ≤ length m.old }
    ensures answered { result ≡ reply_of (grammar_of s.now) }
    ensures stored { m.new ≡ memory_of (grammar_of s.now) (length m.old) }
{
    clear(m);
    let lines = read_lines(s, m);
    let h = match lines {
        GrammarReply::Read(h) => h,
        GrammarReply::Refused(why) => {
            clear(m);
            return GrammarReply::Refused(why);
        }
    };
    let reduced = check_reduced(h, m);
    match reduced {
        GrammarReply::Read(h) => GrammarReply::Read(h),
        GrammarReply::Refused(why) => {
            clear(m);
            GrammarReply::Refused(why)
        }
    }
}

// Reads a grammar book into the item table, which `items` is to hold. A refusal leaves zeros.
pub fn read_grammar(book: &[u8], items: &mut [u8]) -> GrammarReply
    ensures answered { result ≡ reply_of (read_of book.now (length items.old)) }
    ensures stored { items.new ≡ memory_of (read_of book.now (length items.old)) (length items.old) }
{
    if items.len() < TABLE {
        clear(items);
        let mut table = [0u8; TABLE];
        let reply = read_into(book, &mut table);
        let GrammarReply::Refused(why) = reply else {
            return refuse(Kind::BufferTooSmall, 0);
        };
        return GrammarReply::Refused(why);
    }
    read_into(book, items)
}

// The answer as a reply, with its number and place.
pub fn as_reply(answer: GrammarReply) -> Reply
    ensures { result ≡ as_reply answer }
{
    match answer {
        GrammarReply::Read(_) => Reply::Accepted(0),
        GrammarReply::Refused(why) => Reply::Refused(why),
    }
}
