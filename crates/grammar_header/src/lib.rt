// The first line of a grammar book, `G,t,n,r,goal`.
// Inner: for `grammar`.
#![tactic(auto)]

ghost use Rattle.std.specs.Prelude.{◌≡◌};
ghost use Rattle.grammar_header.specs.Header.{header_of, figures_of};

use range::in_range;
use reply::{Kind, Refusal};
use symbol::Symbol;
use text::{Cursor, Field, read_field};

// The figures of a grammar: t, n, the number of rules, and the goal's code.
#[derive(Clone, Copy)]
pub struct Heading {
    pub terminals: usize,
    pub nonterminals: usize,
    pub rules: usize,
    pub goal: usize,
}

// A header with the position past its line, or why it is refused.
#[derive(Clone, Copy)]
pub enum HeaderLine {
    Read(Heading, usize),
    Refused(Refusal),
}

fn refuse(kind: Kind) -> HeaderLine
    ensures { result ≡ HeaderLine.Refused (record { kind = kind; place = 0 }) }
{
    HeaderLine::Refused(Refusal { kind, place: 0 })
}

// The figures of a line that has its form.
#[tactic(auto, unfolding(crate::specs::Header::figures_of))]
fn check_figures(t: usize, n: usize, rules: usize, goal: usize, next: usize) -> HeaderLine
    ensures { result ≡ figures_of t n rules goal next }
{
    if !in_range(1, t, 63) || !in_range(1, n, 64) || !in_range(1, rules, 127) || 65535 < goal {
        return refuse(Kind::LimitExceeded);
    }
    let start = Symbol { code: goal };
    if !start.is_nonterminal(n) {
        return refuse(Kind::Undeclared);
    }
    let heading = Heading {
        terminals: t,
        nonterminals: n,
        rules,
        goal,
    };
    HeaderLine::Read(heading, next)
}

// The header line, which a book begins with.
#[tactic(auto, unfolding(crate::specs::Header::header_of))]
pub fn read_header(s: &[u8]) -> HeaderLine
    ensures { result ≡ header_of s.now }
{
    let begin = Cursor {
        at: 0,
        ended: false,
    };
    let Field::Letter(b'G', c0) = read_field(s, begin) else {
        return refuse(Kind::Malformed);
    };
    let Field::Number(t, c1) = read_field(s, c0) else {
        return refuse(Kind::Malformed);
    };
    let Field::Number(n, c2) = read_field(s, c1) else {
        return refuse(Kind::Malformed);
    };
    let Field::Number(rules, c3) = read_field(s, c2) else {
        return refuse(Kind::Malformed);
    };
    let Field::Number(goal, c4) = read_field(s, c3) else {
        return refuse(Kind::Malformed);
    };
    if !c4.ended {
        return refuse(Kind::Malformed);
    }
    check_figures(t, n, rules, goal, c4.at)
}
