// Rule lines of a grammar book, `R,left,..` or `U,left,..`, read into the item table.
// Inner: for `grammar`.
#![tactic(auto)]

ghost use Rattle.std.specs.Prelude.{◌≡◌, ◌+◌, ◌%◌, ◌≤◌, ◌<◌, eqb, length};
ghost use Rattle.language.specs.Listing.{unit_of};
ghost use Rattle.grammar_rule.specs.RuleLine.{is_rule, rule_at};
ghost use Rattle.grammar_rule.specs.Parts.{parts_at};
ghost use Rattle.grammar_rule.specs.Progress.{after_symbol, after_caret, after_cut, after_mark, placed, over_with, undeclared_with, add_symbol, point_at, add_mark, judged, Answers, line_of};
ghost use Rattle.grammar_rule.specs.Memory.{EmptyRow, begins, with_symbol, with_figures, Filled, Stored};

use reply::{Kind, Refusal};
use symbol::Symbol;
use text::{Cursor, Field, read_field};

// What the last part of a right side was, as far as its marks stand where they may.
#[derive(Clone, Copy)]
pub enum Stage {
    Before,
    AtCaret,
    InGroup,
    AtCut,
    Misplaced,
}

// How far a right side is read: its symbols, how many of them stand left of `^`, whether one passes 65,535, and whether
// one is undeclared.
#[derive(Clone, Copy)]
pub struct Progress {
    pub count: usize,
    pub point: usize,
    pub stage: Stage,
    pub over: bool,
    pub undeclared: bool,
}

// A right side to its line's end with the position past it, or a field that breaks the line's form.
#[derive(Clone, Copy)]
pub enum Parts {
    Complete(Progress, usize),
    Broken,
}

// The position past a rule line that was read, or why it is refused.
#[derive(Clone, Copy)]
pub enum RuleLine {
    Read(usize),
    Refused(Refusal),
}

fn after_symbol(stage: Stage) -> Stage
    ensures { result ≡ after_symbol stage }
{
    match stage {
        Stage::Before => Stage::Before,
        Stage::AtCaret | Stage::InGroup | Stage::AtCut => Stage::InGroup,
        Stage::Misplaced => Stage::Misplaced,
    }
}

// `^` stands once.
fn after_caret(stage: Stage) -> Stage
    ensures { result ≡ after_caret stage }
{
    match stage {
        Stage::Before => Stage::AtCaret,
        _ => Stage::Misplaced,
    }
}

// A cut stands after a symbol of a group.
fn after_cut(stage: Stage) -> Stage
    ensures { result ≡ after_cut stage }
{
    match stage {
        Stage::InGroup => Stage::AtCut,
        _ => Stage::Misplaced,
    }
}

fn after_mark(stage: Stage, b: u8) -> Stage
    ensures { result ≡ after_mark stage b }
{
    if b == b'^' {
        after_caret(stage)
    } else {
        after_cut(stage)
    }
}

// `^` has come, and the last part is no cut.
fn is_placed(stage: Stage) -> bool
    ensures { result ≡ placed stage }
{
    matches!(stage, Stage::AtCaret | Stage::InGroup)
}

fn over_with(over: bool, v: usize) -> bool
    ensures { result ≡ over_with over v }
{
    over || 65535 < v
}

fn undeclared_with(seen: bool, t: usize, n: usize, v: usize) -> bool
    ensures { result ≡ undeclared_with seen t n v }
{
    let x = Symbol { code: v };
    seen || !x.is_declared(t, n)
}

#[tactic(auto, unfolding(crate::specs::Progress::add_symbol))]
fn add_symbol(t: usize, n: usize, p: Progress, v: usize) -> Progress
    requires { p.count < 65536 }
    ensures { result ≡ add_symbol t n p v }
{
    Progress {
        count: p.count + 1,
        stage: after_symbol(p.stage),
        over: over_with(p.over, v),
        undeclared: undeclared_with(p.undeclared, t, n, v),
        ..p
    }
}

// At `^` the symbols so far are those left of it.
fn point_at(b: u8, count: usize, point: usize) -> usize
    ensures { result ≡ point_at b count point }
{
    if b == b'^' { count } else { point }
}

#[tactic(auto, unfolding(crate::specs::Progress::add_mark))]
fn add_mark(p: Progress, b: u8) -> Progress
    ensures { result ≡ add_mark p b }
{
    Progress {
        point: point_at(b, p.count, p.point),
        stage: after_mark(p.stage, b),
        ..p
    }
}

fn low_byte(x: usize) -> u8
    ensures { result ≡ x % 256 }
{
    (x % 256) as u8
}

fn begins_group(stage: Stage) -> bool
    ensures { result ≡ begins stage }
{
    matches!(stage, Stage::AtCaret | Stage::AtCut)
}

// Stores the symbol after `count` others, and that it begins a group where it does.
#[tactic(auto, unfolding(crate::specs::Memory::with_symbol))]
fn store_symbol(m: &mut [u8], base: usize, count: usize, stage: Stage, v: usize)
    requires { base + 64 ≤ length m.old }
    ensures { m.new ≡ with_symbol m.old base count stage v }
{
    if count < 15 {
        m[base + 16 + count] = low_byte(v);
        if begins_group(stage) {
            m[base + 32 + count] = 1;
        }
    }
}

// The right side from `first` to its line's end, with each symbol stored in the row at `base`.
fn read_parts(s: &[u8], first: Cursor, t: usize, n: usize, m: &mut [u8], base: usize) -> Parts
    requires t_bound { (t ≤ 63) × (n ≤ 64) }
    requires s_len_bound { length s.now ≤ 65536 }
    requires empty_row { EmptyRow m.old base }
    ensures answered { Answers t n (parts_at s.now first) result }
    ensures filled { Filled t n (parts_at s.now first) m.old base m.new }
{
    let mut c = first;
    let mut p = Progress {
        count: 0,
        point: 0,
        stage: Stage::Before,
        over: false,
        undeclared: false,
    };
    while !c.ended {
        let field = read_field(s, c);
        if let Field::Mark(b, d) = field {
            p = add_mark(p, b);
            c = d;
            continue;
        }
        let Field::Number(v, d) = field else {
            return Parts::Broken;
        };
        store_symbol(m, base, p.count, p.stage, v);
        p = add_symbol(t, n, p, v);
        c = d;
    }
    Parts::Complete(p, c.at)
}

fn refuse(kind: Kind, place: usize) -> RuleLine
    ensures { result ≡ RuleLine.Refused (record { kind = kind; place = place }) }
{
    RuleLine::Refused(Refusal { kind, place })
}

// The line at `at` that ends before `next`, by its left side and its right side's progress.
#[tactic(auto, unfolding(crate::specs::Progress::judged))]
fn judge(at: usize, n: usize, left: usize, p: Progress, next: usize) -> RuleLine
    ensures { result ≡ judged at n left p next }
{
    if 65535 < left || p.over || 15 < p.count {
        return refuse(Kind::LimitExceeded, at);
    }
    let x = Symbol { code: left };
    if !x.is_nonterminal(n) || p.undeclared {
        return refuse(Kind::Undeclared, at);
    }
    if !is_placed(p.stage) {
        return refuse(Kind::MisplacedMark, at);
    }
    RuleLine::Read(next)
}

// Stores a rule's figures in front of its symbols.
fn store_figures(m: &mut [u8], base: usize, left: usize, p: Progress, unit: u8)
    requires { base + 64 ≤ length m.old }
    ensures { m.new ≡ with_figures m.old base left p.count p.point unit }
{
    m[base] = low_byte(left);
    m[base + 1] = low_byte(p.count);
    m[base + 2] = low_byte(p.point);
    m[base + 3] = unit;
}

fn is_rule(letter: u8) -> bool
    ensures { result ≡ is_rule letter }
{
    matches!(letter, b'R' | b'U')
}

fn unit_flag(letter: u8) -> u8
    ensures { result ≡ unit_of (eqb letter 85) }
{
    if letter == b'U' { 1 } else { 0 }
}

// The rule line at `at` of a grammar of t terminals and n nonterminals, read into the empty row at `base`. A refusal leaves the
// row free; `grammar::read_grammar` then clears the item table.
pub fn read_rule(s: &[u8], at: usize, t: usize, n: usize, m: &mut [u8], base: usize) -> RuleLine
    requires t_bound { (t ≤ 63) × (n ≤ 64) }
    requires s_len_bound { length s.now ≤ 65536 }
    requires empty_row { EmptyRow m.old base }
    ensures answered { result ≡ line_of (rule_at s.now t n at) }
    ensures stored { Stored (rule_at s.now t n at) m.old base m.new }
{
    let Field::Letter(letter, c) = read_field(s, Cursor { at, ended: false }) else {
        return refuse(Kind::Malformed, at);
    };
    if !is_rule(letter) {
        return refuse(Kind::Malformed, at);
    }
    let Field::Number(left, d) = read_field(s, c) else {
        return refuse(Kind::Malformed, at);
    };
    let Parts::Complete(p, end) = read_parts(s, d, t, n, m, base) else {
        return refuse(Kind::Malformed, at);
    };
    match judge(at, n, left, p, end) {
        RuleLine::Read(next) => {
            store_figures(m, base, left, p, unit_flag(letter));
            RuleLine::Read(next)
        }
        RuleLine::Refused(why) => RuleLine::Refused(why),
    }
}
