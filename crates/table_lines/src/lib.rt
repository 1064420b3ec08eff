// Lines of table and letters books: a letter, then numbers to the line's end; and what comes of a line and of a block of lines.
// Inner: for the readers of blocks and of letters books.
#![tactic(auto)]

ghost use Rattle.std.specs.Prelude.{◌≡◌, ◌≤◌, ◌<◌, length, set};
ghost use Rattle.digits.specs.Exact.{exact_at};
ghost use Rattle.digits.specs.Compare.{Leads};
ghost use Rattle.table_lines.specs.Line.{line_at, numbers_from, cap, Stores};
ghost use Rattle.table_lines.specs.Tally.{line_of, add_number, keeps_rising, no_number};

use reply::{Kind, Refusal};
use text::{Cursor, Field};

// What is kept of a line's numbers beside the numbers themselves: how many there are, the largest, the last, and
// whether those from the fourth on rise. Every number above 65,535 is kept as 65,536; whether they rise is exact.
#[derive(Clone, Copy)]
pub struct Tally {
    pub count: usize,
    pub largest: usize,
    pub last: usize,
    pub rising: bool,
}

// A line: its letter, its numbers, and the position past its LF.
#[derive(Clone, Copy)]
pub enum Line {
    Whole(u8, Tally, usize),
    Broken,
}

// Whether a line is as it must be, or what is wrong with it.
#[derive(Clone, Copy)]
pub enum Judgement {
    Fine,
    Faulty(Kind),
}

// What comes of a place where a line of a block may stand: it is taken, with the position past it; or no line of the
// block stands there; or a line is refused.
#[derive(Clone, Copy)]
pub enum Step {
    Taken(usize),
    Stopped,
    Refused(Refusal),
}

// A block that was read: the number of its lines, and the position past them.
#[derive(Clone, Copy)]
pub enum Block {
    Read(usize, usize),
    Refused(Refusal),
}

// Whether the numbers from the fourth on still rise with the number at `at`, kept as v, where the last stands at
// `prior`. Digits are compared only where both are above 65,535.
#[tactic(auto, unfolding(crate::specs::Tally::keeps_rising))]
fn keeps_rising(s: &[u8], p: Tally, prior: usize, at: usize, v: usize) -> bool
    requires last_value { (4 ≤ p.count → p.last ≡ cap (exact_at s.now prior)) × (v ≡ cap (exact_at s.now at)) }
    requires leads { (4 ≤ p.count → Leads s.now prior) × Leads s.now at }
    ensures { result ≡ keeps_rising s.now p prior at }
{
    (p.count < 4 || p.last < v || 65536 <= v && digits::is_below(s, prior, at)) && p.rising
}

#[tactic(auto, unfolding(crate::specs::Tally::add_number))]
fn add_number(p: Tally, v: usize, rising: bool) -> Tally
    requires { p.count < 65536 }
    ensures { result ≡ add_number p v rising }
{
    Tally {
        count: p.count + 1,
        largest: p.largest.max(v),
        last: v,
        rising,
    }
}

// Stores a figure in memory. Where there is no room, nothing is stored.
pub fn put(m: &mut [u8], i: usize, v: usize)
    requires { v < 256 }
    ensures { m.new ≡ set m.old i v }
{
    if i < m.len() {
        m[i] = v as u8;
    }
}

// Where there is no room, nothing is stored.
fn store_number(numbers: &mut [usize], k: usize, v: usize)
    ensures { numbers.new ≡ set numbers.old k v }
{
    if k < numbers.len() {
        numbers[k] = v;
    }
}

// The numbers from `first` on to the end of a line with this letter.
fn read_numbers(s: &[u8], letter: u8, first: Cursor, numbers: &mut [usize]) -> Line
    requires { length s.now < 65537 }
    ensures value { result ≡ line_of (numbers_from (length s.now) s.now letter first no_number) }
    ensures stores { Stores (numbers_from (length s.now) s.now letter first no_number) numbers.old numbers.new }
{
    let mut c = first;
    let mut prior = 0;
    let mut p = Tally {
        count: 0,
        largest: 0,
        last: 0,
        rising: true,
    };
    for k in 0..s.len() {
        if c.ended {
            return Line::Whole(letter, p, c.at);
        }
        let Field::Number(v, d) = text::read_field(s, c) else {
            return Line::Broken;
        };
        store_number(numbers, k, v);
        let rising = keeps_rising(s, p, prior, c.at, v);
        p = add_number(p, v, rising);
        prior = c.at;
        c = d;
    }
    Line::Broken
}

// The line at `at`. Its numbers are stored in `numbers`, as many as there is room for. A broken line leaves `numbers` free: a local
// of the readers, not read then.
#[tactic(auto, unfolding(crate::specs::Line::line_at))]
pub fn read_line(s: &[u8], at: usize, numbers: &mut [usize]) -> Line
    requires { length s.now < 65537 }
    ensures value { result ≡ line_of (line_at s.now at) }
    ensures stores { Stores (line_at s.now at) numbers.old numbers.new }
{
    let Field::Letter(letter, c) = text::read_field(s, Cursor { at, ended: false }) else {
        return Line::Broken;
    };
    read_numbers(s, letter, c, numbers)
}
