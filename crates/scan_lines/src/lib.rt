// Lines of scan files: their form, and the token of each.
// Inner: for `scans`.
#![tactic(auto)]

ghost use Rattle.std.specs.Prelude.{◌≡◌, true, List, ℕ, drop};
ghost use Rattle.scan_lines.specs.Line.{text_byte, text_end, text_from, line_at, scan_of};
ghost use Rattle.scan_lines.specs.Tokens.{code_of, repeats, differs, judge};
ghost use Rattle.scan_lines.specs.Within.{before_of, text_of, Within, WithinFile};

use reply::Kind;
use text::{Cursor, Field};

// A line: its sequence number, its letter, and its text from the first byte to the LF.
#[derive(Clone, Copy)]
pub struct Line {
    pub sequence: usize,
    pub letter: u8,
    pub text: usize,
    pub end: usize,
}

// The text of a line, up to its LF, or none.
#[derive(Clone, Copy)]
pub enum Text {
    Until(usize),
    Broken,
}

// What stands where a line is due.
#[derive(Clone, Copy)]
pub enum Parsed {
    Line(Line),
    Broken,
}

// The line before a line.
#[derive(Clone, Copy)]
pub enum Previous {
    Nothing,
    Line(Line),
}

// What a line gives: its token, or why it is refused.
#[derive(Clone, Copy)]
pub enum Judged {
    Token(u8),
    Refused(Kind),
}

// The token of a repeat.
const REPEAT: u8 = 4;

// The highest sequence number.
const LAST: usize = 65535;

#[tactic(auto, unfolding(crate::specs::Line::text_byte))]
fn text_byte(b: u8) -> bool
    ensures { result ≡ text_byte b }
{
    matches!(b, b'!'..=b'~') && b != b','
}

// A text of n bytes, whose LF is at `at`.
#[tactic(auto, unfolding(crate::specs::Line::text_end))]
fn end_text(at: usize, n: usize) -> Text
    ensures { result ≡ text_end at n }
{
    match n {
        1..=30 => Text::Until(at),
        _ => Text::Broken,
    }
}

// The text that begins at `at`.
#[tactic(auto, using(crate::proofs::TextLaws::text_over, crate::proofs::TextLaws::text_end_lem, crate::proofs::TextLaws::text_more, crate::proofs::TextLaws::text_broken))]
fn read_text(file: &[u8], at: usize) -> Text
    ensures { result ≡ text_from (drop at file.now) at 0 }
{
    for i in at..file.len() {
        let b = file[i];
        if b == b'\n' {
            return end_text(i, i - at);
        }
        if !text_byte(b) {
            return Text::Broken;
        }
    }
    Text::Broken
}

// The line that begins at `at`.
#[tactic(auto, unfolding(crate::specs::Line::line_at, crate::specs::Line::line_after))]
pub fn read_line(file: &[u8], at: usize) -> Parsed
    ensures { result ≡ line_at file.now at }
{
    let Field::Number(sequence, c) = text::read_field(file, Cursor { at, ended: false }) else {
        return Parsed::Broken;
    };
    let Field::Letter(letter, d) = text::read_field(file, c) else {
        return Parsed::Broken;
    };
    if d.ended {
        return Parsed::Broken;
    }
    let Text::Until(end) = read_text(file, d.at) else {
        return Parsed::Broken;
    };
    Parsed::Line(Line {
        sequence,
        letter,
        text: d.at,
        end,
    })
}

// The code of a letter, 0 where it has none.
#[tactic(auto, unfolding(crate::specs::Tokens::code_of))]
fn code_of(letters: &[u8; 26], letter: u8) -> u8
    ensures { result ≡ code_of letters.now letter }
{
    match letter {
        b'A'..=b'Z' => letters[(letter - b'A') as usize],
        _ => 0,
    }
}

// Whether two lines have the same text.
fn same_text(file: &[u8], a: Line, b: Line) -> bool
    requires within { Within file.now a }
    requires within_2 { Within file.now b }
    ensures same { result ≡ true → text_of file.now a ≡ text_of file.now b }
    ensures told { text_of file.now a ≡ text_of file.now b → result ≡ true }
{
    &file[a.text..a.end] == &file[b.text..b.end]
}

// Whether a line has another letter or text than the line before it.
fn differs_from(file: &[u8], previous: Previous, line: Line) -> bool
    requires within_file { WithinFile file.now previous }
    requires within { Within file.now line }
    ensures { result ≡ differs (before_of file.now previous) (scan_of file.now line) }
{
    match previous {
        Previous::Nothing => false,
        Previous::Line(before) => before.letter != line.letter || !same_text(file, before, line),
    }
}

// Whether a line has the sequence of the line before it; in whatever file they stand.
fn repeats_line(previous: Previous, line: Line) -> bool
    ensures { (s : List ℕ) → result ≡ repeats (before_of s previous) (scan_of s line) }
{
    match previous {
        Previous::Nothing => false,
        Previous::Line(before) => before.sequence == line.sequence,
    }
}

// The token of a line, or why it is refused.
#[tactic(auto, unfolding(crate::specs::Tokens::judge))]
pub fn judge_line(letters: &[u8; 26], file: &[u8], previous: Previous, line: Line) -> Judged
    requires within_file { WithinFile file.now previous }
    requires within { Within file.now line }
    ensures { result ≡ judge letters.now (before_of file.now previous) (scan_of file.now line) }
{
    if LAST < line.sequence {
        return Judged::Refused(Kind::LimitExceeded);
    }
    let repeats = repeats_line(previous, line);
    if repeats && differs_from(file, previous, line) {
        return Judged::Refused(Kind::ConflictingRepeat);
    }
    match code_of(letters, line.letter) {
        0 => Judged::Refused(Kind::Undeclared),
        _ if repeats => Judged::Token(REPEAT),
        code => Judged::Token(code),
    }
}
