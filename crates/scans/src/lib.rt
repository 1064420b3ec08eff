// Reads scan files: a token for each line.
// The door is `read_scans`; `read_by` and `refuse_file` are inner, for other letters.
#![tactic(auto)]

ghost use Rattle.std.specs.Prelude.{◌≡◌, length, set, replicate};
ghost use Rattle.scans.specs.File.{all_lines, outcome_of, scanned, scans_of};
ghost use Rattle.scans.specs.Read.{Stored};

use reply::{Kind, Refusal, Reply};
use scan_lines::{Judged, Parsed, Previous};

// The house letters: the codes of A to Z, 0 where a letter has none.
const HOUSE: [u8; 26] = [
    0, 0, 0, 1, 5, 7, 2, 0, 0, 0, 0, 0, 0, 0, 0, 3, 0, 0, 0, 6, 0, 0, 0, 0, 0, 0,
];

// The most tokens that a scan file gives: a line has 6 bytes at least.
pub const TOKENS: usize = 10922;

// The most bytes that a scan file has.
const LONGEST: usize = 65536;

// Stores where there is room.
fn store(tokens: &mut [u8], i: usize, token: u8)
    ensures { tokens.new ≡ set tokens.old i token }
{
    if i < tokens.len() {
        tokens[i] = token;
    }
}

// Reads the lines, and stores their tokens as far as there is room.
fn read_lines(letters: &[u8; 26], file: &[u8], tokens: &mut [u8]) -> Reply
    ensures { Stored (all_lines letters.now 0 file.now) result tokens.old tokens.new }
{
    let mut previous = Previous::Nothing;
    let mut at = 0;
    let mut count = 0;
    // Stays a `while`: `at` moves by a line's bytes, and `count` by one.
    while at < file.len() {
        let Parsed::Line(line) = scan_lines::read_line(file, at) else {
            return reply::refuse(Kind::Malformed, at);
        };
        match scan_lines::judge_line(letters, file, previous, line) {
            Judged::Token(token) => store(tokens, count, token),
            Judged::Refused(kind) => return reply::refuse(kind, at),
        }
        count += 1;
        previous = Previous::Line(line);
        at = line.end + 1;
    }
    Reply::Accepted(count)
}

// A refusal leaves zeros.
pub fn refuse_file(lent: &mut [u8], why: Refusal) -> Reply
    ensures refused { result ≡ Reply.Refused why }
    ensures zeroed { lent.new ≡ replicate (length lent.old) 0 }
{
    reply::clear(lent);
    Reply::Refused(why)
}

// Reads a scan file by the codes of its letters.
pub fn read_by(letters: &[u8; 26], file: &[u8], tokens: &mut [u8]) -> Reply
    ensures replied { result ≡ (outcome_of (scanned letters.now file.now) (length tokens.old)).reply }
    ensures stored { tokens.new ≡ (outcome_of (scanned letters.now file.now) (length tokens.old)).tokens }
{
    reply::clear(tokens);
    if LONGEST < file.len() {
        return reply::refuse(Kind::LimitExceeded, 0);
    }
    match read_lines(letters, file, tokens) {
        Reply::Accepted(count) if count <= tokens.len() => Reply::Accepted(count),
        Reply::Accepted(_) => {
            let why = Refusal {
                kind: Kind::BufferTooSmall,
                place: 0,
            };
            refuse_file(tokens, why)
        }
        Reply::Refused(why) => refuse_file(tokens, why),
    }
}

// Reads a scan file: the reply, and in `tokens` the token list and then zeros. A refusal leaves zeros.
pub fn read_scans(file: &[u8], tokens: &mut [u8]) -> Reply
    ensures replied { result ≡ (scans_of file.now (length tokens.old)).reply }
    ensures stored { tokens.new ≡ (scans_of file.now (length tokens.old)).tokens }
{
    read_by(&HOUSE, file, tokens)
}
