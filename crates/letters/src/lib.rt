// Letters books: the codes of a bank's own scanner letters.
// The door is `read_letters`.
#![tactic(auto)]

ghost use Rattle.std.specs.Prelude.{◌≡◌, ℕ, ◌≤◌, ◌<◌, length, get_or};
ghost use Rattle.std.proofs.lemmas.List.Edits.{sets};
ghost use Rattle.fixpoint.specs.Flags.{Decides};
ghost use Rattle.fixpoint.specs.Lowest.{Lowest};
ghost use Rattle.table_lines.specs.Line.{line_at};
ghost use Rattle.letters.specs.Shared.{Shared};
ghost use Rattle.letters.specs.Letters.{by_line, letters_of, outcome_of};
ghost use Rattle.letters.specs.Stored.{Stored};

use fixpoint::Found;
use reply::{Kind, Reply, refuse};
use table_lines::Line;

// The number of letters, A to Z.
pub const LETTERS: usize = 26;

// The token of a repeat, which no letter may have.
const REPEAT: usize = 4;

// Whether a letter's code is another's too, or that of a repeat.
fn is_shared(codes: &[usize], i: usize) -> bool
    requires { (length codes.now ≡ 26) × (i < 26) }
    ensures { Decides (Shared codes.now i) result }
{
    let code = codes[i];
    if code == 0 {
        return false;
    }
    if code == REPEAT {
        return true;
    }
    for (j, other) in codes.iter().enumerate() {
        if j != i && *other == code {
            return true;
        }
    }
    false
}

// The first letter whose code is shared.
fn find_shared(codes: &[usize]) -> Found
    requires { length codes.now ≡ 26 }
    ensures { Lowest (Shared codes.now) 0 26 result }
{
    for i in 0..LETTERS {
        if is_shared(codes, i) {
            return Found::At(i);
        }
    }
    Found::Nothing
}

// The codes of a letters book that is not too long. A refusal leaves `codes` free: a local of the door, not read then.
fn read_codes(book: &[u8], terminals: usize, codes: &mut [usize]) -> Reply
    requires { (length book.now ≤ 65536) × (terminals ≤ 63) × (length codes.old ≡ 26) }
    ensures { Stored (by_line terminals (length book.now) (line_at book.now 0)) result codes.new }
{
    let Line::Whole(letter, tally, next) = table_lines::read_line(book, 0, codes) else {
        return refuse(Kind::Malformed, 0);
    };
    if letter != b'L' {
        return refuse(Kind::Malformed, 0);
    }
    if tally.count != LETTERS {
        return refuse(Kind::Malformed, 0);
    }
    if 65535 < tally.largest {
        return refuse(Kind::LimitExceeded, 0);
    }
    if terminals < tally.largest {
        return refuse(Kind::Undeclared, 0);
    }
    if next < book.len() {
        return refuse(Kind::Malformed, next);
    }
    match find_shared(codes) {
        Found::At(i) => refuse(Kind::AmbiguousLetter, i),
        Found::Nothing => Reply::Accepted(0),
    }
}

// Copies the codes, as a byte each, to the start of a slice.
fn copy_codes(codes: &[usize], out: &mut [u8])
    requires { (length codes.now ≡ 26) × (26 ≤ length out.old) × ((i : ℕ) → get_or codes.now i 0 ≤ 63) }
    ensures { out.new ≡ sets out.old 0 codes.now }
{
    for (i, code) in codes.iter().enumerate() {
        out[i] = *code as u8;
    }
}

// Reads a letters book for a grammar of so many terminals: the reply, and in `codes` the codes of A to Z and then zeros. A refusal leaves
// zeros.
pub fn read_letters(book: &[u8], terminals: usize, codes: &mut [u8]) -> Reply
    ensures replied { result ≡ (outcome_of (letters_of terminals book.now) (length codes.old)).reply }
    ensures stored { codes.new ≡ (outcome_of (letters_of terminals book.now) (length codes.old)).codes }
{
    reply::clear(codes);
    if !range::in_range(1, terminals, 63) {
        return refuse(Kind::LimitExceeded, 0);
    }
    if 65536 < book.len() {
        return refuse(Kind::LimitExceeded, 0);
    }
    let mut numbers = [0usize; LETTERS];
    match read_codes(book, terminals, &mut numbers) {
        Reply::Refused(why) => Reply::Refused(why),
        Reply::Accepted(_) => {
            if codes.len() < LETTERS {
                return refuse(Kind::BufferTooSmall, 0);
            }
            copy_codes(&numbers, codes);
            Reply::Accepted(0)
        }
    }
}
