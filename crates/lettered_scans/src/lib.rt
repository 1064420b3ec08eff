// Scan files read through a bank's own letters.
// The door is `read_lettered`; `too_long` and `terminals_of` are inner, for sessions.
#![tactic(auto)]

ghost use Rattle.std.specs.Prelude.{◌≡◌, length};
ghost use Rattle.scans.specs.File.{outcome_of};
ghost use Rattle.lettered_scans.specs.Lettered.{lettered, too_long, terminals_in};

use grammar_header::HeaderLine;
use letters::LETTERS;
use reply::{Kind, Refusal, Reply};

// The most bytes that a book or a scan file has.
const LONGEST: usize = 65536;

// Whether a letters book or a scan file has more bytes than it may.
#[tactic(auto, unfolding(crate::specs::Lettered::too_long))]
pub fn too_long(letters: &[u8], file: &[u8]) -> bool
    ensures { result ≡ too_long letters.now file.now }
{
    LONGEST < letters.len() || LONGEST < file.len()
}

// The number of terminals in the first line of a grammar book, 0 where that is refused.
#[tactic(auto, unfolding(crate::specs::Lettered::terminals_in))]
pub fn terminals_of(grammar: &[u8]) -> usize
    ensures { result ≡ terminals_in grammar.now }
{
    match grammar_header::read_header(grammar) {
        HeaderLine::Read(heading, _) => heading.terminals,
        HeaderLine::Refused(_) => 0,
    }
}

// Reads a scan file through a letters book for so many terminals: the reply, and in `tokens` the token list and then zeros. A refusal
// leaves zeros.
pub fn read_lettered(letters: &[u8], terminals: usize, file: &[u8], tokens: &mut [u8]) -> Reply
    ensures replied { result ≡ (outcome_of (lettered terminals letters.now file.now) (length tokens.old)).reply }
    ensures stored { tokens.new ≡ (outcome_of (lettered terminals letters.now file.now) (length tokens.old)).tokens }
{
    if LONGEST < file.len() {
        let why = Refusal {
            kind: Kind::LimitExceeded,
            place: 0,
        };
        return scans::refuse_file(tokens, why);
    }
    let mut codes = [0u8; LETTERS];
    match letters::read_letters(letters, terminals, &mut codes) {
        Reply::Refused(why) => scans::refuse_file(tokens, why),
        Reply::Accepted(_) => scans::read_by(&codes, file, tokens),
    }
}
