// A session over a scan file.
// The doors are `run_scans`, with the house letters, and `run_lettered`, with a bank's own.
#![tactic(auto)]

ghost use Rattle.std.specs.Prelude.{◌≡◌, ◌≤◌, length};
ghost use Rattle.scans.specs.File.{scanned, house};
ghost use Rattle.checker.specs.Checked.{checked_of};
ghost use Rattle.session.specs.Session.{Tells};
ghost use Rattle.scan_session.specs.ScanSession.{after_scans, scan_session, after_letters, lettered_session};

use reply::{Kind, Refusal};
use scans::TOKENS;
use session::SessionReply;

// Reads a scan file that is not too long. Its tokens, or its refusal, come after the books.
fn walk_scans(
    grammar: &[u8],
    tables: &[u8],
    file: &[u8],
    stack: &mut [u8],
    listing: &mut [u8],
) -> SessionReply
    requires { length file.now ≤ 65536 }
    ensures { Tells (after_scans (length stack.old) (length listing.old) grammar.now tables.now (scanned house file.now)) result stack.new listing.new }
{
    let mut tokens = [0u8; TOKENS];
    let read = scans::read_scans(file, &mut tokens);
    session::walk_books(grammar, tables, read, &tokens, stack, listing)
}

// A session over a scan file with the house letters: reads and checks both books, reads the scans, then walks their tokens. What is
// left in both slices is as for `session::run_session`.
pub fn run_scans(
    grammar: &[u8],
    tables: &[u8],
    file: &[u8],
    stack: &mut [u8],
    listing: &mut [u8],
) -> SessionReply
    ensures replied { result ≡ (scan_session grammar.now tables.now file.now (length stack.old) (length listing.old)).reply }
    ensures listed { listing.new ≡ (scan_session grammar.now tables.now file.now (length stack.old) (length listing.old)).listing }
    ensures cleared { stack.new ≡ (scan_session grammar.now tables.now file.now (length stack.old) (length listing.old)).stack }
{
    if 65536 < file.len() {
        return session::refuse(
            Refusal {
                kind: Kind::LimitExceeded,
                place: 0,
            },
            stack,
            listing,
        );
    }
    walk_scans(grammar, tables, file, stack, listing)
}

// Reads a scan file through a letters book. Its tokens, or the refusal of either, come after the books.
fn walk_lettered(
    grammar: &[u8],
    tables: &[u8],
    letters: &[u8],
    file: &[u8],
    stack: &mut [u8],
    listing: &mut [u8],
) -> SessionReply
    ensures { Tells (after_letters (length stack.old) (length listing.old) grammar.now tables.now (checked_of grammar.now tables.now) letters.now file.now) result stack.new listing.new }
{
    let mut tokens = [0u8; TOKENS];
    let terminals = lettered_scans::terminals_of(grammar);
    let read = lettered_scans::read_lettered(letters, terminals, file, &mut tokens);
    session::walk_books(grammar, tables, read, &tokens, stack, listing)
}

// A session over a scan file with a bank's own letters: reads and checks both books, reads the letters book and the scans through it,
// then walks their tokens. What is left in both slices is as for `session::run_session`.
pub fn run_lettered(
    grammar: &[u8],
    tables: &[u8],
    letters: &[u8],
    file: &[u8],
    stack: &mut [u8],
    listing: &mut [u8],
) -> SessionReply
    ensures replied { result ≡ (lettered_session grammar.now tables.now letters.now file.now (length stack.old) (length listing.old)).reply }
    ensures listed { listing.new ≡ (lettered_session grammar.now tables.now letters.now file.now (length stack.old) (length listing.old)).listing }
    ensures cleared { stack.new ≡ (lettered_session grammar.now tables.now letters.now file.now (length stack.old) (length listing.old)).stack }
{
    if lettered_scans::too_long(letters, file) {
        return session::refuse(
            Refusal {
                kind: Kind::LimitExceeded,
                place: 0,
            },
            stack,
            listing,
        );
    }
    walk_lettered(grammar, tables, letters, file, stack, listing)
}
