// What could have come over a scan file.
// The doors are `list_expected_scans`, with the house letters, and `list_expected_lettered`, with a bank's own.
#![tactic(auto)]

ghost use Rattle.std.specs.Prelude.{◌≡◌, ◌≤◌, length, replicate};
ghost use Rattle.scans.specs.File.{scanned, house};
ghost use Rattle.checker.specs.Checked.{checked_of};
ghost use Rattle.expected.specs.Expected.{Tells};
ghost use Rattle.expected_scans.specs.ExpectedScans.{after_scans, expected_scans, after_letters, expected_lettered};

use expected_trials::ExpectedReply;
use reply::{Kind, Refusal};
use scans::TOKENS;

// Reads a scan file that is not too long. Its tokens, or its refusal, come after the books.
fn list_scans(
    grammar: &[u8],
    tables: &[u8],
    file: &[u8],
    stack: &mut [u8],
    listing: &mut [u8],
    codes: &mut [u8],
) -> ExpectedReply
    requires { length file.now ≤ 65536 }
    ensures { Tells (length stack.old) (length listing.old) (after_scans (length stack.old) (length listing.old) (length codes.old) grammar.now tables.now (scanned house file.now)) result stack.new listing.new codes.new }
{
    let mut tokens = [0u8; TOKENS];
    let read = scans::read_scans(file, &mut tokens);
    expected::list_books(grammar, tables, read, &tokens, stack, listing, codes)
}

// What could have come after the scans of a file with the house letters, as `expected::list_expected` tells it of their tokens.
pub fn list_expected_scans(
    grammar: &[u8],
    tables: &[u8],
    file: &[u8],
    stack: &mut [u8],
    listing: &mut [u8],
    codes: &mut [u8],
) -> ExpectedReply
    ensures replied { result ≡ (expected_scans grammar.now tables.now file.now (length stack.old) (length listing.old) (length codes.old)).reply }
    ensures coded { codes.new ≡ (expected_scans grammar.now tables.now file.now (length stack.old) (length listing.old) (length codes.old)).codes }
    ensures unlisted { listing.new ≡ replicate (length listing.old) 0 }
    ensures cleared { stack.new ≡ replicate (length stack.old) 0 }
{
    if 65536 < file.len() {
        return expected::refuse(
            Refusal {
                kind: Kind::LimitExceeded,
                place: 0,
            },
            stack,
            listing,
            codes,
        );
    }
    list_scans(grammar, tables, file, stack, listing, codes)
}

// Reads a scan file through a letters book. Its tokens, or the refusal of either, come after the books.
fn list_lettered(
    grammar: &[u8],
    tables: &[u8],
    letters: &[u8],
    file: &[u8],
    stack: &mut [u8],
    listing: &mut [u8],
    codes: &mut [u8],
) -> ExpectedReply
    ensures { Tells (length stack.old) (length listing.old) (after_letters (length stack.old) (length listing.old) (length codes.old) grammar.now tables.now (checked_of grammar.now tables.now) letters.now file.now) result stack.new listing.new codes.new }
{
    let mut tokens = [0u8; TOKENS];
    let terminals = lettered_scans::terminals_of(grammar);
    let read = lettered_scans::read_lettered(letters, terminals, file, &mut tokens);
    expected::list_books(grammar, tables, read, &tokens, stack, listing, codes)
}

// What could have come after the scans of a file with a bank's own letters, as `expected::list_expected` tells it of their tokens.
pub fn list_expected_lettered(
    grammar: &[u8],
    tables: &[u8],
    letters: &[u8],
    file: &[u8],
    stack: &mut [u8],
    listing: &mut [u8],
    codes: &mut [u8],
) -> ExpectedReply
    ensures replied { result ≡ (expected_lettered grammar.now tables.now letters.now file.now (length stack.old) (length listing.old) (length codes.old)).reply }
    ensures coded { codes.new ≡ (expected_lettered grammar.now tables.now letters.now file.now (length stack.old) (length listing.old) (length codes.old)).codes }
    ensures unlisted { listing.new ≡ replicate (length listing.old) 0 }
    ensures cleared { stack.new ≡ replicate (length stack.old) 0 }
{
    if lettered_scans::too_long(letters, file) {
        return expected::refuse(
            Refusal {
                kind: Kind::LimitExceeded,
                place: 0,
            },
            stack,
            listing,
            codes,
        );
    }
    list_lettered(grammar, tables, letters, file, stack, listing, codes)
}
