// The calls on bytes for C and Rust (include/buraigue.h): each answers the reply's number, and puts its place, and what it counts, where
// references point.
// Each is a door.
#![tactic(auto)]

ghost use Rattle.std.specs.Prelude.{◌≡◌, length, replicate};
ghost use Rattle.grammar.specs.Memory.{as_reply, reply_of, read_of, memory_of};
ghost use Rattle.scans.specs.File.{scans_of, outcome_of};
ghost use Rattle.letters.specs.Letters.{letters_of};
ghost use Rattle.letters.specs.Letters as letters;
ghost use Rattle.lettered_scans.specs.Lettered.{lettered};
ghost use Rattle.checker.specs.Checked.{verdict_of};
ghost use Rattle.builder.specs.Build.{build_of};
ghost use Rattle.session.specs.Session.{session};
ghost use Rattle.scan_session.specs.ScanSession.{scan_session, lettered_session};
ghost use Rattle.expected.specs.Expected.{expected};
ghost use Rattle.generator.specs.Generated.{generated};
ghost use Rattle.listing_bound.specs.Bound.{bound_of};
ghost use Rattle.c_told.specs.Given.{ReplyGiven};
ghost use Rattle.buraigue_c.specs.Told.{SessionGiven, ExpectedTold, LoadTold, BoundTold};

use c_told::{tell_reply, tell_session};

// Reads a grammar book into the item table, as grammar::read_grammar.
#[unsafe(no_mangle)]
pub extern "C" fn buraigue_read_grammar(book: &[u8], items: &mut [u8], place: &mut u64) -> u64
    ensures told { ReplyGiven (as_reply (reply_of (read_of book.now (length items.old)))) result place.new }
    ensures stored { items.new ≡ memory_of (read_of book.now (length items.old)) (length items.old) }
{
    let reply = grammar::as_reply(grammar::read_grammar(book, items));
    tell_reply(reply, place)
}

// Reads a scan file, as scans::read_scans.
#[unsafe(no_mangle)]
pub extern "C" fn buraigue_read_scans(file: &[u8], tokens: &mut [u8], place: &mut u64) -> u64
    ensures told { ReplyGiven (scans_of file.now (length tokens.old)).reply result place.new }
    ensures stored { tokens.new ≡ (scans_of file.now (length tokens.old)).tokens }
{
    let reply = scans::read_scans(file, tokens);
    tell_reply(reply, place)
}

// Reads a letters book for so many terminals, as letters::read_letters.
#[unsafe(no_mangle)]
pub extern "C" fn buraigue_read_letters(
    book: &[u8],
    terminals: usize,
    codes: &mut [u8],
    place: &mut u64,
) -> u64
    ensures told { ReplyGiven (letters.outcome_of (letters_of terminals book.now) (length codes.old)).reply result place.new }
    ensures stored { codes.new ≡ (letters.outcome_of (letters_of terminals book.now) (length codes.old)).codes }
{
    let reply = letters::read_letters(book, terminals, codes);
    tell_reply(reply, place)
}

// Reads a scan file through a letters book, as lettered_scans::read_lettered.
#[unsafe(no_mangle)]
pub extern "C" fn buraigue_read_lettered(
    letters: &[u8],
    terminals: usize,
    file: &[u8],
    tokens: &mut [u8],
    place: &mut u64,
) -> u64
    ensures told { ReplyGiven (outcome_of (lettered terminals letters.now file.now) (length tokens.old)).reply result place.new }
    ensures stored { tokens.new ≡ (outcome_of (lettered terminals letters.now file.now) (length tokens.old)).tokens }
{
    let reply = lettered_scans::read_lettered(letters, terminals, file, tokens);
    tell_reply(reply, place)
}

// Checks a table book against its grammar book, as checker::check_tables.
#[unsafe(no_mangle)]
pub extern "C" fn buraigue_check_tables(grammar: &[u8], book: &[u8], place: &mut u64) -> u64
    ensures told { ReplyGiven (verdict_of grammar.now book.now) result place.new }
{
    let reply = checker::check_tables(grammar, book);
    tell_reply(reply, place)
}

// Builds the table book of a grammar book, as builder::build_tables.
#[unsafe(no_mangle)]
pub extern "C" fn buraigue_build_tables(
    grammar: &[u8],
    book: &mut [u8],
    place: &mut u64,
    size: &mut u64,
) -> u64
    ensures told { ReplyGiven (build_of grammar.now (length book.old)).reply result place.new }
    ensures counted { size.new ≡ (build_of grammar.now (length book.old)).length }
    ensures written { book.new ≡ (build_of grammar.now (length book.old)).slice }
{
    let built = builder::build_tables(grammar, book);
    *size = built.length as u64;
    let reply = built.reply;
    tell_reply(reply, place)
}

// A session, as session::run_session.
#[unsafe(no_mangle)]
pub extern "C" fn buraigue_run_session(
    grammar: &[u8],
    tables: &[u8],
    tokens: &[u8],
    stack: &mut [u8],
    listing: &mut [u8],
    place: &mut u64,
    rules: &mut u64,
    units: &mut u64,
) -> u64
    ensures { SessionGiven (session grammar.now tables.now tokens.now (length stack.old) (length listing.old)) result place.new rules.new units.new stack.new listing.new }
{
    let answer = session::run_session(grammar, tables, tokens, stack, listing);
    tell_session(answer, place, rules, units)
}

// A session over a scan file, as scan_session::run_scans.
#[unsafe(no_mangle)]
pub extern "C" fn buraigue_run_scans(
    grammar: &[u8],
    tables: &[u8],
    file: &[u8],
    stack: &mut [u8],
    listing: &mut [u8],
    place: &mut u64,
    rules: &mut u64,
    units: &mut u64,
) -> u64
    ensures { SessionGiven (scan_session grammar.now tables.now file.now (length stack.old) (length listing.old)) result place.new rules.new units.new stack.new listing.new }
{
    let answer = scan_session::run_scans(grammar, tables, file, stack, listing);
    tell_session(answer, place, rules, units)
}

// A session over a scan file with a bank's own letters, as scan_session::run_lettered.
#[unsafe(no_mangle)]
pub extern "C" fn buraigue_run_lettered(
    grammar: &[u8],
    tables: &[u8],
    letters: &[u8],
    file: &[u8],
    stack: &mut [u8],
    listing: &mut [u8],
    place: &mut u64,
    rules: &mut u64,
    units: &mut u64,
) -> u64
    ensures { SessionGiven (lettered_session grammar.now tables.now letters.now file.now (length stack.old) (length listing.old)) result place.new rules.new units.new stack.new listing.new }
{
    let answer = scan_session::run_lettered(grammar, tables, letters, file, stack, listing);
    tell_session(answer, place, rules, units)
}

// What could have come, as expected::list_expected.
#[unsafe(no_mangle)]
pub extern "C" fn buraigue_list_expected(
    grammar: &[u8],
    tables: &[u8],
    tokens: &[u8],
    stack: &mut [u8],
    listing: &mut [u8],
    codes: &mut [u8],
    place: &mut u64,
    count: &mut u64,
) -> u64
    ensures expected_told { ExpectedTold (expected grammar.now tables.now tokens.now (length stack.old) (length listing.old) (length codes.old)) result place.new count.new codes.new }
    ensures stack_after { (stack.new ≡ replicate (length stack.old) 0) × (listing.new ≡ replicate (length listing.old) 0) }
{
    let answer = expected::list_expected(grammar, tables, tokens, stack, listing, codes);
    *count = expected::code_count(answer) as u64;
    tell_reply(expected::as_reply(answer), place)
}

// A test load, as generator::make_load.
#[unsafe(no_mangle)]
pub extern "C" fn buraigue_make_load(
    grammar: &[u8],
    seed: u32,
    depth: usize,
    tokens: &mut [u8],
    listing: &mut [u8],
    place: &mut u64,
    count: &mut u64,
    rules: &mut u64,
) -> u64
    ensures { LoadTold (generated (length tokens.old) (length listing.old) grammar.now seed depth) result place.new count.new rules.new tokens.new listing.new }
{
    let answer = generator::make_load(grammar, seed, depth, tokens, listing);
    *count = generator::token_count(answer) as u64;
    *rules = generator::rule_count(answer) as u64;
    tell_reply(generator::as_reply(answer), place)
}

// How long a listing can be, as listing_bound::bound_listing.
#[unsafe(no_mangle)]
pub extern "C" fn buraigue_bound_listing(
    grammar: &[u8],
    scans: usize,
    place: &mut u64,
    rules: &mut u64,
    unbounded: &mut u64,
) -> u64
    ensures { BoundTold (bound_of grammar.now scans) result place.new rules.new unbounded.new }
{
    let answer = listing_bound::bound_listing(grammar, scans);
    *rules = listing_bound::rule_count(answer) as u64;
    *unbounded = listing_bound::is_unbounded(answer) as u64;
    tell_reply(listing_bound::as_reply(answer), place)
}
