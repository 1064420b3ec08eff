// What could have come: the codes that would have fitted where a session ends.
// The door is `list_expected`; `as_reply` and `code_count` are for whoever calls it, `refuse` and `list_books` are inner.
#![tactic(auto)]

ghost use Rattle.std.specs.Prelude.{◌≡◌, ◌++◌, suc, ◌≤◌, ◌<◌, length, take, replicate};
ghost use Rattle.language.specs.Grammar.{Grammar};
ghost use Rattle.leftcorner.specs.Table.{Table};
ghost use Rattle.checker.specs.Checked.{checked_of};
ghost use Rattle.walker.specs.Walked.{memory_walk};
ghost use Rattle.machine.specs.Machine.{Drives};
ghost use Rattle.table.specs.Book.{whole};
ghost use Rattle.session.specs.Session.{table_session};
ghost use Rattle.session.specs.Read.{ReadIn};
ghost use Rattle.expected_trial.specs.Trial.{as_tokens, trial_of};
ghost use Rattle.expected_trials.specs.Trials.{tried, refused_by, answered_at};
ghost use Rattle.expected.specs.Expected.{on_reply, list_for, expected, as_reply, code_count, Driven, Tells};
ghost use Rattle.expected.specs.Read.{over_table, after_read};

use expected_trials::ExpectedReply;
use reply::{Kind, Refusal, Reply, clear};
use walk_tables::Machine;

// The answer without its count.
pub fn as_reply(answer: ExpectedReply) -> Reply
    ensures { result ≡ as_reply answer }
{
    match answer {
        Ok(listed) => Reply::Accepted(listed.place),
        Err(why) => Reply::Refused(why),
    }
}

// The codes that stand in the list.
pub fn code_count(answer: ExpectedReply) -> usize
    ensures { result ≡ code_count answer }
{
    answer.map_or(0, |listed| listed.codes)
}

// Copies the first tokens, one by one: `copy_from_slice` would have the library for C ask for `memmove` from outside.
fn copy_front(tokens: &[u8], count: usize, out: &mut [u8])
    requires { (count ≤ length tokens.now) × (count ≤ length out.old) }
    ensures { take count out.new ≡ take count tokens.now }
{
    for i in 0..count {
        out[i] = tokens[i];
    }
}

// Lists the codes that could come after the first tokens. `trial` is lent for the tokens that are tried, and left free.
fn list_at(
    machine: &Machine,
    tokens: &[u8],
    place: usize,
    trial: &mut [u8],
    stack: &mut [u8],
    listing: &mut [u8],
    codes: &mut [u8],
) -> ExpectedReply
    requires { (place ≤ length tokens.now) × (place < length trial.old) × (machine.now.terminals ≤ 63) × (codes.old ≡ replicate (length codes.old) 0) }
    ensures { Tells (length stack.old) (length listing.old) (answered_at (length codes.old) place (tried (λ c. trial_of place (memory_walk machine.now (length stack.old) (length listing.old) (take place tokens.now ++ as_tokens c))) (suc machine.now.terminals) 0)) result stack.new listing.new codes.new }
{
    copy_front(tokens, place, trial);
    let answer = expected_trials::try_codes(machine, trial, place, stack, listing, codes);
    expected_trial::clear_walks(stack, listing);
    answer
}

// Walks the tokens over a machine in memory, and lists what could have come where the reply is 0 or 12.
fn list_machine(
    machine: &Machine,
    tokens: &[u8],
    trial: &mut [u8],
    stack: &mut [u8],
    listing: &mut [u8],
    codes: &mut [u8],
) -> ExpectedReply
    requires driven { Driven machine.now }
    requires tokens_in_bounds { (length tokens.now < length trial.old) × (codes.old ≡ replicate (length codes.old) 0) }
    ensures { (g : Grammar) (t : Table) → Drives g t machine.now
        → Tells (length stack.old) (length listing.old) (on_reply (length codes.old) (table_session (length stack.old) (length listing.old) g t tokens.now).reply (list_for (length codes.old) (length stack.old) (length listing.old) (whole g t) tokens.now)) result stack.new listing.new codes.new }
{
    match session::walk_machine(machine, tokens, stack, listing) {
        Ok(tally) => list_at(machine, tokens, tally.tokens, trial, stack, listing, codes),
        Err(why) => {
            if reply::kind_number(why.kind) != 12 {
                return Err(why);
            }
            list_at(machine, tokens, why.place, trial, stack, listing, codes)
        }
    }
}

// Refuses, with zeros in all slices.
pub fn refuse(why: Refusal, stack: &mut [u8], listing: &mut [u8], codes: &mut [u8]) -> ExpectedReply
    ensures { Tells (length stack.old) (length listing.old) (refused_by (length codes.old) why) result stack.new listing.new codes.new }
{
    expected_trial::clear_walks(stack, listing);
    clear(codes);
    Err(why)
}

// By what reading the tokens came to: walks so many of them over a machine in memory, and lists what could have come; or refuses.
fn list_read(
    machine: &Machine,
    read: Reply,
    tokens: &[u8],
    trial: &mut [u8],
    stack: &mut [u8],
    listing: &mut [u8],
    codes: &mut [u8],
) -> ExpectedReply
    requires driven { Driven machine.now }
    requires read_in { ReadIn read tokens.now }
    requires tokens_in_bounds { length tokens.now < length trial.old }
    ensures { (g : Grammar) (t : Table) → Drives g t machine.now
        → Tells (length stack.old) (length listing.old) (over_table (length stack.old) (length listing.old) (length codes.old) g t read tokens.now) result stack.new listing.new codes.new }
{
    match read {
        Reply::Refused(why) => refuse(why, stack, listing, codes),
        Reply::Accepted(count) => {
            clear(codes);
            list_machine(machine, &tokens[..count], trial, stack, listing, codes)
        }
    }
}

// Reads and checks both books. Where they are accepted, lists what could have come over so many tokens as `read` tells, or refuses as
// it does. The trials work where the loading has worked.
pub fn list_books(
    grammar: &[u8],
    tables: &[u8],
    read: Reply,
    tokens: &[u8],
    stack: &mut [u8],
    listing: &mut [u8],
    codes: &mut [u8],
) -> ExpectedReply
    requires read_in { ReadIn read tokens.now }
    requires tokens_len_bound { length tokens.now ≤ 65535 }
    ensures { Tells (length stack.old) (length listing.old) (after_read (length stack.old) (length listing.old) (length codes.old) (checked_of grammar.now tables.now) read tokens.now) result stack.new listing.new codes.new }
{
    let mut machine = Machine::zeros();
    let mut work = [0u8; machine::WORK];
    match machine::load_machine(grammar, tables, &mut machine, &mut work) {
        Err(why) => refuse(why, stack, listing, codes),
        Ok(()) => list_read(&machine, read, tokens, &mut work, stack, listing, codes),
    }
}

// What could have come: a session over both books and the tokens, and where its reply is 0 or 12 at a place, every code that could
// stand there, in rising order: 0 where the tokens before the place are a sentence already, and each terminal that after them begins
// one. The codes are in the list slice, then zeros; the stack and the listing slice are lent for the walks, and are zeros after. What is
// promised of the list is `Promise` (crate expected_promise).
pub fn list_expected(
    grammar: &[u8],
    tables: &[u8],
    tokens: &[u8],
    stack: &mut [u8],
    listing: &mut [u8],
    codes: &mut [u8],
) -> ExpectedReply
    ensures replied { result ≡ (expected grammar.now tables.now tokens.now (length stack.old) (length listing.old) (length codes.old)).reply }
    ensures coded { codes.new ≡ (expected grammar.now tables.now tokens.now (length stack.old) (length listing.old) (length codes.old)).codes }
    ensures unlisted { listing.new ≡ replicate (length listing.old) 0 }
    ensures cleared { stack.new ≡ replicate (length stack.old) 0 }
{
    if 65535 < tokens.len() {
        return refuse(
            Refusal {
                kind: Kind::LimitExceeded,
                place: 0,
            },
            stack,
            listing,
            codes,
        );
    }
    list_books(
        grammar,
        tables,
        Reply::Accepted(tokens.len()),
        tokens,
        stack,
        listing,
        codes,
    )
}
