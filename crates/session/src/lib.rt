// A session of scans: both books are read and checked, then the tokens are walked.
// The door is `run_session`; `refuse`, `walk_machine` and `walk_books` are inner.
#![tactic(auto)]

ghost use Rattle.std.specs.Prelude.{◌≡◌, length};
ghost use Rattle.language.specs.Grammar.{Grammar};
ghost use Rattle.leftcorner.specs.Table.{Table};
ghost use Rattle.checker.specs.Checked.{checked_of};
ghost use Rattle.machine.specs.Machine.{Drives};
ghost use Rattle.session.specs.Session.{refused_by, table_session, session, Tells};
ghost use Rattle.session.specs.Read.{ReadIn, over_table, after_read};

use fixpoint::Found;
use reply::{Kind, Refusal, Reply, clear};
use walk_tables::Machine;
use walker::Tally;

// Accepted, with the tokens read, the rules listed and the units among them; or refused.
pub type SessionReply = Result<Tally, Refusal>;

// Refuses, with zeros in both slices.
pub fn refuse(why: Refusal, stack: &mut [u8], listing: &mut [u8]) -> SessionReply
    ensures { Tells (refused_by (length stack.old) (length listing.old) why) result stack.new listing.new }
{
    clear(stack);
    clear(listing);
    Err(why)
}

// Walks the tokens over a machine in memory. A stray token is refused first.
pub fn walk_machine(
    machine: &Machine,
    tokens: &[u8],
    stack: &mut [u8],
    listing: &mut [u8],
) -> SessionReply
    ensures { (g : Grammar) (t : Table) → Drives g t machine.now
        → Tells (table_session (length stack.old) (length listing.old) g t tokens.now) result stack.new listing.new }
{
    let stray = stray_tokens::find_stray(tokens, machine.terminals);
    if let Found::At(place) = stray {
        return refuse(
            Refusal {
                kind: Kind::Undeclared,
                place,
            },
            stack,
            listing,
        );
    }
    walker::walk_tokens(machine, tokens, stack, listing)
}

// By what reading the tokens came to: walks so many of them over a machine in memory, or refuses.
fn walk_read(
    machine: &Machine,
    read: Reply,
    tokens: &[u8],
    stack: &mut [u8],
    listing: &mut [u8],
) -> SessionReply
    requires { ReadIn read tokens.now }
    ensures { (g : Grammar) (t : Table) → Drives g t machine.now
        → Tells (over_table (length stack.old) (length listing.old) g t read tokens.now) result stack.new listing.new }
{
    match read {
        Reply::Refused(why) => refuse(why, stack, listing),
        Reply::Accepted(count) => walk_machine(machine, &tokens[..count], stack, listing),
    }
}

// Reads and checks both books. Where they are accepted, walks so many tokens as `read` tells, or refuses as it does.
pub fn walk_books(
    grammar: &[u8],
    tables: &[u8],
    read: Reply,
    tokens: &[u8],
    stack: &mut [u8],
    listing: &mut [u8],
) -> SessionReply
    requires { ReadIn read tokens.now }
    ensures { Tells (after_read (length stack.old) (length listing.old) (checked_of grammar.now tables.now) read tokens.now) result stack.new listing.new }
{
    let mut machine = Machine::zeros();
    let mut work = [0u8; machine::WORK];
    match machine::load_machine(grammar, tables, &mut machine, &mut work) {
        Err(why) => refuse(why, stack, listing),
        Ok(()) => walk_read(&machine, read, tokens, stack, listing),
    }
}

// A session: reads and checks both books, then walks the tokens. Accepted ("whole"), the listing slice has the rules in the order of
// the walk, then zeros; a refusal leaves zeros. The stack slice is lent for the walk, and is zeros after.
// What is promised of the session for books that are accepted is `demand3` (specs/Demand3.antt).
pub fn run_session(
    grammar: &[u8],
    tables: &[u8],
    tokens: &[u8],
    stack: &mut [u8],
    listing: &mut [u8],
) -> SessionReply
    ensures replied { result ≡ (session grammar.now tables.now tokens.now (length stack.old) (length listing.old)).reply }
    ensures listed { listing.new ≡ (session grammar.now tables.now tokens.now (length stack.old) (length listing.old)).listing }
    ensures cleared { stack.new ≡ (session grammar.now tables.now tokens.now (length stack.old) (length listing.old)).stack }
{
    if 65535 < tokens.len() {
        return refuse(
            Refusal {
                kind: Kind::LimitExceeded,
                place: 0,
            },
            stack,
            listing,
        );
    }
    walk_books(
        grammar,
        tables,
        Reply::Accepted(tokens.len()),
        tokens,
        stack,
        listing,
    )
}
