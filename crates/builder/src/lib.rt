// The builder: the construction's table book of a grammar book.
// The door is `build_tables`.
#![tactic(auto)]

ghost use Rattle.std.specs.Prelude.{◌≡◌, ◌≤◌, length};
ghost use Rattle.builder.specs.Build.{build_of};

use build_memory::Built;
use build_reply::{BuildReply, refused};
use reply::{Kind, Refusal};

// Builds the table book of a grammar book. A refusal leaves zeros.
pub fn build_tables(grammar: &[u8], out: &mut [u8]) -> BuildReply
    ensures replied { result.reply ≡ (build_of grammar.now (length out.old)).reply }
    ensures counted { result.length ≡ (build_of grammar.now (length out.old)).length }
    ensures written { out.new ≡ (build_of grammar.now (length out.old)).slice }
    ensures fits { result.length ≤ length out.old }
{
    reply::clear(out);
    let mut items = [0u8; table::ITEMS];
    let mut entries = [0u8; table::ENTRY_STATES];
    let mut kernels = [0u8; table::KERNELS];
    let mut lookaheads = [0u8; table::LOOKAHEADS];
    let mut kinds = [0u8; table::CELLS];
    let mut values = [0u8; table::CELLS];
    let mut gotos = [0u8; table::CELLS];
    let built = build_memory::build(
        grammar,
        &mut items,
        &mut entries,
        &mut kernels,
        &mut lookaheads,
        &mut kinds,
        &mut values,
        &mut gotos,
    );
    match built {
        Built::Refused(why) => refused(why),
        Built::TooLarge => refused(Refusal {
            kind: Kind::LimitExceeded,
            place: 0,
        }),
        Built::Conflict(q, _) => refused(Refusal {
            kind: Kind::Conflict,
            place: q,
        }),
        Built::Table(counts) => build_reply::write_book(
            &items,
            &entries,
            &kernels,
            &lookaheads,
            &kinds,
            &values,
            &gotos,
            counts,
            out,
        ),
    }
}
