// The book of a table in memory, and the reply to whoever asked for it.
// Inner: for `builder`.
#![tactic(auto)]

ghost use Rattle.std.specs.Prelude.{◌≡◌, ◌+◌, length, replicate};
ghost use Rattle.build_writer.specs.MemoryTable.{memory_text, WriterRoom};
ghost use Rattle.build_reply.specs.Reply.{refused_by, Writes};

use reply::{Kind, Refusal, Reply};
use table::Counts;

// The reply, and how many bytes of the slice the book takes: 0 after a refusal.
#[derive(Clone, Copy)]
pub struct BuildReply {
    pub reply: Reply,
    pub length: usize,
}

// A refusal, of no book.
pub fn refused(why: Refusal) -> BuildReply
    ensures { result ≡ refused_by why }
{
    BuildReply {
        reply: Reply::Refused(why),
        length: 0,
    }
}

// Writes the book of the table in memory into a slice of zeros, or refuses it for its length.
pub fn write_book(
    items: &[u8],
    entries: &[u8],
    kernels: &[u8],
    lookaheads: &[u8],
    kinds: &[u8],
    values: &[u8],
    gotos: &[u8],
    counts: Counts,
    out: &mut [u8],
) -> BuildReply
    requires writer_room { WriterRoom items.now entries.now kernels.now lookaheads.now kinds.now values.now gotos.now counts.grammar.rules counts.entries counts.kernels counts.states (counts.grammar.terminals + 1) }
    requires out_value { out.old ≡ replicate (length out.old) 0 }
    ensures { Writes (memory_text items.now entries.now kernels.now lookaheads.now kinds.now values.now gotos.now counts.grammar.rules counts.entries counts.kernels counts.states (counts.grammar.terminals + 1)) (length out.old) result out.new }
{
    let n = build_writer::write_table(
        items, entries, kernels, lookaheads, kinds, values, gotos, counts, out,
    );
    if 65536 < n {
        reply::clear(out);
        return refused(Refusal {
            kind: Kind::LimitExceeded,
            place: 0,
        });
    }
    if out.len() < n {
        reply::clear(out);
        return refused(Refusal {
            kind: Kind::BufferTooSmall,
            place: 0,
        });
    }
    BuildReply {
        reply: Reply::Accepted(0),
        length: n,
    }
}
