// The replies of every reader, builder and walker, and the zeroing of lent slices.
// The types, `number` and `place` are for whoever calls a door; the rest is inner.
#![tactic(auto)]

ghost use Rattle.std.specs.Prelude.{◌≡◌, length, replicate};
ghost use Rattle.reply.specs.Reply.{kind_number, number_of, place_of};

// Why something is refused. Each variant's comment has the word that the documents use for it.
#[derive(Clone, Copy, Debug, PartialEq, Eq)]
pub enum Kind {
    // torn
    Malformed,
    // oversize
    LimitExceeded,
    // stray
    Undeclared,
    // mark
    MisplacedMark,
    // barren
    Unproductive,
    // cut off
    Unreachable,
    // items
    ItemMismatch,
    // narrow
    MissingLookahead,
    // clash
    Conflict,
    // cell
    CellMismatch,
    // short slip
    BufferTooSmall,
    // wrong scan
    SyntaxError,
    // crossed
    ConflictingRepeat,
    // shared letter
    AmbiguousLetter,
}

// A refusal: its kind, and the place that the documents fix for it.
#[derive(Clone, Copy, Debug, PartialEq, Eq)]
pub struct Refusal {
    pub kind: Kind,
    pub place: usize,
}

// Accepted ("whole") carries the number of tokens read, and 0 where no token is read.
#[derive(Clone, Copy)]
pub enum Reply {
    Accepted(usize),
    Refused(Refusal),
}

// The number of a refusal's kind.
pub fn kind_number(kind: Kind) -> u64
    ensures { result ≡ kind_number kind }
{
    match kind {
        Kind::Malformed => 1,
        Kind::LimitExceeded => 2,
        Kind::Undeclared => 3,
        Kind::MisplacedMark => 4,
        Kind::Unproductive => 5,
        Kind::Unreachable => 6,
        Kind::ItemMismatch => 7,
        Kind::MissingLookahead => 8,
        Kind::Conflict => 9,
        Kind::CellMismatch => 10,
        Kind::BufferTooSmall => 11,
        Kind::SyntaxError => 12,
        Kind::ConflictingRepeat => 13,
        Kind::AmbiguousLetter => 14,
    }
}

// A reply's number.
pub fn number(reply: Reply) -> u64
    ensures { result ≡ number_of reply }
{
    match reply {
        Reply::Accepted(_) => 0,
        Reply::Refused(why) => kind_number(why.kind),
    }
}

// A reply's place.
pub fn place(reply: Reply) -> usize
    ensures { result ≡ place_of reply }
{
    match reply {
        Reply::Accepted(read) => read,
        Reply::Refused(why) => why.place,
    }
}

// The reply that refuses.
pub fn refuse(kind: Kind, place: usize) -> Reply
    ensures { result ≡ Reply.Refused (record { kind = kind; place = place }) }
{
    Reply::Refused(Refusal { kind, place })
}

// Sets every byte to 0.
pub fn clear(s: &mut [u8])
    ensures { s.new ≡ replicate (length s.old) 0 }
{
    s.fill(0);
}
