// The first line of a table book.
// Inner: for `table`.
#![tactic(auto)]

ghost use Rattle.std.specs.Prelude.{◌≡◌, ◌<◌, length};
ghost use Rattle.table_head.specs.Head.{head_of};

use range::in_range;
use reply::{Kind, Refusal};
use table_lines::Line;

// The first line of a table book, with the position past it.
#[derive(Clone, Copy)]
pub enum Head {
    Read(usize, usize, usize),
    Refused(Refusal),
}

fn refuse_head(kind: Kind) -> Head
    ensures { result ≡ Head.Refused (record { kind = kind; place = 0 }) }
{
    Head::Refused(Refusal { kind, place: 0 })
}

// The first line, `T,states,entries`.
pub fn read_head(s: &[u8]) -> Head
    requires { length s.now < 65537 }
    ensures { result ≡ head_of s.now }
{
    let mut numbers = [0usize; 67];
    let Line::Whole(letter, p, next) = table_lines::read_line(s, 0, &mut numbers) else {
        return refuse_head(Kind::Malformed);
    };
    if letter != b'T' {
        return refuse_head(Kind::Malformed);
    }
    if p.count != 2 {
        return refuse_head(Kind::Malformed);
    }
    let states = numbers[0];
    let entries = numbers[1];
    if !in_range(1, states, 255) {
        return refuse_head(Kind::LimitExceeded);
    }
    if !in_range(1, entries, 127) {
        return refuse_head(Kind::LimitExceeded);
    }
    Head::Read(states, entries, next)
}
