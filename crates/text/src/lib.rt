// Fields of books: what stands at a cursor, up to the comma or the LF that ends it.
// Inner: for the readers of lines.
#![tactic(auto)]

ghost use Rattle.std.specs.Prelude.{◌≡◌, ◌≤◌, ◌+◌, ◌*◌, drop, leb};
ghost use Rattle.text.specs.Field.{class_of, end_of, add_digit, closed, digits_from, field_at};
ghost use Rattle.text.specs.Inner.{summed, Saturated, single_of};

// A place in a line: the next byte, and whether the line's LF has been passed.
#[derive(Clone, Copy)]
pub struct Cursor {
    pub at: usize,
    pub ended: bool,
}

// The classes of the bytes that fields are made of.
#[derive(Clone, Copy)]
pub enum Class {
    Digit,
    Letter,
    Mark,
    Other,
}

// The end of a field: the cursor past a comma or an LF, or neither of them.
#[derive(Clone, Copy)]
pub enum End {
    Past(Cursor),
    Missing,
}

// A field with the cursor past its end. Every number above 65,535 is 65,536.
#[derive(Clone, Copy)]
pub enum Field {
    Number(usize, Cursor),
    Mark(u8, Cursor),
    Letter(u8, Cursor),
    Broken,
}

// A number as far as its digits are read, in 16 bits: itself, or 65,535 and that it is above.
#[derive(Clone, Copy)]
struct Sum {
    value: u16,
    above: bool,
}

#[tactic(auto, unfolding(crate::specs::Field::class_of, range::specs::Range::within))]
fn classify(b: u8) -> Class
    ensures { result ≡ class_of b }
{
    match b {
        b'0'..=b'9' => Class::Digit,
        b'A'..=b'Z' => Class::Letter,
        b'^' | b'/' => Class::Mark,
        _ => Class::Other,
    }
}

// What ends a field at `at`.
#[tactic(auto, unfolding(crate::specs::Field::end_of), using(crate::proofs::Bytes::here, crate::proofs::Bytes::past))]
pub fn end_at(s: &[u8], at: usize) -> End
    ensures { result ≡ end_of (drop at s.now) at }
{
    match s.get(at) {
        Some(b',') => End::Past(Cursor {
            at: at + 1,
            ended: false,
        }),
        Some(b'\n') => End::Past(Cursor {
            at: at + 1,
            ended: true,
        }),
        _ => End::Missing,
    }
}

// Whether v with the digit d behind it is at most 65,535, which is 6,553 with a 5 behind it.
fn fits(v: u16, d: u16) -> bool
    requires { d ≤ 9 }
    ensures { result ≡ leb (v * 10 + d) 65535 }
{
    v < 6553 || v == 6553 && d <= 5
}

// A number with one digit more. Above 65,535 no digit fits, so it stays above.
#[tactic(auto, unfolding(crate::specs::Field::add_digit))]
fn add_digit(n: Sum, b: u8) -> Sum
    requires saturated { Saturated n }
    requires le_b { (48 ≤ b) × (b ≤ 57) }
    ensures { Saturated result × (summed result ≡ add_digit (summed n) b) }
{
    let v = n.value;
    let d = (b - b'0') as u16;
    if fits(v, d) {
        Sum {
            value: v * 10 + d,
            above: false,
        }
    } else {
        Sum {
            value: 65535,
            above: true,
        }
    }
}

fn number(n: Sum, e: End) -> Field
    ensures { result ≡ closed (Field.Number (summed n)) e }
{
    let End::Past(c) = e else {
        return Field::Broken;
    };
    if n.above {
        Field::Number(65536, c)
    } else {
        Field::Number(n.value as usize, c)
    }
}

// A number of which `first` is read, from `at` on.
#[tactic(auto, using(crate::proofs::NumberLaws::one_more, crate::proofs::NumberLaws::no_more, crate::proofs::NumberLaws::none_left))]
fn digits(s: &[u8], at: usize, first: Sum) -> Field
    requires { Saturated first }
    ensures { result ≡ digits_from (drop at s.now) at (summed first) }
{
    let mut n = first;
    for i in at..s.len() {
        match s[i] {
            b @ b'0'..=b'9' => n = add_digit(n, b),
            _ => return number(n, end_at(s, i)),
        }
    }
    Field::Broken
}

// A field of one byte, which is no digit but 0.
fn single(b: u8, e: End) -> Field
    ensures { result ≡ closed (single_of (class_of b) b) e }
{
    let End::Past(c) = e else {
        return Field::Broken;
    };
    match classify(b) {
        Class::Digit => Field::Number(0, c),
        Class::Letter => Field::Letter(b, c),
        Class::Mark => Field::Mark(b, c),
        Class::Other => Field::Broken,
    }
}

// The field at a cursor. Past the line's LF there is none. Small enough to be compiled into the loops over fields: with a few
// instructions more it is called there, and reading takes half as long again (docs/BENCHMARKS.md).
#[tactic(auto, using(crate::proofs::FieldLaws::line_over, crate::proofs::FieldLaws::book_over, crate::proofs::FieldLaws::by_digits, crate::proofs::FieldLaws::by_single))]
pub fn read_field(s: &[u8], c: Cursor) -> Field
    ensures { result ≡ field_at s.now c }
{
    if c.ended || s.len() <= c.at {
        return Field::Broken;
    }
    match s[c.at] {
        b @ b'1'..=b'9' => {
            let first = Sum {
                value: (b - b'0') as u16,
                above: false,
            };
            digits(s, c.at + 1, first)
        }
        b => single(b, end_at(s, c.at + 1)),
    }
}
