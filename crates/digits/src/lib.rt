// Numbers that stand in a book as digits, compared as the whole numbers they are, however long.
// Inner: for the readers of table lines.
#![tactic(auto)]

ghost use Rattle.std.specs.Prelude.{◌≡◌, ◌≤◌, ltb};
ghost use Rattle.digits.specs.Exact.{exact_at};
ghost use Rattle.digits.specs.Compare.{digit_at, order_with, ends_below};

// How one number stands to another, by the digits that were read of both.
#[derive(Clone, Copy)]
pub enum Order {
    Less,
    Equal,
    Greater,
}

// The digit at i, 10 where there is none.
#[tactic(auto, using(text::proofs::Bytes::here, text::proofs::Bytes::past), unfolding(crate::specs::Compare::digit_at, text::specs::Field::class_of, range::specs::Range::within))]
fn digit_at(s: &[u8], i: usize) -> usize
    ensures { result ≡ digit_at s.now i }
{
    match s.get(i) {
        Some(b @ b'0'..=b'9') => (*b - b'0') as usize,
        _ => 10,
    }
}

// With one digit more of each number: the first that differs decides.
fn order_with(o: Order, x: usize, y: usize) -> Order
    ensures { result ≡ order_with o x y }
{
    match o {
        Order::Equal if x < y => Order::Less,
        Order::Equal if y < x => Order::Greater,
        _ => o,
    }
}

// Whether a number that has ended is below one that goes on with y, or has ended too where y is no digit.
#[tactic(auto, unfolding(crate::specs::Compare::ends_below))]
fn ends_below(o: Order, y: usize) -> bool
    ensures { result ≡ ends_below o y }
{
    y < 10 || matches!(o, Order::Less)
}

// Whether the number at a is below the number at b, where neither begins with 0: the one with more digits is larger,
// else the first digit that differs decides.
pub fn is_below(s: &[u8], a: usize, b: usize) -> bool
    requires { (1 ≤ digit_at s.now a) × (1 ≤ digit_at s.now b) }
    ensures { result ≡ ltb (exact_at s.now a) (exact_at s.now b) }
{
    // Stays a counted loop: two cursors move together, and where the first number ends, the next digit of the other decides.
    let mut i = a;
    let mut j = b;
    let mut o = Order::Equal;
    loop {
        let x = digit_at(s, i);
        let y = digit_at(s, j);
        if 9 < x {
            return ends_below(o, y);
        }
        if 9 < y {
            return false;
        }
        o = order_with(o, x, y);
        i += 1;
        j += 1;
    }
}
