// The order of a table book's lines: a line is compared with the one before it.
// Inner: for the readers of table books.
#![tactic(auto)]

ghost use Rattle.std.specs.Prelude.{◌≡◌, ◌≤◌, length};
ghost use Rattle.table_order.specs.Order.{below};
ghost use Rattle.table_order.specs.Last.{is_after};

// Whether the key `last` is below the numbers that a line begins with.
fn is_below(last: &[usize], numbers: &[usize]) -> bool
    requires { length last.now ≤ length numbers.now }
    ensures { result ≡ below last.now numbers.now }
{
    for (x, y) in last.iter().zip(numbers) {
        if x != y {
            return x < y;
        }
    }
    false
}

// Whether a line that begins with these numbers may come after so many lines, of which `last` is the last one's key.
pub fn is_after(lines: usize, last: &[usize], numbers: &[usize]) -> bool
    requires { length last.now ≤ length numbers.now }
    ensures { result ≡ is_after lines last.now numbers.now }
{
    lines == 0 || is_below(last, numbers)
}
