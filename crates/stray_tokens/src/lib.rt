// The first of a session's tokens that is no terminal.
// Inner: for `session`.
#![tactic(auto)]

ghost use Rattle.std.specs.Prelude.{◌≡◌, ◌<◌, ◌≤◌};
ghost use Rattle.stray_tokens.specs.Stray.{stray_from, Spans};

use fixpoint::Found;
use symbol::Symbol;

// The least and the greatest of some tokens; of none, the greatest byte and the least.
#[derive(Clone, Copy)]
struct Span {
    least: u8,
    most: u8,
}

// Looks at every token and leaves nowhere early, so that many are looked at in one instruction.
fn span_of(tokens: &[u8]) -> Span
    ensures { Spans tokens.now result.least result.most }
{
    let mut least = 255u8;
    let mut most = 0u8;
    for token in tokens {
        least = least.min(*token);
        most = most.max(*token);
    }
    Span { least, most }
}

// The same as `find_stray`, token by token.
fn first_stray(tokens: &[u8], terminals: usize) -> Found
    ensures { result ≡ stray_from terminals 0 tokens.now }
{
    for (i, code) in tokens.iter().enumerate() {
        let token = Symbol {
            code: *code as usize,
        };
        if !token.is_terminal(terminals) {
            return Found::At(i);
        }
    }
    Found::Nothing
}

// The index of the first token that is no terminal. Where the least and the greatest are terminals, so are all.
pub fn find_stray(tokens: &[u8], terminals: usize) -> Found
    ensures { result ≡ stray_from terminals 0 tokens.now }
{
    let all = span_of(tokens);
    let least = Symbol {
        code: all.least as usize,
    };
    let most = Symbol {
        code: all.most as usize,
    };
    if least.is_terminal(terminals) && most.is_terminal(terminals) {
        return Found::Nothing;
    }
    first_stray(tokens, terminals)
}
