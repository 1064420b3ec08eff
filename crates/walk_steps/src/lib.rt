// The steps of the walk: a shift, an announce and a pop, each from a position in memory to what comes of it.
// Inner: for the walker.
#![tactic(auto)]

ghost use Rattle.std.specs.Prelude.{◌≡◌, ◌<◌, ◌≤◌, length, get_or};
ghost use Rattle.language.specs.First.{next};
ghost use Rattle.walk_stack.specs.Stack.{tops};
ghost use Rattle.walk_steps.specs.Turn.{lowered_to, Shifts, Announces, Pops};

use symbol::Symbol;
use walk_stack::Top;
use walk_tables::Machine;

// Where a walk stands: the states on its stack, the tokens taken, the rules announced and the units among them; the state
// on top and the next code are kept beside.
#[derive(Clone, Copy)]
pub struct Position {
    pub height: usize,
    pub taken: usize,
    pub listed: usize,
    pub units: usize,
    pub top: u8,
    pub code: u8,
}

// What a step comes to: the next position, or an end of the walk at this one. A step is short that outgrows a slice.
#[derive(Clone, Copy)]
pub enum Turn {
    On(Position),
    Whole,
    Wrong,
    Short,
}

// The next token, or 0 past the last.
pub fn code_at(tokens: &[u8], at: usize) -> u8
    ensures { result ≡ get_or tokens.now at 0 }
{
    tokens.get(at).copied().unwrap_or(0)
}

// Pushes the next state and takes a token.
pub fn shift(tokens: &[u8], stack: &mut [u8], next: u8, p: Position) -> Turn
    requires { p.taken ≤ length tokens.now }
    ensures { Shifts tokens.now stack.old next p result stack.new }
{
    if p.code as usize == Symbol::END {
        return Turn::Wrong;
    }
    if stack.len() <= p.height {
        return Turn::Short;
    }
    stack[p.height] = next;
    let taken = p.taken + 1;
    Turn::On(Position {
        height: p.height + 1,
        taken,
        top: next,
        code: code_at(tokens, taken),
        ..p
    })
}

// Lists the rule, pops a state for each symbol left of its recognition point, and pushes the goto and the groups.
pub fn announce(
    machine: &Machine,
    stack: &mut [u8],
    listing: &mut [u8],
    rule: u8,
    p: Position,
) -> Turn
    requires { (p.height ≤ length stack.old) × (p.units ≤ p.listed) × (p.top ≡ next (tops stack.old p.height) 0) }
    ensures { Announces machine.now stack.old listing.old rule p result stack.new listing.new }
{
    if rule == 0 {
        return Turn::Wrong;
    }
    let pops = machine.figure(rule, 0) as usize;
    if p.height <= pops {
        return Turn::Wrong;
    }
    if listing.len() <= p.listed {
        return Turn::Short;
    }
    let groups = machine.figure(rule, 3) as usize;
    let base = walk_stack::uncovered(
        stack,
        pops,
        Top {
            height: p.height,
            state: p.top,
        },
    );
    if stack.len() <= base.height + groups {
        return Turn::Short;
    }
    listing[p.listed] = rule;
    let unit = machine.figure(rule, 2) % 2;
    let top = walk_stack::push_rule(machine, rule, groups, stack, base);
    Turn::On(Position {
        height: top.height,
        listed: p.listed + 1,
        units: p.units + unit as usize,
        top: top.state,
        ..p
    })
}

// The position with the stack lowered.
fn lowered(stack: &[u8], height: usize, p: Position) -> Turn
    requires { (0 < height) × (height ≤ length stack.now) }
    ensures { result ≡ lowered_to stack.now height p }
{
    Turn::On(Position {
        height,
        top: stack[height - 1],
        ..p
    })
}

// Pops an entry; a pop that empties the stack ends the walk. An entry of one symbol is told apart, so that the height after
// it does not wait for the cell to be loaded.
pub fn pop(stack: &[u8], symbols: u8, p: Position) -> Turn
    requires { p.height ≤ length stack.now }
    ensures { Pops stack.now symbols p result }
{
    if symbols == 1 && 2 < p.height {
        return lowered(stack, p.height - 2, p);
    }
    let pops = symbols as usize + 1;
    if pops < p.height {
        return lowered(stack, p.height - pops, p);
    }
    if p.code as usize != Symbol::END {
        return Turn::Wrong;
    }
    Turn::Whole
}
