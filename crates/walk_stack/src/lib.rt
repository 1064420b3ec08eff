// The stack of states in a slice of bytes: what an announce pops and pushes.
// Inner: for the steps of the walk.
#![tactic(auto)]

ghost use Rattle.std.specs.Prelude.{◌≡◌, ◌+◌, ◌-◌, ◌<◌, ◌≤◌, length};
ghost use Rattle.walk_stack.specs.Stack.{tops, groups_over, rule_over, PushesFrom, IsTop};

use walk_tables::Machine;

// The top of a stack: its height and the state there. The state is kept beside the slice, so that the next step need not wait until
// it is read back.
#[derive(Clone, Copy)]
pub struct Top {
    pub height: usize,
    pub state: u8,
}

// Pushes the entry states of the groups from number `from` on, in the order of the row, above those of the groups before.
fn push_more(
    machine: &Machine,
    rule: u8,
    from: usize,
    groups: usize,
    stack: &mut [u8],
    height: usize,
)
    requires { (from ≤ groups) × (groups < 256) × (height + groups ≤ length stack.old) }
    ensures { PushesFrom machine.now.rules rule from groups height stack.old stack.new }
{
    for j in from..groups {
        stack[height + j] = machine.figure(rule, 4 + j);
    }
}

// Pushes the entry states of a rule's groups in the order of the row. Three groups stand here by themselves: for so few the
// loop, a copy of bytes, is the slower, and the state on top is at hand.
#[tactic(auto, using(crate::proofs::StackLaws::tops_push))]
fn push_groups(machine: &Machine, rule: u8, groups: usize, stack: &mut [u8], base: Top) -> Top
    requires { (groups < 256) × (base.height + groups ≤ length stack.old) × IsTop stack.old base }
    ensures height_value { result.height ≡ base.height + groups }
    ensures height_after { tops stack.new result.height ≡ groups_over machine.now.rules rule groups (tops stack.old base.height) }
    ensures top { IsTop stack.new result }
{
    if groups == 0 {
        return base;
    }
    let height = base.height;
    let first = machine.figure(rule, 4);
    stack[height] = first;
    if groups == 1 {
        return Top {
            height: height + 1,
            state: first,
        };
    }
    let second = machine.figure(rule, 5);
    stack[height + 1] = second;
    if groups == 2 {
        return Top {
            height: height + 2,
            state: second,
        };
    }
    let third = machine.figure(rule, 6);
    stack[height + 2] = third;
    if groups == 3 {
        return Top {
            height: height + 3,
            state: third,
        };
    }
    push_more(machine, rule, 3, groups, stack, height);
    let raised = height + groups;
    Top {
        height: raised,
        state: stack[raised - 1],
    }
}

// Pushes the goto of the state on top for the rule's left side, then its groups' entries.
#[tactic(auto, using(crate::proofs::StackLaws::tops_push), unfolding(crate::specs::Stack::rule_over))]
pub fn push_rule(machine: &Machine, rule: u8, groups: usize, stack: &mut [u8], base: Top) -> Top
    requires { (groups < 256) × (base.height + groups < length stack.old) × IsTop stack.old base }
    ensures height_value { result.height ≡ base.height + 1 + groups }
    ensures height_after { tops stack.new result.height ≡ rule_over machine.now.gotos machine.now.rules rule groups (tops stack.old base.height) }
    ensures top { IsTop stack.new result }
{
    let left = machine.figure(rule, 1);
    let state = machine.goto_at(base.state, left);
    stack[base.height] = state;
    let top = Top {
        height: base.height + 1,
        state,
    };
    push_groups(machine, rule, groups, stack, top)
}

// The top after so many states are popped. None, one and two are told apart, so that the height after them does not wait for the
// rule's row to be loaded; each way reads the stack by itself, or the compiler would make them one subtraction again.
pub fn uncovered(stack: &[u8], pops: usize, top: Top) -> Top
    requires { (pops < top.height) × (top.height ≤ length stack.now) × IsTop stack.now top }
    ensures height_value { result.height ≡ top.height - pops }
    ensures top { IsTop stack.now result }
{
    if pops == 0 {
        return top;
    }
    let height = top.height;
    if pops == 1 {
        let under = height - 1;
        return Top {
            height: under,
            state: stack[under - 1],
        };
    }
    if pops == 2 {
        let below = height - 2;
        return Top {
            height: below,
            state: stack[below - 1],
        };
    }
    let lower = height - pops;
    Top {
        height: lower,
        state: stack[lower - 1],
    }
}
