// Both books as a machine in memory: read, checked and linked once, for every walk over them.
// Inner: for sessions.
#![tactic(auto)]

ghost use Rattle.std.specs.Prelude.{◌≡◌, length, replicate};
ghost use Rattle.checker.specs.Checked.{checked_of};
ghost use Rattle.machine.specs.Machine.{MachineIs};

use reply::Refusal;
use table::TableReply;
use walk_tables::Machine;

// The bytes of the slice that loading works in.
pub const WORK: usize = table::LOOKAHEADS;

// Reads, checks and links both books. Where they are accepted, they stand in the machine; a refusal leaves no machine there. The
// lookaheads of the tables stand in `work` meanwhile, so that a caller who needs as much memory after has it once; what it held plays
// no part, and it is left free.
pub fn load_machine(
    grammar: &[u8],
    tables: &[u8],
    machine: &mut Machine,
    work: &mut [u8],
) -> Result<(), Refusal>
    requires { (machine.old.rules ≡ replicate 8448 0) × (length work.old ≡ 65536) }
    ensures { MachineIs (checked_of grammar.now tables.now) result machine.new }
{
    let mut items = [0u8; table::ITEMS];
    let mut entry_states = [0u8; table::ENTRY_STATES];
    let mut kernels = [0u8; table::KERNELS];
    let mut named = [0u8; table::NAMED];
    let answer = checker::load_tables(
        grammar,
        tables,
        &mut items,
        &mut entry_states,
        &mut kernels,
        work,
        &mut machine.kinds,
        &mut machine.values,
        &mut machine.gotos,
        &mut named,
    );
    match answer {
        TableReply::Refused(why) => Err(why),
        TableReply::Read(counts) => {
            let heading = counts.grammar;
            walk_rules::link_rules(
                &items,
                heading.rules,
                counts.entries,
                &entry_states,
                &mut machine.rules,
            );
            machine.start = entry_states[1];
            machine.terminals = heading.terminals;
            Ok(())
        }
    }
}
