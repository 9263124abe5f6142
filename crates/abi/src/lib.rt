// The calls for C and Rust to link: numbers and slices alone. A slice crosses as a pointer and a length. Here are those on graphs of edition 1; wide.rt has the
// first four on graphs of edition 2, and length.rt how long a work area edition 2 asks for. Masks, output and work area are parameters of their own, as in the header.
// `Tells` is what a code says of the answer that it is made of.
#![tactic(auto)]

pub mod codes;
pub mod length;
pub mod wide;

ghost use Rattle.theory.specs.Accepted.{edition1};
ghost use Rattle.refusals.specs.Refusals.{graph_answer};
ghost use Rattle.abi.specs.Codes.{Tells, Needed, PreparedAs, CompletedAs, CompletedWithinAs, UndecidedAs, UnfoundedAs, ComparisonTells, BranchedAs};
ghost use Rattle.compare.specs.Comparison.{comparison};

use crate::codes::{
    branched_code, call_code, checked_code, compared_code, needed_code, open_code, within_code,
};
use within::Meter;

// The graph check.
#[unsafe(no_mangle)]
pub extern "C" fn founded_check(graph: &[u16]) -> u32
    ensures { Tells 65536 (graph_answer edition1 graph.now) result }
{
    checked_code(checking::check(graph))
}

// The loop test.
#[unsafe(no_mangle)]
pub extern "C" fn founded_needed(graph: &[u16], work: &mut [u16]) -> u32
    ensures { Needed 65536 edition1 graph.now work.old work.new result }
{
    needed_code(cycles::needed(graph, work))
}

// Preparation: the cyclic atoms.
#[unsafe(no_mangle)]
pub extern "C" fn founded_prepare(graph: &[u16], output: &mut [u64], work: &mut [u16]) -> u32
    ensures { PreparedAs 65536 edition1 graph.now output.old work.old output.new work.new result }
{
    call_code(founded::prepare(graph, output, work))
}

// The pass: the missing atoms.
#[unsafe(no_mangle)]
pub extern "C" fn founded_complete(
    graph: &[u16],
    never: &[u64],
    atom_never: &[u64],
    output: &mut [u64],
    work: &mut [u16],
) -> u32
    ensures { CompletedAs 65536 edition1 graph.now never.now atom_never.now output.old work.old output.new work.new result }
{
    call_code(founded::complete(graph, never, atom_never, output, work))
}

// The uncut atoms that are left unfounded with every atom marked.
#[unsafe(no_mangle)]
pub extern "C" fn founded_unfounded(
    graph: &[u16],
    never: &[u64],
    atom_never: &[u64],
    output: &mut [u64],
    work: &mut [u16],
) -> u32
    ensures { UnfoundedAs 65536 edition1 graph.now never.now atom_never.now output.old work.old output.new work.new result }
{
    call_code(unfounded::unfounded(graph, never, atom_never, output, work))
}

// One order for graphs, by content.
#[unsafe(no_mangle)]
pub extern "C" fn founded_compare(graph: &[u16], other: &[u16]) -> u32
    ensures { ComparisonTells 65536 (comparison edition1 graph.now other.now) result }
{
    compared_code(compare::compare(graph, other))
}

// The pass within a work allowance: the allowance is the caller's and falls by the count.
#[unsafe(no_mangle)]
pub extern "C" fn founded_complete_within(
    graph: &[u16],
    never: &[u64],
    atom_never: &[u64],
    output: &mut [u64],
    work: &mut [u16],
    allowance: &mut u64,
) -> u32
    ensures { CompletedWithinAs 65536 edition1 graph.now never.now atom_never.now output.old work.old allowance.old output.new work.new allowance.new result }
{
    let mut meter = Meter { left: *allowance };
    let answered = within::complete(graph, never, atom_never, output, work, &mut meter);
    *allowance = meter.left;
    within_code(answered)
}

// The atoms missing under every choice of the undecided bits, and those missing under at least one.
#[unsafe(no_mangle)]
pub extern "C" fn founded_undecided(
    graph: &[u16],
    never: &[u64],
    atom_never: &[u64],
    open_nodes: &[u64],
    open_atoms: &[u64],
    always: &mut [u64],
    sometimes: &mut [u64],
    work: &mut [u16],
) -> u32
    ensures { UndecidedAs 65536 graph.now never.now atom_never.now open_nodes.now open_atoms.now always.old sometimes.old work.old always.new sometimes.new work.new result }
{
    open_code(undecided::undecided(
        graph, never, atom_never, open_nodes, open_atoms, always, sometimes, work,
    ))
}

// A search branch: so many pairs of masks on one graph, and the missing list of each.
#[unsafe(no_mangle)]
pub extern "C" fn founded_branch(
    graph: &[u16],
    pairs: usize,
    never: &[u64],
    atom_never: &[u64],
    output: &mut [u64],
    work: &mut [u16],
) -> u32
    ensures { BranchedAs 65536 graph.now pairs never.now atom_never.now output.old work.old output.new work.new result }
{
    branched_code(branch::branch(graph, pairs, never, atom_never, output, work))
}
