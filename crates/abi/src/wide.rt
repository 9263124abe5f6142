// The calls on graphs of edition 2: founded_wide_check, founded_wide_needed, founded_wide_prepare, founded_wide_complete. C has a name for each call and width, and an exported
// function has no type parameter, so these four stand beside those of lib.rt; all that they do is in the generic functions that both call.
ghost use Rattle.theory.specs.Accepted.{edition2};
ghost use Rattle.refusals.specs.Refusals.{graph_answer};
ghost use Rattle.abi.specs.Codes.{Tells, Needed, PreparedAs, CompletedAs};

use crate::codes::{call_code, checked_code, needed_code};

// The graph check.
#[unsafe(no_mangle)]
pub extern "C" fn founded_wide_check(graph: &[u32]) -> u64
    ensures { Tells 4294967296 (graph_answer edition2 graph.now) result }
{
    checked_code(checking::check(graph))
}

// The loop test.
#[unsafe(no_mangle)]
pub extern "C" fn founded_wide_needed(graph: &[u32], work: &mut [u32]) -> u64
    ensures { Needed 4294967296 edition2 graph.now work.old work.new result }
{
    needed_code(cycles::needed(graph, work))
}

// Preparation: the cyclic atoms.
#[unsafe(no_mangle)]
pub extern "C" fn founded_wide_prepare(graph: &[u32], output: &mut [u64], work: &mut [u32]) -> u64
    ensures { PreparedAs 4294967296 edition2 graph.now output.old work.old output.new work.new result }
{
    call_code(founded::prepare(graph, output, work))
}

// The pass: the missing atoms.
#[unsafe(no_mangle)]
pub extern "C" fn founded_wide_complete(
    graph: &[u32],
    never: &[u64],
    atom_never: &[u64],
    output: &mut [u64],
    work: &mut [u32],
) -> u64
    ensures { CompletedAs 4294967296 edition2 graph.now never.now atom_never.now output.old work.old output.new work.new result }
{
    call_code(founded::complete(graph, never, atom_never, output, work))
}
