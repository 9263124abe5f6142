// The static library that C and Rust link: each export is the call of crate abi that has its name, under the same clauses. A slice crosses as a pointer and a length.
// The exported names stand here again since a crate is a library or a static library, not both.
#![tactic(auto)]

ghost use Rattle.std.specs.Prelude.{◌≡◌};
ghost use Rattle.theory.specs.Accepted.{edition1, edition2};
ghost use Rattle.refusals.specs.Refusals.{graph_answer};
ghost use Rattle.abi.specs.Codes.{Tells, Needed, PreparedAs, CompletedAs, CompletedWithinAs, UnfoundedAs, work_words, ComparisonTells, UndecidedAs, BranchedAs};
ghost use Rattle.compare.specs.Comparison.{comparison};

// Graphs of edition 1: the graph check.
#[unsafe(no_mangle)]
pub extern "C" fn founded_check(graph: &[u16]) -> u32
    ensures { Tells 65536 (graph_answer edition1 graph.now) result }
{
    abi::founded_check(graph)
}

// The loop test.
#[unsafe(no_mangle)]
pub extern "C" fn founded_needed(graph: &[u16], work: &mut [u16]) -> u32
    ensures { Needed 65536 edition1 graph.now work.old work.new result }
{
    abi::founded_needed(graph, work)
}

// Preparation: the cyclic atoms.
#[unsafe(no_mangle)]
pub extern "C" fn founded_prepare(graph: &[u16], output: &mut [u64], work: &mut [u16]) -> u32
    ensures { PreparedAs 65536 edition1 graph.now output.old work.old output.new work.new result }
{
    abi::founded_prepare(graph, output, work)
}

// The pass: the missing atoms.
#[unsafe(no_mangle)]
pub extern "C" fn founded_complete(
    graph: &[u16],
    never: &[u64],
    atom_never: &[u64],
    output: &mut [u64],
    work: &mut [u16],
) -> u32
    ensures { CompletedAs 65536 edition1 graph.now never.now atom_never.now output.old work.old output.new work.new result }
{
    abi::founded_complete(graph, never, atom_never, output, work)
}

// The uncut atoms that are left unfounded with every atom marked.
#[unsafe(no_mangle)]
pub extern "C" fn founded_unfounded(
    graph: &[u16],
    never: &[u64],
    atom_never: &[u64],
    output: &mut [u64],
    work: &mut [u16],
) -> u32
    ensures { UnfoundedAs 65536 edition1 graph.now never.now atom_never.now output.old work.old output.new work.new result }
{
    abi::founded_unfounded(graph, never, atom_never, output, work)
}

// One order for graphs, by content.
#[unsafe(no_mangle)]
pub extern "C" fn founded_compare(graph: &[u16], other: &[u16]) -> u32
    ensures { ComparisonTells 65536 (comparison edition1 graph.now other.now) result }
{
    abi::founded_compare(graph, other)
}

// The pass within a work allowance: the allowance is the caller's and falls by the count.
#[unsafe(no_mangle)]
pub extern "C" fn founded_complete_within(
    graph: &[u16],
    never: &[u64],
    atom_never: &[u64],
    output: &mut [u64],
    work: &mut [u16],
    allowance: &mut u64,
) -> u32
    ensures { CompletedWithinAs 65536 edition1 graph.now never.now atom_never.now output.old work.old allowance.old output.new work.new allowance.new result }
{
    abi::founded_complete_within(graph, never, atom_never, output, work, allowance)
}

// The atoms missing under every choice of the undecided bits, and those missing under at least one.
#[unsafe(no_mangle)]
pub extern "C" fn founded_undecided(
    graph: &[u16],
    never: &[u64],
    atom_never: &[u64],
    open_nodes: &[u64],
    open_atoms: &[u64],
    always: &mut [u64],
    sometimes: &mut [u64],
    work: &mut [u16],
) -> u32
    ensures { UndecidedAs 65536 graph.now never.now atom_never.now open_nodes.now open_atoms.now always.old sometimes.old work.old always.new sometimes.new work.new result }
{
    abi::founded_undecided(
        graph, never, atom_never, open_nodes, open_atoms, always, sometimes, work,
    )
}

// A search branch: so many pairs of masks on one graph, and the missing list of each.
#[unsafe(no_mangle)]
pub extern "C" fn founded_branch(
    graph: &[u16],
    pairs: usize,
    never: &[u64],
    atom_never: &[u64],
    output: &mut [u64],
    work: &mut [u16],
) -> u32
    ensures { BranchedAs 65536 graph.now pairs never.now atom_never.now output.old work.old output.new work.new result }
{
    abi::founded_branch(graph, pairs, never, atom_never, output, work)
}

// Graphs of edition 2: the graph check.
#[unsafe(no_mangle)]
pub extern "C" fn founded_wide_check(graph: &[u32]) -> u64
    ensures { Tells 4294967296 (graph_answer edition2 graph.now) result }
{
    abi::wide::founded_wide_check(graph)
}

// The loop test.
#[unsafe(no_mangle)]
pub extern "C" fn founded_wide_needed(graph: &[u32], work: &mut [u32]) -> u64
    ensures { Needed 4294967296 edition2 graph.now work.old work.new result }
{
    abi::wide::founded_wide_needed(graph, work)
}

// Preparation: the cyclic atoms.
#[unsafe(no_mangle)]
pub extern "C" fn founded_wide_prepare(graph: &[u32], output: &mut [u64], work: &mut [u32]) -> u64
    ensures { PreparedAs 4294967296 edition2 graph.now output.old work.old output.new work.new result }
{
    abi::wide::founded_wide_prepare(graph, output, work)
}

// The pass: the missing atoms.
#[unsafe(no_mangle)]
pub extern "C" fn founded_wide_complete(
    graph: &[u32],
    never: &[u64],
    atom_never: &[u64],
    output: &mut [u64],
    work: &mut [u32],
) -> u64
    ensures { CompletedAs 4294967296 edition2 graph.now never.now atom_never.now output.old work.old output.new work.new result }
{
    abi::wide::founded_wide_complete(graph, never, atom_never, output, work)
}

// How many words a work area the calls on graphs of edition 2 ask for; 0 for a graph that is refused.
#[unsafe(no_mangle)]
pub extern "C" fn founded_wide_work_words(graph: &[u32]) -> u64
    ensures { result ≡ work_words edition2 graph.now }
{
    abi::length::founded_wide_work_words(graph)
}
