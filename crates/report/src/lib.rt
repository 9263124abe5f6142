// The program's text: from standard input's bytes to the bytes that are written (document 01, "The program").
#![tactic(auto)]

ghost use Rattle.std.specs.Prelude.{◌≡◌, false, ◌≤◌, length, get_or, take};
ghost use Rattle.theory.specs.Words.{theory_of};
ghost use Rattle.theory.specs.Accepted.{edition1};
ghost use Rattle.theory.specs.Founded.{has_cycle};
ghost use Rattle.refusals.specs.Answer.{accept};
ghost use Rattle.refusals.specs.Refusals.{graph_answer, absorbed_row};
ghost use Rattle.mask.specs.Mask.{words_of};
ghost use Rattle.report.specs.Report.{bad_masks, node_mask, atom_mask, answer as Report·answer, Split, ReportedOf, Reported};
ghost use Rattle.report.specs.Answered.{Ready, Answered};

use founded::CallError;
use numbers::Numbered;

// The loop test on an accepted graph.
fn loops(graph: &[u16], work: &mut [u16]) -> bool
    requires { (graph_answer edition1 graph.now ≡ accept) × (length work.old ≡ 32768) }
    ensures { result ≡ has_cycle (theory_of graph.now) }
{
    matches!(cycles::needed(graph, work), Ok(true))
}

// The loop test and the pass: whether there is a loop, and in `output` the missing atoms. (The parameters are those of `founded::complete`, to which alone
// they go on.)
fn pass(
    graph: &[u16],
    never: &[u64],
    atom_never: &[u64],
    output: &mut [u64],
) -> Result<bool, CallError>
    requires { Ready graph.now never.now atom_never.now output.old }
    ensures { Answered (absorbed_row (theory_of graph.now)) graph.now never.now atom_never.now output.new result }
{
    let mut work = [0u16; 32768];
    let cycle = loops(graph, &mut work);
    founded::complete(graph, never, atom_never, output, &mut work)?;
    Ok(cycle)
}

// Row 10, of the bytes of both masks.
#[tactic(auto, using(crate::proofs::CallLaws::accepted_few), unfolding(crate::specs::Report::bad_masks))]
fn bad_masks(graph: &[u16], masks: &[u8]) -> bool
    requires { graph_answer edition1 graph.now ≡ accept }
    ensures { result ≡ bad_masks graph.now masks.now }
{
    masks.len() != 8 * mask::words(graph::atoms(graph)) + 8 * mask::words(graph::nodes(graph))
}

// How many bytes the atom mask has.
#[tactic(auto, using(crate::proofs::CallLaws::accepted_few, crate::proofs::CallLaws::masks_split))]
fn atom_bytes(graph: &[u16], masks: &[u8]) -> usize
    requires { (graph_answer edition1 graph.now ≡ accept) × (bad_masks graph.now masks.now ≡ false) }
    ensures { Split graph.now masks.now result }
{
    8 * mask::words(graph::atoms(graph))
}

// The program's answer. Of the masks' bytes the first are the atom mask, and the rest is the node mask.
fn answer(graph: &[u16], masks: &[u8], output: &mut [u64; 16]) -> Result<bool, CallError>
    ensures { Answered (Report·answer graph.now masks.now) graph.now (node_mask graph.now masks.now) (atom_mask graph.now masks.now) (take (words_of (get_or graph.now 1 0)) output.new) result }
{
    checking::check(graph)?;
    if bad_masks(graph, masks) {
        return Err(CallError::Lengths);
    }
    let (atom_part, node_part) = masks.split_at(atom_bytes(graph, masks));
    let mut atom_never = [0u64; 16];
    let mut never = [0u64; 16];
    let atoms = input::words(atom_part, &mut atom_never);
    let nodes = input::words(node_part, &mut never);
    pass(
        graph,
        &never[..nodes],
        &atom_never[..atoms],
        &mut output[..atoms],
    )
}

// The text for the graph's words and the bytes after them, at the front of lent memory (no heap), and how many bytes it takes. All behind it stays.
fn report_graph(graph: &[u16], masks: &[u8], out: &mut [u8]) -> usize
    requires { 6144 ≤ length out.old }
    ensures { ReportedOf graph.now masks.now out.old out.new result }
{
    let mut output = [0u64; 16];
    match answer(graph, masks, &mut output) {
        Ok(cycle) => {
            let atoms = graph::atoms(graph);
            text::put_lines(out, cycle, &output[..mask::words(atoms)], atoms)
        }
        Err(e) => {
            let told = Numbered::from(e);
            text::put_refusal(out, told.number, told.place)
        }
    }
}

// The text for standard input's bytes, at the front of lent memory (no heap), and how many bytes it takes: the caller writes those alone.
pub fn report(input: &[u8], out: &mut [u8; 6144]) -> usize
    ensures { Reported input.now out.old out.new result }
{
    let mut graph = [0u16; 13317];
    let (bytes, masks) = input.split_at(input::graph_bytes(input));
    let words = input::words(bytes, &mut graph);
    report_graph(&graph[..words], masks, out)
}
