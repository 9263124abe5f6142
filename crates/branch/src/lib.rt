// A search branch in one call (document 02, request 1): so many pairs of masks on one graph, prepared once. The first pair goes by the original rows, as a lone pass; the later ones by narrowed
// rows and roles, which stand behind the work area of a lone pass.
#![tactic(auto)]

ghost use Rattle.std.specs.Prelude.{◌≡◌, false, ◌+◌, ◌*◌, ◌<◌, ◌≤◌, eqb, get_or, length};
ghost use Rattle.theory.specs.Words.{theory_of};
ghost use Rattle.theory.specs.Accepted.{Accepted, edition1};
ghost use Rattle.theory.specs.Founded.{cyclic, cyclic_cone};
ghost use Rattle.mask.specs.Mask.{words_of, pack};
ghost use Rattle.refusals.specs.Answer.{accept};
ghost use Rattle.refusals.specs.Refusals.{graph_answer};
ghost use Rattle.preparation.specs.Stages.{Standing};
ghost use Rattle.projection.specs.Narrowed.{Sourced};
ghost use Rattle.later.specs.Later.{Again, Projected};
ghost use Rattle.branch.specs.declared.BranchError.TheVariants.{Refused};
ghost use Rattle.branch.specs.Answers.{bad_pairs, bad_masks, bad_branch_lengths, Branches};
ghost use Rattle.branch.specs.Branch.{Fits, Paired, ListsFrom, AllPaired};

use area::Bases;
use cones::{Absorbed, Cone};
use later::Projection;
use projection::Source;
use refusals::Refusal;

// The most pairs, and the words of the work area: those of a lone pass, and behind them as many as the narrowed rows and the roles of any accepted graph take.
const MOST_PAIRS: usize = 64;

const LONE_WORDS: usize = 32768;

const WORK_WORDS: usize = 49152;

// A row table has so many entries at the most, and one word more is stored.
const ENTRIES: usize = 4097;

// Why the call is turned away. specs/Answers has the number and place of each.
#[derive(Clone, Copy, Debug, PartialEq, Eq)]
pub enum BranchError {
    Refused(Refusal),
    Pairs,
    Lengths,
    Work,
    Absorbed(usize),
}

// For `?`; no derive makes it.
impl From<Refusal> for BranchError {
    ghost from_gives = { λ refusal e. e ≡ Refused refusal };

    fn from(refusal: Refusal) -> BranchError {
        BranchError::Refused(refusal)
    }
}

// Refusal 13.
fn bad_pairs(pairs: usize) -> bool
    ensures { result ≡ bad_pairs pairs }
{
    pairs == 0 || MOST_PAIRS < pairs
}

// Whether masks that lie end to end, or lists, have another length than so many over so many numbers.
fn bad_masks(pairs: usize, count: usize, words: usize) -> bool
    requires { (pairs ≤ 64) × (count ≤ 1024) }
    ensures { result ≡ bad_masks pairs count words }
{
    words != pairs * mask::words(count)
}

// Refusal 10, with the lengths of so many pairs.
#[tactic(auto, unfolding(crate::specs::Answers::bad_branch_lengths))]
fn bad_lengths(graph: &[u16], pairs: usize, never: usize, atom_never: usize, output: usize) -> bool
    requires { Accepted edition1 graph.now × (pairs ≤ 64) }
    ensures { result ≡ bad_branch_lengths graph.now pairs never atom_never output }
{
    let atoms = graph::atoms(graph);
    bad_masks(pairs, graph::nodes(graph), never)
        || bad_masks(pairs, atoms, atom_never)
        || bad_masks(pairs, atoms, output)
}

// The atoms that still wait, as a mask.
fn list(lone: &[u16], b: Bases, part: &mut [u64])
    requires { (b.dependencies + b.atoms ≤ length lone.now) × (length part.old ≡ words_of b.atoms) }
    ensures { part.new ≡ pack b.atoms (λ a. eqb (get_or lone.now (b.dependencies + a) 0) 1) }
{
    let from = b.dependencies;
    let to = from + b.atoms;
    mask::pack_flags(&lone[from..to], part);
}

// The first pair, by the original rows.
fn first_pair(
    graph: &[u16],
    never: &[u64],
    atom_never: &[u64],
    output: &mut [u64],
    lone: &mut [u16],
    b: Bases,
    c: Cone,
)
    requires standing { Accepted edition1 graph.now × Standing graph.now b (cyclic (theory_of graph.now)) (cyclic_cone (theory_of graph.now)) lone.old c }
    requires fits { Fits graph.now 1 (length never.now) (length atom_never.now) (length output.old) }
    ensures { Paired graph.now never.now atom_never.now b 0 lone.old lone.new output.old output.new }
{
    let nodes = mask::words(b.nodes);
    let atoms = mask::words(b.atoms);
    preparation::pass(graph, &never[..nodes], &atom_never[..atoms], lone, b, c);
    list(lone, b, &mut output[..atoms]);
}

// A later pair, by the projection.
fn later_pair(
    p: Projection,
    k: usize,
    never: &[u64],
    atom_never: &[u64],
    output: &mut [u64],
    lone: &mut [u16],
)
    requires again { Again p.graph.now p.bases lone.old }
    requires projected { Projected p.graph.now p.bases p.parents.now p.heads.now p.body_nodes.now p.initial.now p.seed_start p.cyclic_atoms.now }
    requires fits { (k < 64) × Fits p.graph.now (k + 1) (length never.now) (length atom_never.now) (length output.old) }
    ensures { Paired p.entry.graph.now never.now atom_never.now p.entry.bases k lone.old lone.new output.old output.new }
{
    let nodes = mask::words(p.bases.nodes);
    let atoms = mask::words(p.bases.atoms);
    let node_from = k * nodes;
    let node_to = node_from + nodes;
    let from = k * atoms;
    let to = from + atoms;
    p.pass(&never[node_from..node_to], &atom_never[from..to], lone);
    list(lone, p.bases, &mut output[from..to]);
}

// The pairs from the second on. Narrowed rows, roles and the list of the cyclic atoms are made once, each in a part of its own behind the words of a lone pass.
fn later_pairs(
    graph: &[u16],
    pairs: usize,
    never: &[u64],
    atom_never: &[u64],
    output: &mut [u64],
    lone: &mut [u16],
    rest: &mut [u16],
    b: Bases,
    c: Cone,
)
    requires sourced { Sourced graph.now b lone.old c × Again graph.now b lone.old }
    requires room { 16384 ≤ length rest.old }
    requires fits { (1 ≤ pairs) × (pairs ≤ 64) × Fits graph.now pairs (length never.now) (length atom_never.now) (length output.old) }
    ensures { ListsFrom graph.now never.now atom_never.now 1 output.old pairs output.new }
{
    let (parents, rest) = rest.split_at_mut(b.nodes + 1 + ENTRIES);
    let (heads, rest) = rest.split_at_mut(b.nodes + 2 + ENTRIES);
    let (body_nodes, rest) = rest.split_at_mut(c.nodes);
    let (initial, rest) = rest.split_at_mut(c.nodes);
    let source = Source {
        graph,
        work: lone,
        bases: b,
        cone: c,
    };
    source.parents(parents);
    source.heads(heads);
    let seed_start = source.partition(body_nodes, initial);
    let count = source.cyclic_atoms(rest);
    let p = Projection {
        graph,
        bases: b,
        parents,
        heads,
        body_nodes,
        initial,
        seed_start,
        cyclic_atoms: &rest[..count],
    };
    for k in 1..pairs {
        later_pair(p, k, never, atom_never, output, lone);
    }
}

// Every pair. What a pass goes by stands in the first words, as for a lone pass.
fn all_pairs(
    graph: &[u16],
    pairs: usize,
    never: &[u64],
    atom_never: &[u64],
    output: &mut [u64],
    work: &mut [u16],
) -> Result<(), Absorbed>
    requires accepted { Accepted edition1 graph.now × (length work.old ≡ 49152) }
    requires fits { (1 ≤ pairs) × (pairs ≤ 64) × Fits graph.now pairs (length never.now) (length atom_never.now) (length output.old) × (length output.old ≡ pairs * words_of (get_or graph.now 1 0)) }
    ensures { AllPaired graph.now never.now atom_never.now pairs output.old output.new result × (length work.new ≡ length work.old) }
{
    let (lone, rest) = work.split_at_mut(LONE_WORDS);
    let b = area::bases_of(graph, LONE_WORDS);
    let c = preparation::stand(graph, lone, b)?;
    first_pair(graph, never, atom_never, output, lone, b, c);
    if pairs > 1 {
        later_pairs(graph, pairs, never, atom_never, output, lone, rest, b, c);
    }
    Ok(())
}

// The branch after refusals 1 to 9, 13, 10 and 11.
fn branch_accepted(
    graph: &[u16],
    pairs: usize,
    never: &[u64],
    atom_never: &[u64],
    output: &mut [u64],
    work: &mut [u16],
) -> Result<(), BranchError>
    requires { (graph_answer edition1 graph.now ≡ accept) × (bad_pairs pairs ≡ false) × (bad_branch_lengths graph.now pairs (length never.now) (length atom_never.now) (length output.old) ≡ false) × (length work.old ≡ 49152) }
    ensures { Branches graph.now pairs never.now atom_never.now output.old work.old output.new work.new result }
{
    match all_pairs(graph, pairs, never, atom_never, output, work) {
        Ok(()) => {
            area::wipe(work);
            Ok(())
        }
        Err(absorbed) => {
            area::wipe(work);
            Err(BranchError::Absorbed(absorbed.node))
        }
    }
}

// A search branch: so many pairs of masks, and the missing list of each.
pub fn branch(
    graph: &[u16],
    pairs: usize,
    never: &[u64],
    atom_never: &[u64],
    output: &mut [u64],
    work: &mut [u16],
) -> Result<(), BranchError>
    ensures { Branches graph.now pairs never.now atom_never.now output.old work.old output.new work.new result }
{
    checking::check(graph)?;
    if bad_pairs(pairs) {
        return Err(BranchError::Pairs);
    }
    if bad_lengths(graph, pairs, never.len(), atom_never.len(), output.len()) {
        return Err(BranchError::Lengths);
    }
    if work.len() != WORK_WORDS {
        return Err(BranchError::Work);
    }
    branch_accepted(graph, pairs, never, atom_never, output, work)
}
