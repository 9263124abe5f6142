// Telemetry not yet in (document 02, request 12): the atoms missing under every choice of the undecided bits, and those missing under at least one, by two passes over
// one preparation.
#![tactic(auto)]

ghost use Rattle.std.specs.Prelude.{◌≡◌, false, cond, ℕ, ◌+◌, ◌<◌, ◌≤◌, length, get_or};
ghost use Rattle.theory.specs.Words.{theory_of, bit_at};
ghost use Rattle.theory.specs.Accepted.{Accepted, edition1, area_of};
ghost use Rattle.theory.specs.Founded.{cyclic, cyclic_cone};
ghost use Rattle.choices.specs.Undecided.{shut, always_missing, sometimes_missing};
ghost use Rattle.mask.specs.Mask.{words_of, below};
ghost use Rattle.refusals.specs.Answer.{accept};
ghost use Rattle.refusals.specs.Refusals.{graph_answer};
ghost use Rattle.preparation.specs.Stages.{Standing};
ghost use Rattle.undecided.specs.declared.OpenError.TheVariants.{Refused};
ghost use Rattle.undecided.specs.Lists.{LeftOut, Listing};
ghost use Rattle.undecided.specs.Answers.{bad_open_lengths, both_below, cut_and_open, Undecides};

use area::Bases;
use area::length::Area;
use cones::Cone;
use refusals::Refusal;

// Why the call is turned away. specs/Answers has the number and place of each.
#[derive(Clone, Copy, Debug, PartialEq, Eq)]
pub enum OpenError {
    Refused(Refusal),
    Lengths,
    Both,
    Work,
    Absorbed(usize),
}

impl From<Refusal> for OpenError {
    ghost from_gives = { λ refusal e. e ≡ Refused refusal };

    fn from(refusal: Refusal) -> OpenError {
        OpenError::Refused(refusal)
    }
}

// Undecided atoms wait no more.
fn leave_out(open_atoms: &[u64], counts: &mut [u16])
    ensures { LeftOut (bit_at open_atoms.now) counts.old counts.new (length counts.old) }
{
    for a in 0..counts.len() {
        if mask::bit(open_atoms, a) {
            counts[a] = 0;
        }
    }
}

// The first list: what the pass with the plain masks lists, without the undecided atoms.
fn list_always(
    graph: &[u16],
    never: &[u64],
    atom_never: &[u64],
    open_atoms: &[u64],
    always: &mut [u64],
    work: &mut [u16],
    b: Bases,
    c: Cone,
)
    requires stands { Accepted edition1 graph.now × Standing graph.now b (cyclic (theory_of graph.now)) (cyclic_cone (theory_of graph.now)) work.old c }
    requires fits { length always.old ≡ words_of b.atoms }
    ensures { Listing graph.now b c (always_missing (theory_of graph.now) (bit_at never.now) (bit_at atom_never.now) (bit_at open_atoms.now)) work.old work.new always.new }
{
    let from = b.dependencies;
    let to = from + b.atoms;
    preparation::pass(graph, never, atom_never, work, b, c);
    leave_out(open_atoms, &mut work[from..to]);
    mask::pack_flags(&work[from..to], always);
}

// Whether the second pass cuts node n: it is cut or undecided, or an Atom that names an undecided atom.
fn shuts(graph: &[u16], never: &[u64], open_nodes: &[u64], open_atoms: &[u64], n: usize) -> bool
    requires { Accepted edition1 graph.now × (n < (theory_of graph.now).nodes) }
    ensures { result ≡ shut (theory_of graph.now) (bit_at never.now) (bit_at open_nodes.now) (bit_at open_atoms.now) n }
{
    if mask::bit(never, n) || mask::bit(open_nodes, n) {
        return true;
    }
    graph::node_kind(graph, n).takes_operand() && mask::bit(open_atoms, graph::operand(graph, n))
}

// The words of a mask over as many nodes as a graph of edition 1 can have.
const WORDS: usize = 16;

// The node mask of the second pass.
fn widen(graph: &[u16], never: &[u64], open_nodes: &[u64], open_atoms: &[u64]) -> [u64; WORDS]
    requires { Accepted edition1 graph.now }
    ensures { (n : ℕ) → bit_at result n ≡ below (get_or graph.now 2 0) (shut (theory_of graph.now) (bit_at never.now) (bit_at open_nodes.now) (bit_at open_atoms.now)) n }
{
    let mut wide = [0u64; WORDS];
    for n in 0..graph::nodes(graph) {
        if shuts(graph, never, open_nodes, open_atoms, n) {
            mask::set_bit(&mut wide, n);
        }
    }
    wide
}

// The second list.
fn list_sometimes(
    graph: &[u16],
    never: &[u64],
    atom_never: &[u64],
    open_nodes: &[u64],
    open_atoms: &[u64],
    sometimes: &mut [u64],
    work: &mut [u16],
    b: Bases,
    c: Cone,
)
    requires stands { Accepted edition1 graph.now × Standing graph.now b (cyclic (theory_of graph.now)) (cyclic_cone (theory_of graph.now)) work.old c }
    requires fits { length sometimes.old ≡ words_of b.atoms }
    ensures { Listing graph.now b c (sometimes_missing (theory_of graph.now) (bit_at never.now) (bit_at open_nodes.now) (bit_at atom_never.now) (bit_at open_atoms.now)) work.old work.new sometimes.new }
{
    let from = b.dependencies;
    let to = from + b.atoms;
    let wide = widen(graph, never, open_nodes, open_atoms);
    preparation::pass(graph, &wide, atom_never, work, b, c);
    mask::pack_flags(&work[from..to], sometimes);
}

// Refusal 10: four masks and two outputs.
#[tactic(auto, unfolding(crate::specs::Answers::bad_open_lengths))]
fn bad_lengths(
    graph: &[u16],
    never: usize,
    atom_never: usize,
    open_nodes: usize,
    open_atoms: usize,
    always: usize,
    sometimes: usize,
) -> bool
    requires { 5 ≤ length graph.now }
    ensures { result ≡ bad_open_lengths graph.now never atom_never open_nodes open_atoms always sometimes }
{
    let atoms = graph::atoms(graph);
    let nodes = graph::nodes(graph);
    founded::bad_mask(nodes, never)
        || founded::bad_mask(atoms, atom_never)
        || founded::bad_mask(nodes, open_nodes)
        || founded::bad_mask(atoms, open_atoms)
        || founded::bad_output(atoms, always)
        || founded::bad_output(atoms, sometimes)
}

// Whether one of so many numbers is in both masks.
pub fn overlap(count: usize, never: &[u64], undecided: &[u64]) -> bool
    ensures { result ≡ both_below count (bit_at never.now) (bit_at undecided.now) }
{
    for i in 0..count {
        if mask::bit(undecided, i) && mask::bit(never, i) {
            return true;
        }
    }
    false
}

// Refusal 21.
#[tactic(auto, unfolding(crate::specs::Answers::cut_and_open))]
fn cut_and_open(
    graph: &[u16],
    never: &[u64],
    atom_never: &[u64],
    open_nodes: &[u64],
    open_atoms: &[u64],
) -> bool
    requires { 5 ≤ length graph.now }
    ensures { result ≡ cut_and_open graph.now never.now atom_never.now open_nodes.now open_atoms.now }
{
    overlap(graph::nodes(graph), never, open_nodes)
        || overlap(graph::atoms(graph), atom_never, open_atoms)
}

// The call after refusals 1 to 9 and 14, 10, 21 and 11.
fn undecided_accepted(
    graph: &[u16],
    never: &[u64],
    atom_never: &[u64],
    open_nodes: &[u64],
    open_atoms: &[u64],
    always: &mut [u64],
    sometimes: &mut [u64],
    work: &mut [u16],
) -> Result<(), OpenError>
    requires accepted { graph_answer edition1 graph.now ≡ accept }
    requires lengths { bad_open_lengths graph.now (length never.now) (length atom_never.now) (length open_nodes.now) (length open_atoms.now) (length always.old) (length sometimes.old) ≡ false }
    requires apart { cut_and_open graph.now never.now atom_never.now open_nodes.now open_atoms.now ≡ false }
    requires area { length work.old ≡ area_of edition1 (theory_of graph.now) }
    ensures { Undecides graph.now never.now atom_never.now open_nodes.now open_atoms.now always.old sometimes.old work.old always.new sometimes.new work.new result }
{
    let words = work.len();
    let b = area::bases_of(graph, words);
    match preparation::stand(graph, work, b) {
        Ok(c) => {
            list_always(graph, never, atom_never, open_atoms, always, work, b, c);
            list_sometimes(
                graph, never, atom_never, open_nodes, open_atoms, sometimes, work, b, c,
            );
            area::wipe(work);
            Ok(())
        }
        Err(absorbed) => {
            area::wipe(work);
            Err(OpenError::Absorbed(absorbed.node))
        }
    }
}

// The atoms missing under every choice of the undecided bits, and those missing under at least one.
pub fn undecided(
    graph: &[u16],
    never: &[u64],
    atom_never: &[u64],
    open_nodes: &[u64],
    open_atoms: &[u64],
    always: &mut [u64],
    sometimes: &mut [u64],
    work: &mut [u16],
) -> Result<(), OpenError>
    ensures { Undecides graph.now never.now atom_never.now open_nodes.now open_atoms.now always.old sometimes.old work.old always.new sometimes.new work.new result }
{
    checking::check(graph)?;
    if bad_lengths(
        graph,
        never.len(),
        atom_never.len(),
        open_nodes.len(),
        open_atoms.len(),
        always.len(),
        sometimes.len(),
    ) {
        return Err(OpenError::Lengths);
    }
    if cut_and_open(graph, never, atom_never, open_nodes, open_atoms) {
        return Err(OpenError::Both);
    }
    if work.len() != u16::area_words(graph) {
        return Err(OpenError::Work);
    }
    undecided_accepted(
        graph, never, atom_never, open_nodes, open_atoms, always, sometimes, work,
    )
}
