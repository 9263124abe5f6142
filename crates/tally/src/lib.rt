// How often is it missing (document 02, request 13): for each atom in how many choices of the undecided atoms it is missing, ruled out, or neither. Rows, cones and marks are
// made once; a choice costs start states and worklist alone.
#![tactic(auto)]

ghost use Rattle.std.specs.Prelude.{◌≡◌, false, cond, [], ℕ, ◌*◌, ◌<◌, ◌≤◌, length, get_or};
ghost use Rattle.theory.specs.Sets.{Is, members};
ghost use Rattle.theory.specs.Words.{theory_of, bit_at};
ghost use Rattle.theory.specs.Accepted.{Accepted, edition1, area_of};
ghost use Rattle.refusals.specs.Answer.{accept};
ghost use Rattle.refusals.specs.Refusals.{graph_answer};
ghost use Rattle.mask.specs.Mask.{flagged};
ghost use Rattle.undecided.specs.Answers.{both_below};
ghost use Rattle.tally.specs.declared.TallyError.TheVariants.{Refused};
ghost use Rattle.tally.specs.Counting.{Listed, ChoiceAdded, Stood, Ready, Over, EveryChoice};
ghost use Rattle.tally.specs.Answers.{bad_tally_lengths, Tallies};

use area::Bases;
use area::length::Area;
use cones::Cone;
use refusals::Refusal;
use words::SET;

// Why the call is turned away. specs/Answers has the number and place of each.
#[derive(Clone, Copy, Debug, PartialEq, Eq)]
pub enum TallyError {
    Refused(Refusal),
    Lengths,
    Both,
    Many,
    Work,
    Absorbed(usize),
}

impl From<Refusal> for TallyError {
    ghost from_gives = { λ refusal e. e ≡ Refused refusal };

    fn from(refusal: Refusal) -> TallyError {
        TallyError::Refused(refusal)
    }
}

// How many atoms may be undecided.
const MOST: usize = 12;

// The undecided atoms below a number, ascending, as far as the list has room; the answer is how many there are.
fn list_open(count: usize, open_atoms: &[u64], list: &mut [u16]) -> usize
    requires { (count ≤ 1024) × (length list.old ≡ 12) }
    ensures { Listed (bit_at open_atoms.now) list.new count result }
{
    let mut open: usize = 0;
    for a in 0..count {
        if mask::bit(open_atoms, a) {
            if open < MOST {
                list[open] = a as u16;
            }
            open += 1;
        }
    }
    open
}

// What becomes of atom a under one choice: 0 if it still waits, and so is missing; 1 if it is ruled out; 2 if neither.
fn outcome(cut: &[u64], waiting: &[u16], a: usize) -> usize
    requires { a < length waiting.now }
    ensures { result ≡ cond (flagged waiting.now a) 0 (cond (bit_at cut.now a) 1 2) }
{
    if words::at(waiting, a) == SET {
        return 0;
    }
    if mask::bit(cut, a) {
        return 1;
    }
    2
}

// Counts one choice.
fn count_atoms(cut: &[u64], waiting: &[u16], output: &mut [u16])
    requires fits { (length output.old ≡ 3 * length waiting.now) × (length waiting.now ≤ 1024) × ((i : ℕ) → get_or output.old i 0 < 4096) }
    requires apart { (a : ℕ) → a < length waiting.now → Is (flagged waiting.now a) → bit_at cut.now a ≡ false }
    ensures { ChoiceAdded (flagged waiting.now) (bit_at cut.now) output.old output.new (length waiting.now) }
{
    for a in 0..waiting.len() {
        output[3 * a + outcome(cut, waiting, a)] += 1;
    }
}

// What all choices have in common. The recursion is lent it by one reference, so that a level takes little of the stack.
#[derive(Clone, Copy)]
struct Fixed<'a> {
    graph: &'a [u16],
    never: &'a [u64],
    bases: Bases,
    cone: Cone,
}

// One choice: its pass, and its counts.
fn count_choice(f: &Fixed, cut: &[u64], output: &mut [u16], work: &mut [u16])
    requires { Ready f.now.graph.now cut.now [] output.old work.old f.now.bases f.now.cone }
    ensures { Over f.now.graph.now (bit_at f.now.never.now) cut.now [] output.old work.old f.now.bases f.now.cone cut.now output.new work.new }
{
    let from = f.bases.dependencies;
    let to = from + f.bases.atoms;
    preparation::pass(f.graph, f.never, cut, work, f.bases, f.cone);
    count_atoms(cut, &work[from..to], output);
}

// All choices of the undecided atoms that are left: the first of them is left uncut, then ruled out, and each time the counts are added.
fn count_choices(f: &Fixed, cut: &mut [u64], left: &[u16], output: &mut [u16], work: &mut [u16])
    requires { Ready f.now.graph.now cut.old left.now output.old work.old f.now.bases f.now.cone }
    ensures { Over f.now.graph.now (bit_at f.now.never.now) cut.old left.now output.old work.old f.now.bases f.now.cone cut.new output.new work.new }
{
    let Some((&first, rest)) = left.split_first() else {
        count_choice(f, cut, output, work);
        return;
    };
    let atom = usize::from(first);
    let word = cut[atom / 64];
    count_choices(f, cut, rest, output, work);
    mask::set_bit(cut, atom);
    count_choices(f, cut, rest, output, work);
    cut[atom / 64] = word;
}

// The words of a mask over as many atoms as a graph of edition 1 can have.
const WORDS: usize = 16;

// Every choice of the listed atoms, from what a pass goes by on.
fn every_choice(f: &Fixed, atom_never: &[u64], list: &[u16], output: &mut [u16], work: &mut [u16])
    requires stands { Accepted edition1 f.now.graph.now × Stood f.now.graph.now f.now.bases work.old f.now.cone }
    requires fits { (length output.old ≡ 3 * f.now.bases.atoms) × (length atom_never.now ≤ 16) × (length list.now ≤ 12) × ((i : ℕ) → i < length list.now → get_or list.now i 0 < 1024) }
    ensures { EveryChoice f.now.graph.now (bit_at f.now.never.now) (bit_at atom_never.now) list.now work.old output.new work.new }
{
    let mut cut = [0u64; WORDS];
    cut[..atom_never.len()].copy_from_slice(atom_never);
    area::clear(output);
    count_choices(f, &mut cut, list, output, work);
}

// Refusal 10: three masks and the output.
#[tactic(auto, unfolding(crate::specs::Answers::bad_tally_lengths))]
fn bad_lengths(
    graph: &[u16],
    never: usize,
    atom_never: usize,
    open_atoms: usize,
    output: usize,
) -> bool
    requires { Accepted edition1 graph.now }
    ensures { result ≡ bad_tally_lengths graph.now never atom_never open_atoms output }
{
    let atoms = graph::atoms(graph);
    founded::bad_mask(graph::nodes(graph), never)
        || founded::bad_mask(atoms, atom_never)
        || founded::bad_mask(atoms, open_atoms)
        || output != 3 * atoms
}

// The call after refusals 1 to 9 and 14, 10, 21, 22 and 11, with the undecided atoms listed.
fn tally_accepted(
    graph: &[u16],
    never: &[u64],
    atom_never: &[u64],
    open_atoms: &[u64],
    list: &[u16],
    output: &mut [u16],
    work: &mut [u16],
) -> Result<(), TallyError>
    requires accepted { graph_answer edition1 graph.now ≡ accept }
    requires lengths { bad_tally_lengths graph.now (length never.now) (length atom_never.now) (length open_atoms.now) (length output.old) ≡ false }
    requires apart { both_below (get_or graph.now 1 0) (bit_at atom_never.now) (bit_at open_atoms.now) ≡ false }
    requires listed { (list.now ≡ members (get_or graph.now 1 0) (bit_at open_atoms.now)) × (length list.now ≤ 12) }
    requires area { length work.old ≡ area_of edition1 (theory_of graph.now) }
    ensures { Tallies graph.now never.now atom_never.now open_atoms.now output.old work.old output.new work.new result }
{
    let words = work.len();
    let bases = area::bases_of(graph, words);
    match preparation::stand(graph, work, bases) {
        Ok(cone) => {
            let f = Fixed {
                graph,
                never,
                bases,
                cone,
            };
            every_choice(&f, atom_never, list, output, work);
            area::wipe(work);
            Ok(())
        }
        Err(absorbed) => {
            area::wipe(work);
            Err(TallyError::Absorbed(absorbed.node))
        }
    }
}

// For each atom in how many choices of the undecided atoms it is missing, ruled out, or neither.
pub fn tally(
    graph: &[u16],
    never: &[u64],
    atom_never: &[u64],
    open_atoms: &[u64],
    output: &mut [u16],
    work: &mut [u16],
) -> Result<(), TallyError>
    ensures { Tallies graph.now never.now atom_never.now open_atoms.now output.old work.old output.new work.new result }
{
    checking::check(graph)?;
    if bad_lengths(
        graph,
        never.len(),
        atom_never.len(),
        open_atoms.len(),
        output.len(),
    ) {
        return Err(TallyError::Lengths);
    }
    let atoms = graph::atoms(graph);
    if undecided::overlap(atoms, atom_never, open_atoms) {
        return Err(TallyError::Both);
    }
    let mut list = [0u16; MOST];
    let open = list_open(atoms, open_atoms, &mut list);
    if open > MOST {
        return Err(TallyError::Many);
    }
    if work.len() != u16::area_words(graph) {
        return Err(TallyError::Work);
    }
    tally_accepted(
        graph,
        never,
        atom_never,
        open_atoms,
        &list[..open],
        output,
        work,
    )
}
