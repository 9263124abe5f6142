// Preparation and the pass (document 01, "Preparation" and "Pass"): the two public calls.
#![tactic(auto)]

ghost use Rattle.std.specs.Prelude.{◌≡◌, false, ◌+◌, ◌≤◌, eqb, length, get_or, replicate};
ghost use Rattle.theory.specs.Words.{theory_of};
ghost use Rattle.theory.specs.Accepted.{area_of};
ghost use Rattle.mask.specs.Mask.{words_of, pack};
ghost use Rattle.refusals.specs.Answer.{accept};
ghost use Rattle.refusals.specs.Refusals.{graph_answer};
ghost use Rattle.founded.specs.declared.CallError.TheVariants.{Refused};
ghost use Rattle.founded.specs.Answers.{bad_mask, bad_output, bad_lengths, Prepares, Completes};

use area::length::Area;
use refusals::Refusal;
use words::Word;

// Why a call is turned away. specs/Answers has the number and place of each.
#[derive(Clone, Copy, Debug, PartialEq, Eq)]
pub enum CallError {
    Refused(Refusal),
    Lengths,
    Work,
    Absorbed(usize),
}

// For `?`; no derive makes it. Crate cycles has the same over its own error.
impl From<Refusal> for CallError {
    ghost from_gives = { λ refusal e. e ≡ Refused refusal };

    fn from(refusal: Refusal) -> CallError {
        CallError::Refused(refusal)
    }
}

// Whether a mask is longer than one over so many numbers. A shorter one is fine: a bit past its end is no cut (`mask::bit`).
pub fn bad_mask(count: usize, words: usize) -> bool
    ensures { result ≡ bad_mask count words }
{
    mask::words(count) < words
}

// Whether an output has another length than a mask over so many numbers.
pub fn bad_output(count: usize, words: usize) -> bool
    ensures { result ≡ bad_output count words }
{
    words != mask::words(count)
}

// Writes the set that the flags from `from` on stand for, and clears the words.
pub fn hand_out<W: Word>(words: &mut [W], from: usize, atoms: usize, output: &mut [u64])
    requires { (from + atoms ≤ length (W.numbers words.old)) × (length output.old ≡ words_of atoms) }
    ensures output_after { output.new ≡ pack atoms (λ a. eqb (get_or (W.numbers words.old) (from + a) 0) 1) }
    ensures words_after { W.numbers words.new ≡ replicate (length (W.numbers words.old)) 0 }
{
    let to = from + atoms;
    mask::pack_flags(&words[from..to], output);
    area::wipe(words);
}

// Preparation after refusals 1 to 11. The pass below has the same steps over its own stage, its own row of flags and its own promise; one function over a closure would need, beside these, a
// contract of what the closure leaves behind its `&mut` and for which set, so it would be longer than the two.
fn prepare_accepted<W: Area>(
    graph: &[W],
    output: &mut [u64],
    work: &mut [W],
) -> Result<(), CallError>
    requires { (graph_answer W.edition (W.numbers graph.now) ≡ accept) × (bad_output (get_or (W.numbers graph.now) 1 0) (length output.old) ≡ false) × (length (W.numbers work.old) ≡ area_of W.edition (theory_of (W.numbers graph.now))) }
    ensures { Prepares W.edition (W.numbers graph.now) output.old (W.numbers work.old) output.new (W.numbers work.new) result }
{
    let words = work.len();
    let b = area::bases_of(graph, words);
    match preparation::cyclic_atoms(graph, work, b) {
        Ok(()) => {
            hand_out(work, b.cyclic_atoms, b.atoms, output);
            Ok(())
        }
        Err(absorbed) => {
            area::wipe(work);
            Err(CallError::Absorbed(absorbed.node))
        }
    }
}

// Preparation: the cyclic atoms. Refusal 10 asks for other lengths here than in the pass.
pub fn prepare<W: Area>(graph: &[W], output: &mut [u64], work: &mut [W]) -> Result<(), CallError>
    ensures { Prepares W.edition (W.numbers graph.now) output.old (W.numbers work.old) output.new (W.numbers work.new) result }
{
    checking::check(graph)?;
    if bad_output(graph::atoms(graph), output.len()) {
        return Err(CallError::Lengths);
    }
    if work.len() != W::area_words(graph) {
        return Err(CallError::Work);
    }
    prepare_accepted(graph, output, work)
}

// Refusal 10 of the pass.
#[tactic(auto, unfolding(crate::specs::Answers::bad_lengths))]
pub fn bad_lengths<W: Word>(graph: &[W], never: usize, atom_never: usize, output: usize) -> bool
    requires { 5 ≤ length (W.numbers graph.now) }
    ensures { result ≡ bad_lengths (W.numbers graph.now) never atom_never output }
{
    let atoms = graph::atoms(graph);
    bad_mask(graph::nodes(graph), never) || bad_mask(atoms, atom_never) || bad_output(atoms, output)
}

// The pass after refusals 1 to 11.
fn complete_accepted<W: Area>(
    graph: &[W],
    never: &[u64],
    atom_never: &[u64],
    output: &mut [u64],
    work: &mut [W],
) -> Result<(), CallError>
    requires { (graph_answer W.edition (W.numbers graph.now) ≡ accept) × (bad_lengths (W.numbers graph.now) (length never.now) (length atom_never.now) (length output.old) ≡ false) × (length (W.numbers work.old) ≡ area_of W.edition (theory_of (W.numbers graph.now))) }
    ensures { Completes W.edition (W.numbers graph.now) never.now atom_never.now output.old (W.numbers work.old) output.new (W.numbers work.new) result }
{
    let words = work.len();
    let b = area::bases_of(graph, words);
    match preparation::missing(graph, never, atom_never, work, b) {
        Ok(()) => {
            hand_out(work, b.dependencies, b.atoms, output);
            Ok(())
        }
        Err(absorbed) => {
            area::wipe(work);
            Err(CallError::Absorbed(absorbed.node))
        }
    }
}

// The pass: the missing atoms.
pub fn complete<W: Area>(
    graph: &[W],
    never: &[u64],
    atom_never: &[u64],
    output: &mut [u64],
    work: &mut [W],
) -> Result<(), CallError>
    ensures { Completes W.edition (W.numbers graph.now) never.now atom_never.now output.old (W.numbers work.old) output.new (W.numbers work.new) result }
{
    checking::check(graph)?;
    if bad_lengths(graph, never.len(), atom_never.len(), output.len()) {
        return Err(CallError::Lengths);
    }
    if work.len() != W::area_words(graph) {
        return Err(CallError::Work);
    }
    complete_accepted(graph, never, atom_never, output, work)
}
