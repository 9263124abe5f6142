// States that nothing produces (document 02, request 6): the list of the pass with every atom marked. There is no component search, and one cone.
#![tactic(auto)]

ghost use Rattle.std.specs.Prelude.{◌≡◌, false, ◌≤◌, ◌+◌, length, get_or};
ghost use Rattle.theory.specs.Words.{theory_of, bit_at};
ghost use Rattle.theory.specs.Accepted.{Accepted, area_of};
ghost use Rattle.theory.specs.Edges.{body_cone};
ghost use Rattle.theory.specs.EveryAtom.{every_atom, missing_all};
ghost use Rattle.area.specs.Layout.{Laid, Based};
ghost use Rattle.area.proofs.FillLaws.{Filled};
ghost use Rattle.refusals.specs.Answer.{accept};
ghost use Rattle.refusals.specs.Refusals.{graph_answer};
ghost use Rattle.preparation.specs.Flags.{Listed};
ghost use Rattle.preparation.specs.Stages.{Stood};
ghost use Rattle.founded.specs.Answers.{bad_lengths};
ghost use Rattle.unfounded.specs.Unproduced.{ListsUnfounded};

use area::Bases;
use area::length::Area;
use cones::{Absorbed, Cone};
use founded::CallError;
use words::Word;

// Every atom is marked.
fn mark_all<W: Word>(work: &mut [W], b: Bases)
    requires { Laid b × (b.end ≤ length (W.numbers work.old)) }
    ensures { Filled b.cyclic_atoms (b.cyclic_atoms + b.atoms) 1 (W.numbers work.old) (W.numbers work.new) }
{
    let from = b.cyclic_atoms;
    let to = from + b.atoms;
    words::fill(&mut work[from..to], W::of(words::SET));
}

// All that the pass goes by where every atom is marked: the rows, the flags and the body cone.
fn stand<W: Word>(graph: &[W], work: &mut [W], b: Bases) -> Result<Cone, Absorbed>
    requires { Accepted W.edition (W.numbers graph.now) × Based (W.numbers graph.now) (length (W.numbers work.old)) b }
    ensures { Stood (W.numbers graph.now) b (every_atom (theory_of (W.numbers graph.now))) (body_cone (theory_of (W.numbers graph.now))) (W.numbers work.old) (W.numbers work.new) result }
{
    preparation::build_rows(graph, work, b);
    mark_all(work, b);
    cones::body_cone(graph, work, b)
}

// The uncut atoms that are left unfounded, flagged where their counts were.
fn missing_all<W: Word>(
    graph: &[W],
    never: &[u64],
    atom_never: &[u64],
    work: &mut [W],
    b: Bases,
) -> Result<(), Absorbed>
    requires { Accepted W.edition (W.numbers graph.now) × Based (W.numbers graph.now) (length (W.numbers work.old)) b }
    ensures { Listed (W.numbers graph.now) (missing_all (theory_of (W.numbers graph.now)) (bit_at never.now) (bit_at atom_never.now)) b (W.numbers work.old) (W.numbers work.new) result }
{
    let c = stand(graph, work, b)?;
    preparation::pass(graph, never, atom_never, work, b, c);
    Ok(())
}

// The call after refusals 1 to 11.
fn unfounded_accepted<W: Area>(
    graph: &[W],
    never: &[u64],
    atom_never: &[u64],
    output: &mut [u64],
    work: &mut [W],
) -> Result<(), CallError>
    requires { (graph_answer W.edition (W.numbers graph.now) ≡ accept) × (bad_lengths (W.numbers graph.now) (length never.now) (length atom_never.now) (length output.old) ≡ false) × (length (W.numbers work.old) ≡ area_of W.edition (theory_of (W.numbers graph.now))) }
    ensures { ListsUnfounded W.edition (W.numbers graph.now) never.now atom_never.now output.old (W.numbers work.old) output.new (W.numbers work.new) result }
{
    let words = work.len();
    let b = area::bases_of(graph, words);
    match missing_all(graph, never, atom_never, work, b) {
        Ok(()) => {
            founded::hand_out(work, b.dependencies, b.atoms, output);
            Ok(())
        }
        Err(absorbed) => {
            area::wipe(work);
            Err(CallError::Absorbed(absorbed.node))
        }
    }
}

// The uncut atoms that are left unfounded with every atom marked. Rows 1 to 12 are those of `founded::complete`.
pub fn unfounded<W: Area>(
    graph: &[W],
    never: &[u64],
    atom_never: &[u64],
    output: &mut [u64],
    work: &mut [W],
) -> Result<(), CallError>
    ensures { ListsUnfounded W.edition (W.numbers graph.now) never.now atom_never.now output.old (W.numbers work.old) output.new (W.numbers work.new) result }
{
    checking::check(graph)?;
    if founded::bad_lengths(graph, never.len(), atom_never.len(), output.len()) {
        return Err(CallError::Lengths);
    }
    if work.len() != W::area_words(graph) {
        return Err(CallError::Work);
    }
    unfounded_accepted(graph, never, atom_never, output, work)
}
