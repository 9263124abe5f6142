// Preparation and the pass on the work area: row tables, body cone, cyclic atoms, cyclic cone; then start states and the worklist. What a pass goes by stands when it is over: many passes
// can go by one preparation.
#![tactic(auto)]

ghost use Rattle.std.specs.Prelude.{length};
ghost use Rattle.theory.specs.Sets.{Set};
ghost use Rattle.theory.specs.Words.{bit_at, theory_of};
ghost use Rattle.theory.specs.Founded.{cyclic, cyclic_cone, missing};
ghost use Rattle.theory.specs.Pass.{EnoughAmong};
ghost use Rattle.theory.specs.Accepted.{Accepted};
ghost use Rattle.area.specs.Layout.{bases_of, Based};
ghost use Rattle.preparation.specs.Flags.{Marked, Listed};
ghost use Rattle.preparation.specs.Stages.{Rowed, Onward, Marking, Staged, Standing, Stood, Passing};

use adjacency::Table;
use area::Bases;
use cones::{Absorbed, Cone};
use finishing::NEW;
use words::Word;

// The four row tables.
#[inline(always)]
pub fn build_rows<W: Word>(graph: &[W], work: &mut [W], b: Bases)
    requires { Accepted W.edition (W.numbers graph.now) × Based (W.numbers graph.now) (length (W.numbers work.old)) b }
    ensures { Rowed (W.numbers graph.now) b (W.numbers work.old) (W.numbers work.new) }
{
    adjacency::build_in(graph, work, b, Table::AtomNodes);
    adjacency::build_in(graph, work, b, Table::Parents);
    adjacency::build_in(graph, work, b, Table::ByHead);
    adjacency::build_in(graph, work, b, Table::ByBody);
}

// Atoms, which are vertices of preparation all of them, and the nodes of the body cone: the cyclic atoms among them.
fn walk<W: Word>(graph: &[W], work: &mut [W], b: Bases)
    requires { Accepted W.edition (W.numbers graph.now) × Onward (W.numbers graph.now) b (W.numbers work.old) }
    ensures { Marking (W.numbers graph.now) b (W.numbers work.old) (W.numbers work.new) }
{
    let from = b.states;
    let to = from + b.atoms;
    words::fill(&mut work[from..to], W::of(NEW));
    components::cyclic_atoms(graph, work, b);
}

// Row tables, body cone and cyclic atoms.
fn mark_in<W: Word>(graph: &[W], work: &mut [W], b: Bases) -> Result<(), Absorbed>
    requires { Accepted W.edition (W.numbers graph.now) × Based (W.numbers graph.now) (length (W.numbers work.old)) b }
    ensures { Staged (W.numbers graph.now) b (W.numbers work.old) (W.numbers work.new) result }
{
    build_rows(graph, work, b);
    cones::body_cone(graph, work, b)?;
    walk(graph, work, b);
    Ok(())
}

// The same, with the bases worked out here (`area::bases_of` says why, and cones::find why each does it by itself).
fn mark<W: Word>(graph: &[W], work: &mut [W]) -> Result<(), Absorbed>
    requires { Accepted W.edition (W.numbers graph.now) × Based (W.numbers graph.now) (length (W.numbers work.old)) (bases_of (W.numbers graph.now) (length (W.numbers work.old))) }
    ensures { Staged (W.numbers graph.now) (bases_of (W.numbers graph.now) (length (W.numbers work.old))) (W.numbers work.old) (W.numbers work.new) result }
{
    let words = work.len();
    mark_in(graph, work, area::bases_of(graph, words))
}

// The cyclic atoms, flagged.
pub fn cyclic_atoms<W: Word>(graph: &[W], work: &mut [W], b: Bases) -> Result<(), Absorbed>
    requires { Accepted W.edition (W.numbers graph.now) × Based (W.numbers graph.now) (length (W.numbers work.old)) b }
    ensures { Marked (W.numbers graph.now) b (W.numbers work.old) (W.numbers work.new) result }
{
    mark(graph, work)
}

// All that a pass goes by: the rows, the flags of the cyclic atoms, and the cyclic cone.
#[inline(always)]
pub fn stand<W: Word>(graph: &[W], work: &mut [W], b: Bases) -> Result<Cone, Absorbed>
    requires { Accepted W.edition (W.numbers graph.now) × Based (W.numbers graph.now) (length (W.numbers work.old)) b }
    ensures { Stood (W.numbers graph.now) b (cyclic (theory_of (W.numbers graph.now))) (cyclic_cone (theory_of (W.numbers graph.now))) (W.numbers work.old) (W.numbers work.new) result }
{
    mark(graph, work)?;
    Ok(cones::cyclic_cone(graph, work, b))
}

// A pass, whatever is marked: what is founded is settled, and an atom that is left unfounded still waits. Counts and queue are written, nothing else.
#[inline(always)]
pub fn pass<W: Word>(
    graph: &[W],
    never: &[u64],
    atom_never: &[u64],
    work: &mut [W],
    b: Bases,
    c: Cone,
)
    requires { Accepted W.edition (W.numbers graph.now) × (marked : Set) × (cone : Set) × Standing (W.numbers graph.now) b marked cone (W.numbers work.old) c × EnoughAmong (theory_of (W.numbers graph.now)) marked cone (bit_at never.now) (bit_at atom_never.now) }
    ensures { Passing (W.numbers graph.now) (bit_at never.now) (bit_at atom_never.now) b (W.numbers work.old) (W.numbers work.new) c }
{
    let first = initialization::start(graph, never, atom_never, work, b, c.nodes, c.facts);
    events::settle_all(graph, work, first);
}

// The missing atoms, flagged where their counts were.
pub fn missing<W: Word>(
    graph: &[W],
    never: &[u64],
    atom_never: &[u64],
    work: &mut [W],
    b: Bases,
) -> Result<(), Absorbed>
    requires { Accepted W.edition (W.numbers graph.now) × Based (W.numbers graph.now) (length (W.numbers work.old)) b }
    ensures { Listed (W.numbers graph.now) (missing (theory_of (W.numbers graph.now)) (bit_at never.now) (bit_at atom_never.now)) b (W.numbers work.old) (W.numbers work.new) result }
{
    let c = stand(graph, work, b)?;
    pass(graph, never, atom_never, work, b, c);
    Ok(())
}
