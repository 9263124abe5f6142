// The loop test: whether there is a closed walk over all atoms and all nodes, by counting how many entries each vertex waits for
// (Kahn 1962). Atom a is vertex a, and node n is vertex atoms + n.
#![tactic(auto)]

ghost use Rattle.std.specs.Prelude.{◌≡◌, true, ◌↔◌, [], ◌+◌, ◌<◌, ◌≤◌, length};
ghost use Rattle.theory.specs.Sets.{everyone};
ghost use Rattle.theory.specs.Words.{theory_of};
ghost use Rattle.theory.specs.Edges.{preds};
ghost use Rattle.theory.specs.Accepted.{Accepted};
ghost use Rattle.theory.specs.Founded.{has_cycle};
ghost use Rattle.area.specs.Layout.{Laid, Roomy, Based};
ghost use Rattle.cycles.specs.Held.{Started, Counting, Producers, Heads, Looked};
ghost use Rattle.cycles.specs.declared.NeedError.TheVariants.{Refused};
ghost use Rattle.cycles.specs.Outcome.{loops, outcome_of, outcome, work_after, ClosedWalk};

use adjacency::Table;
use area::Bases;
use area::length::Area;
use chains::Step;
use refusals::Refusal;
use words::Word;

// How many edges lead to node n: one from its operand, or one from each leaf.
fn degree<W: Word>(graph: &[W], n: usize) -> usize
    requires { Accepted W.edition (W.numbers graph.now) × (n < (theory_of (W.numbers graph.now)).nodes) }
    ensures { result ≡ length (preds (theory_of (W.numbers graph.now)) everyone ((theory_of (W.numbers graph.now)).atoms + n)) }
{
    if graph::node_kind(graph, n).takes_operand() {
        return 1;
    }
    graph::entries(graph, graph::first_leaf(graph, n))
}

// How many entries each node waits for. (`Started` is what the work area holds between `set_up` and `count_all`. The words change from contract to contract, so a struct with a
// ghost field that states it would have to be made anew after each call.)
fn count_nodes<W: Word>(graph: &[W], work: &mut [W], b: Bases)
    requires { Accepted W.edition (W.numbers graph.now) × Started W.limit (theory_of (W.numbers graph.now)) b (W.numbers work.old) 0 }
    ensures { Started W.limit (theory_of (W.numbers graph.now)) b (W.numbers work.new) b.nodes }
{
    for n in 0..b.nodes {
        words::put(work, b.dependencies + (b.atoms + n), degree(graph, n));
    }
}

// One more entry that a head waits for. (`tail`, the length of a list in lent memory, is what a `Step` hands on: no list grows here. In `look_all` it is the queue's;
// there is no heap to have a list of its own length on.)
#[derive(Clone, Copy)]
struct Count {
    bases: Bases,
}

impl<W: Word> Step<W> for Count {
    ghost Context = { Producers };

    ghost held = { λ it. Heads W.limit it.bases };

    ghost kept = { λ it. 0 };

    fn step(self, work: &mut [W], v: usize, tail: usize) -> usize {
        counters::add(work, self.bases.dependencies + v, 1);
        tail
    }
}

// The heads of producer p, one more for each; a fact has no edge to them.
fn count_heads<W: Word>(graph: &[W], work: &mut [W], b: Bases, p: usize)
    requires { Accepted W.edition (W.numbers graph.now) × (p < (theory_of (W.numbers graph.now)).producers) × Counting W.limit (theory_of (W.numbers graph.now)) b (W.numbers work.old) p [] }
    ensures { Counting W.limit (theory_of (W.numbers graph.now)) b (W.numbers work.new) (p + 1) [] }
{
    if graph::body_node(graph, p).is_none() {
        return;
    }
    chains::heads(graph, work, Count { bases: b }, p, 0);
}

// How many entries each vertex waits for.
fn count_all<W: Word>(graph: &[W], work: &mut [W], b: Bases)
    requires { Accepted W.edition (W.numbers graph.now) × Started W.limit (theory_of (W.numbers graph.now)) b (W.numbers work.old) 0 }
    ensures { Counting W.limit (theory_of (W.numbers graph.now)) b (W.numbers work.new) (theory_of (W.numbers graph.now)).producers [] }
{
    count_nodes(graph, work, b);
    for p in 0..graph::producers(graph) {
        count_heads(graph, work, b, p);
    }
}

// The vertices that wait for nothing, put on the queue.
fn look_all<W: Word>(work: &mut [W], b: Bases) -> usize
    requires { Laid b × (b.end ≤ length (W.numbers work.old)) × (b.atoms + b.nodes < W.limit) }
    ensures { Looked b (W.numbers work.old) (W.numbers work.new) (b.atoms + b.nodes) result }
{
    let mut tail: usize = 0;
    for v in 0..b.atoms + b.nodes {
        if words::at(work, b.dependencies + v) == 0 {
            words::put(work, b.queue + tail, v);
            tail += 1;
        }
    }
    tail
}

// The tables that are read, and a count of zero for each atom.
fn set_up<W: Word>(graph: &[W], work: &mut [W], b: Bases)
    requires { Accepted W.edition (W.numbers graph.now) × Based (W.numbers graph.now) (length (W.numbers work.old)) b }
    ensures { Started W.limit (theory_of (W.numbers graph.now)) b (W.numbers work.new) 0 }
{
    adjacency::build_in(graph, work, b, Table::AtomNodes);
    adjacency::build_in(graph, work, b, Table::Parents);
    adjacency::build_in(graph, work, b, Table::ByBody);
    let from = b.dependencies;
    let to = from + b.atoms;
    area::clear(&mut work[from..to]);
}

// Whether a closed walk keeps some vertex from being released.
fn cyclic<W: Word>(graph: &[W], work: &mut [W]) -> bool
    requires { Accepted W.edition (W.numbers graph.now) × Roomy (W.numbers graph.now) (length (W.numbers work.old)) }
    ensures { result ≡ has_cycle (theory_of (W.numbers graph.now)) }
{
    let words = work.len();
    let b = area::bases_of(graph, words);
    set_up(graph, work, b);
    count_all(graph, work, b);
    let first = look_all(work, b);
    let n = events::settle_all(graph, work, first);
    n < b.atoms + b.nodes
}

// Why a call is turned away. specs/Outcome has the number and place of each.
#[derive(Clone, Copy, Debug, PartialEq, Eq)]
pub enum NeedError {
    Refused(Refusal),
    Work,
}

// For `?`; no derive makes it. Crate founded has the same over its own error.
impl From<Refusal> for NeedError {
    ghost from_gives = { λ refusal e. e ≡ Refused refusal };

    fn from(refusal: Refusal) -> NeedError {
        NeedError::Refused(refusal)
    }
}

// Refusals 1 to 9, then 11, then whether there is a closed walk.
pub fn needed<W: Area>(graph: &[W], work: &mut [W]) -> Result<bool, NeedError>
    ensures result_value { outcome_of result ≡ outcome W.edition (W.numbers graph.now) (W.numbers work.old) }
    ensures work_after { W.numbers work.new ≡ work_after W.edition (W.numbers graph.now) (W.numbers work.old) }
    ensures variant { (yes : _) → outcome_of result ≡ loops yes → (yes ≡ true) ↔ ClosedWalk (theory_of (W.numbers graph.now)) }
{
    checking::check(graph)?;
    if work.len() != W::area_words(graph) {
        return Err(NeedError::Work);
    }
    let yes = cyclic(graph, work);
    area::wipe(work);
    Ok(yes)
}
