// The two cones of preparation (document 01, "Preparation"): the bodies of the wanted producers, and the leaves of every And and Or reached. The
// search marks a node when it finds it, and the list of the nodes found is its queue.
#![tactic(auto)]

ghost use Rattle.std.specs.Prelude.{◌≡◌, cond, List, ℕ, ◌+◌, ◌≤◌, ◌<◌, length};
ghost use Rattle.theory.specs.Sets.{Set};
ghost use Rattle.theory.specs.Theory.{Theory};
ghost use Rattle.theory.specs.Words.{theory_of};
ghost use Rattle.theory.specs.Edges.{body_cone, absorbed_node};
ghost use Rattle.theory.specs.Accepted.{Accepted};
ghost use Rattle.refusals.specs.Search.{Finds};
ghost use Rattle.area.specs.declared.Bases.{Bases};
ghost use Rattle.area.specs.Layout.{Laid, bases_of, Based};
ghost use Rattle.cones.specs.Cones.{node_mark, headed, cyclic_headed, Flagged, Kept, body_coned, cyclic_coned};
ghost use Rattle.cones.specs.Finding.{Given, kept_flags, Stage, Searching, Begun, Searched};

use area::Bases;
use chains::Step;
use refusals::search::first;
use words::Word;

// How many nodes a cone has, and how many facts were wanted.
#[derive(Clone, Copy)]
pub struct Cone {
    pub nodes: usize,
    pub facts: usize,
}

// Why there is no body cone: a node of it is absorbed (refusal 12).
#[derive(Clone, Copy, Debug, PartialEq, Eq)]
pub struct Absorbed {
    pub node: usize,
}

// The mark of a node that is found: a word of the work area, so no enum. Others have 0.
const FOUND: usize = 1;

// Which producers a cone starts from. (`Given` speaks of the words of the work area at one time, and `Kept` at two: `area::Bases` says why no struct holds them.)
trait Wanted<W: Word>: Copy {
    // They, and what the test of one reads in the work area.
    ghost set: { Theory → Set };

    ghost reads: { Theory → Bases → List ℕ → Type 0 };

    fn has(self, graph: &[W], work: &[W], b: Bases, p: usize) -> bool
        requires given { Given W.edition reads (W.numbers graph.now) b (W.numbers work.now) × (p < (theory_of (W.numbers graph.now)).producers) }
        ensures { result ≡ set (theory_of (W.numbers graph.now)) p };

    // A search changes nothing of that.
    ghost stays: { (th : Theory) (b : Bases) (w w' : List ℕ) → Kept b w w' → reads th b w → reads th b w' };
}

// Those with some head.
#[derive(Clone, Copy)]
struct Headed;

impl<W: Word> Wanted<W> for Headed {
    ghost set = { headed };

    ghost reads = { λ th b w. Unit {0} };

    ghost stays = { λ th b w w' kept read. read };

    #[tactic(auto, unfolding(theory::specs::Words::theory_of))]
    fn has(self, graph: &[W], work: &[W], b: Bases, p: usize) -> bool {
        graph::first_head(graph, p) > 0
    }
}

// Those with a cyclic head.
#[derive(Clone, Copy)]
struct CyclicHeaded;

impl<W: Word> Wanted<W> for CyclicHeaded {
    ghost set = { cyclic_headed };

    ghost reads = { Flagged };

    ghost stays = { kept_flags };

    // The chain of heads is gone along to its end: which head is the first cyclic one cannot be foreseen. Nothing is changed at a head, so this is no
    // `chains::Step`.
    #[tactic(auto, unfolding(theory::specs::Words::theory_of))]
    fn has(self, graph: &[W], work: &[W], b: Bases, p: usize) -> bool {
        let mut found = false;
        for a in graph::follow(graph, graph::first_head(graph, p)) {
            found |= words::at(work, b.cyclic_atoms + a) == words::SET;
        }
        found
    }
}

// A node is marked, and listed unless it was found already. It is stored behind the list all the same: whether it is new cannot be foreseen either.
// The list stands in the lent work area, as there is no heap, and `count` says how long it is.
#[derive(Clone, Copy)]
struct Include {
    bases: Bases,
}

impl<W: Word> Step<W> for Include {
    ghost Context = { Stage };

    ghost held = { λ it. Searching W.limit it.bases };

    ghost kept = { λ it. it.bases.states };

    fn step(self, work: &mut [W], n: usize, count: usize) -> usize {
        let b = self.bases;
        let mark = b.states + (b.atoms + n);
        let found = words::at(work, mark);
        words::put(work, mark, FOUND);
        words::put(work, b.body_nodes + count, n);
        count + 1 - found
    }
}

// Producer p: the body of a wanted one is included, and a wanted fact is listed.
fn begin_at<W: Word, S: Wanted<W>>(
    graph: &[W],
    work: &mut [W],
    b: Bases,
    wanted: S,
    p: usize,
    c: Cone,
) -> Cone
    requires given { Given W.edition S.reads (W.numbers graph.now) b (W.numbers work.old) × (p < (theory_of (W.numbers graph.now)).producers) }
    requires begun { Begun W.limit (theory_of (W.numbers graph.now)) (S.set (theory_of (W.numbers graph.now))) b (W.numbers work.old) p c }
    ensures { Begun W.limit (theory_of (W.numbers graph.now)) (S.set (theory_of (W.numbers graph.now))) b (W.numbers work.new) (p + 1) result × Kept b (W.numbers work.old) (W.numbers work.new) }
{
    if !wanted.has(graph, work, b, p) {
        return c;
    }
    if let Some(body) = graph::body_node(graph, p) {
        let nodes = Include { bases: b }.step(work, body, c.nodes);
        return Cone { nodes, ..c };
    }
    words::put(work, b.fact_rows + c.facts, p);
    Cone {
        facts: c.facts + 1,
        ..c
    }
}

// Every producer in turn; no node is marked yet.
fn begin<W: Word, S: Wanted<W>>(graph: &[W], work: &mut [W], b: Bases, wanted: S) -> Cone
    requires given { Given W.edition S.reads (W.numbers graph.now) b (W.numbers work.old) }
    requires begun { Begun W.limit (theory_of (W.numbers graph.now)) (S.set (theory_of (W.numbers graph.now))) b (W.numbers work.old) 0 (record { nodes = 0; facts = 0 }) }
    ensures { Begun W.limit (theory_of (W.numbers graph.now)) (S.set (theory_of (W.numbers graph.now))) b (W.numbers work.new) (theory_of (W.numbers graph.now)).producers result × Kept b (W.numbers work.old) (W.numbers work.new) }
{
    let mut c = Cone { nodes: 0, facts: 0 };
    for p in 0..b.producers {
        c = begin_at(graph, work, b, wanted, p, c);
    }
    c
}

// No node is in the cone. The marks of atoms are not read here.
fn clear_marks<W: Word>(work: &mut [W], b: Bases)
    requires { Laid b × (b.end ≤ length (W.numbers work.old)) }
    ensures { Kept b (W.numbers work.old) (W.numbers work.new) × ((n : ℕ) → n < b.nodes → node_mark b (W.numbers work.new) n ≡ 0) }
{
    let from = b.states + b.atoms;
    let to = from + b.nodes;
    area::clear(&mut work[from..to]);
}

// The cone: first the bodies, then the leaves of each node of the list in turn. In an accepted graph only And and Or have leaves.
fn find_in<W: Word, S: Wanted<W>>(graph: &[W], work: &mut [W], b: Bases, wanted: S) -> Cone
    requires { Given W.edition S.reads (W.numbers graph.now) b (W.numbers work.old) }
    ensures { Searched (theory_of (W.numbers graph.now)) (S.set (theory_of (W.numbers graph.now))) b (W.numbers work.old) (W.numbers work.new) result }
{
    clear_marks(work, b);
    let c = begin(graph, work, b, wanted);
    let bodies = c.nodes;
    let mut nodes = bodies;
    let mut next: usize = 0;
    // a queue: a turn may add to it, and a `for` fixes its end before the first turn
    while next < nodes {
        let n = words::at(work, b.body_nodes + next);
        nodes = chains::along(
            graph,
            work,
            Include { bases: b },
            graph::first_leaf(graph, n),
            nodes,
        );
        next += 1;
    }
    Cone { nodes, ..c }
}

// The same, with the bases worked out here (`area::bases_of` says why). So do events::settle_all and preparation::mark: one function for the three would be handed a closure, with
// its clauses at each of them, for these two lines.
#[inline(never)]
fn find<W: Word, S: Wanted<W>>(graph: &[W], work: &mut [W], wanted: S) -> Cone
    requires { Given W.edition S.reads (W.numbers graph.now) (bases_of (W.numbers graph.now) (length (W.numbers work.old))) (W.numbers work.old) }
    ensures { Searched (theory_of (W.numbers graph.now)) (S.set (theory_of (W.numbers graph.now))) (bases_of (W.numbers graph.now) (length (W.numbers work.old))) (W.numbers work.old) (W.numbers work.new) result }
{
    let words = work.len();
    find_in(graph, work, area::bases_of(graph, words), wanted)
}

// Whether a node is absorbed and in the body cone.
#[tactic(auto, unfolding(theory::specs::Words::theory_of))]
fn refused_at<W: Word>(graph: &[W], work: &[W], b: Bases, n: usize) -> bool
    requires accepted { Accepted W.edition (W.numbers graph.now) × Based (W.numbers graph.now) (length (W.numbers work.now)) b × (n < (theory_of (W.numbers graph.now)).nodes) }
    requires mark { node_mark b (W.numbers work.now) n ≡ cond (body_cone (theory_of (W.numbers graph.now)) n) 1 0 }
    ensures { result ≡ absorbed_node (theory_of (W.numbers graph.now)) n }
{
    let mark = b.states + (b.atoms + n);
    words::at(work, mark) == FOUND && graph::node_kind(graph, n).absorbed()
}

// Row 12: the first of them.
fn first_refused<W: Word>(graph: &[W], work: &[W], b: Bases) -> Option<usize>
    requires accepted { Accepted W.edition (W.numbers graph.now) × Based (W.numbers graph.now) (length (W.numbers work.now)) b }
    requires marks { (n : ℕ) → n < (theory_of (W.numbers graph.now)).nodes → node_mark b (W.numbers work.now) n ≡ cond (body_cone (theory_of (W.numbers graph.now)) n) 1 0 }
    ensures { Finds (absorbed_node (theory_of (W.numbers graph.now))) 0 b.nodes result }
{
    first(0, b.nodes, |n| refused_at(graph, work, b, n))
}

// The body cone (document 01: the first cone), with the facts that have a head.
#[inline(always)]
pub fn body_cone<W: Word>(graph: &[W], work: &mut [W], b: Bases) -> Result<Cone, Absorbed>
    requires { Accepted W.edition (W.numbers graph.now) × Based (W.numbers graph.now) (length (W.numbers work.old)) b }
    ensures { Kept b (W.numbers work.old) (W.numbers work.new) × body_coned (theory_of (W.numbers graph.now)) b (W.numbers work.new) result }
{
    let c = find(graph, work, Headed);
    match first_refused(graph, work, b) {
        Some(node) => Err(Absorbed { node }),
        None => Ok(c),
    }
}

// The cyclic cone (document 01: the second cone).
#[inline(always)]
pub fn cyclic_cone<W: Word>(graph: &[W], work: &mut [W], b: Bases) -> Cone
    requires { Accepted W.edition (W.numbers graph.now) × Based (W.numbers graph.now) (length (W.numbers work.old)) b × Flagged (theory_of (W.numbers graph.now)) b (W.numbers work.old) }
    ensures { Kept b (W.numbers work.old) (W.numbers work.new) × cyclic_coned (theory_of (W.numbers graph.now)) b (W.numbers work.new) result }
{
    find(graph, work, CyclicHeaded)
}
