// The start states of the pass: what each vertex waits for, and on the queue what is found at once (the Rust: `Initial`, `Scratch::initialize`, and the
// facts of `complete`).
#![tactic(auto)]

ghost use Rattle.std.specs.Prelude.{◌≡◌, [], List, ℕ, ◌+◌, ◌<◌, ◌≤◌, length, drop, set};
ghost use Rattle.theory.specs.Sets.{Set, Is};
ghost use Rattle.theory.specs.Theory.{Atom};
ghost use Rattle.theory.specs.Words.{bit_at, theory_of};
ghost use Rattle.theory.specs.Prefix.{upto};
ghost use Rattle.theory.specs.Accepted.{Accepted};
ghost use Rattle.theory.specs.Drive.{Follows, Drives};
ghost use Rattle.theory.specs.Pass.{kind_mode};
ghost use Rattle.theory.specs.Starting.{first_count};
ghost use Rattle.area.specs.Layout.{Laid, Based};
ghost use Rattle.initialization.specs.Regions.{Flagged, Prepared, Begun};
ghost use Rattle.initialization.specs.Start.{initial_of, initial_at, Filled, Context, Fitting, AtFacts, Coning, AtCone, Stays};

use area::Bases;
use chains::Step;
use words::Word;

// A node's start state.
#[derive(Drop)]
pub enum Initial {
    Inactive,
    Awaiting(usize),
    True,
}

// Whether atom a is cyclic: a flag is a word of lent memory, 1 or 0. (`Flagged` stands in four contracts: `read` requires it, and the others say what they
// answer for whatever set is flagged.)
fn is_cyclic<W: Word>(work: &[W], b: Bases, a: usize) -> bool
    requires { Laid b × (b.end ≤ length (W.numbers work.now)) × (a < b.atoms) }
    ensures { (s : Set) → Flagged b (W.numbers work.now) s → result ≡ s a }
{
    words::at(work, b.cyclic_atoms + a) == words::SET
}

// What vertex v waits for before the facts and the nodes are looked at.
fn first_count<W: Word>(atom_never: &[u64], work: &[W], b: Bases, v: usize) -> usize
    requires { Laid b × (b.end ≤ length (W.numbers work.now)) }
    ensures { ((s : Set) → Flagged b (W.numbers work.now) s → result ≡ first_count s (bit_at atom_never.now) v) × (result ≤ 1) }
{
    if b.atoms <= v {
        return 0;
    }
    usize::from(is_cyclic(work, b, v) && !mask::bit(atom_never, v))
}

fn first_counts<W: Word>(atom_never: &[u64], work: &mut [W], b: Bases)
    requires { Laid b × (b.end ≤ length (W.numbers work.old)) }
    ensures { Filled b (bit_at atom_never.now) (W.numbers work.old) (W.numbers work.new) (b.atoms + b.nodes) }
{
    for v in 0..b.atoms + b.nodes {
        let count = first_count(atom_never, work, b, v);
        words::put(work, b.dependencies + v, count);
    }
}

// Vertex v is found. (The queue, the facts and the nodes of the cone are lists in lent memory, with their lengths in the numbers `tail`, `facts`, `nodes` and `count`:
// there is no heap to have a list of its own length on.)
fn push<W: Word>(work: &mut [W], b: Bases, v: usize, tail: usize) -> usize
    requires { (b.queue + tail < length (W.numbers work.old)) × (v < W.limit) }
    ensures { (W.numbers work.new ≡ set (W.numbers work.old) (b.queue + tail) v) × (result ≡ tail + 1) }
{
    words::put(work, b.queue + tail, v);
    tail + 1
}

// A head of a fact: found if it waits, so if its count, a word of lent memory, is not 0.
#[derive(Clone, Copy)]
struct Activate {
    bases: Bases,
}

impl<W: Word> Step<W> for Activate {
    ghost Context = { Context };

    ghost held = { λ it. Fitting W.limit it.bases };

    ghost kept = { λ it. it.bases.dependencies };

    #[inline(always)]
    fn step(self, work: &mut [W], a: usize, tail: usize) -> usize {
        let b = self.bases;
        if words::at(work, b.dependencies + a) == 0 {
            return tail;
        }
        words::put(work, b.dependencies + a, 0);
        push(work, b, a, tail)
    }
}

// A fact: its heads.
#[derive(Clone, Copy)]
struct Facts<'a, W> {
    graph: &'a [W],
    bases: Bases,
}

impl<W: Word> Step<W> for Facts<'_, W> {
    ghost Context = { Context };

    ghost held = { λ it. AtFacts W.edition W.limit (W.numbers it.graph.now) it.bases };

    ghost kept = { λ it. it.bases.dependencies };

    #[inline(always)]
    fn step(self, work: &mut [W], p: usize, tail: usize) -> usize {
        chains::heads(self.graph, work, Activate { bases: self.bases }, p, tail)
    }
}

// A node of the cone: its count, or its place on the queue if it waits for nothing.
#[derive(Clone, Copy)]
struct Nodes<'a, W> {
    graph: &'a [W],
    never: &'a [u64],
    atom_never: &'a [u64],
    bases: Bases,
}

impl<W: Word> Nodes<'_, W> {
    // An uncut Atom: that of a cyclic atom waits for it, and any other is true unless its atom is cut.
    fn read_atom(self, work: &[W], a: usize) -> Initial
        requires { Laid self.bases × (self.bases.end ≤ length (W.numbers work.now)) × (a < self.bases.atoms) }
        ensures { (s : Set) (n : ℕ) → Flagged self.entry.bases (W.numbers work.now) s → result ≡ initial_of (kind_mode Atom (s a) (bit_at self.entry.atom_never.now a)) n }
    {
        if is_cyclic(work, self.bases, a) {
            Initial::Awaiting(1)
        } else if mask::bit(self.atom_never, a) {
            Initial::Inactive
        } else {
            Initial::True
        }
    }

    // The start state of a node of the cone, by the kind table.
    fn read(self, work: &[W], n: usize) -> Initial
        requires accepted { Accepted W.edition (W.numbers self.graph.now) × Based (W.numbers self.graph.now) (length (W.numbers work.now)) self.bases }
        requires low { n < (theory_of (W.numbers self.graph.now)).nodes }
        ensures { (marked cone : Set) → Flagged self.entry.bases (W.numbers work.now) marked → Is (cone n) → result ≡ initial_at (W.numbers self.entry.graph.now) marked cone (bit_at self.entry.never.now) (bit_at self.entry.atom_never.now) n }
    {
        if mask::bit(self.never, n) {
            return Initial::Inactive;
        }
        let kind = graph::node_kind(self.graph, n);
        if kind.starts_true() {
            return Initial::True;
        }
        if kind.takes_operand() {
            return self.read_atom(work, graph::operand(self.graph, n));
        }
        if kind.waits_for_one() {
            return Initial::Awaiting(1);
        }
        if kind.waits_for_all() {
            return Initial::Awaiting(graph::entries(self.graph, graph::first_leaf(self.graph, n)));
        }
        Initial::Inactive
    }
}

impl<W: Word> Step<W> for Nodes<'_, W> {
    ghost Context = { Coning };

    ghost held = { λ it. AtCone W.edition (W.numbers it.graph.now) (bit_at it.never.now) (bit_at it.atom_never.now) it.bases };

    ghost kept = { λ it. it.bases.dependencies };

    #[inline(always)]
    fn step(self, work: &mut [W], n: usize, tail: usize) -> usize {
        let b = self.bases;
        let vertex = b.atoms + n;
        match self.read(work, n) {
            Initial::Inactive => tail,
            Initial::Awaiting(count) => {
                if count == 0 {
                    return push(work, b, vertex, tail);
                }
                words::put(work, b.dependencies + vertex, count);
                tail
            }
            Initial::True => push(work, b, vertex, tail),
        }
    }
}

// A list of the work area from its end, a step for each entry. No step changes the list.
#[inline(always)]
fn backwards<W: Word, S: Step<W>>(
    work: &mut [W],
    step: S,
    base: usize,
    count: usize,
    tail: usize,
) -> usize
    requires stays { (base + count ≤ length (W.numbers work.old)) × Stays (S.held step) base }
    requires follows { Follows (S.held step) (W.numbers work.old) tail (upto count (drop base (W.numbers work.old))) }
    ensures { Drives (S.held step) (S.kept step) (W.numbers work.old) tail (upto count (drop base (W.numbers work.old))) (W.numbers work.new) result [] }
{
    let mut t = tail;
    for i in (0..count).rev() {
        t = step.step(work, words::at(work, base + i), t);
    }
    t
}

// The counts of all vertices, and the queue of those found at once; the answer is its length.
#[inline(always)]
pub fn start<W: Word>(
    graph: &[W],
    never: &[u64],
    atom_never: &[u64],
    work: &mut [W],
    b: Bases,
    nodes: usize,
    facts: usize,
) -> usize
    requires { Accepted W.edition (W.numbers graph.now) × Based (W.numbers graph.now) (length (W.numbers work.old)) b × (marked : Set) × (cone : Set) × Prepared (W.numbers graph.now) b (W.numbers work.old) nodes facts marked cone }
    ensures { Begun (W.numbers graph.now) (bit_at never.now) (bit_at atom_never.now) b (W.numbers work.old) (W.numbers work.new) nodes facts result }
{
    first_counts(atom_never, work, b);
    let tail = backwards(work, Facts { graph, bases: b }, b.fact_rows, facts, 0);
    let each = Nodes {
        graph,
        never,
        atom_never,
        bases: b,
    };
    backwards(work, each, b.body_nodes, nodes, tail)
}
