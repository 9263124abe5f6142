// The first walk of Sharir (1981): from a vertex to its predecessors, with a stack and a cursor a vertex, which lists the vertices of preparation
// in a finishing order. A vertex is marked NEW until it is met and MET from then on; what is marked 0 is outside. Each look promises
// `Found`, which ties the words before to those after. `area::Bases` says why graph, work area and bases are lent one by one.
#![tactic(auto)]

ghost use Rattle.std.specs.Prelude.{◌≡◌, true, false, ◌+◌, ◌-◌, ◌<◌, eqb, length, set};
ghost use Rattle.theory.specs.Words.{theory_of};
ghost use Rattle.theory.specs.Edges.{vertices};
ghost use Rattle.theory.specs.Accepted.{Accepted};
ghost use Rattle.area.specs.Views.{mark_of, mark_in};
ghost use Rattle.finishing.specs.Cursors.{first_of};
ghost use Rattle.finishing.specs.Finished.{Ready, Marked, Finished};
ghost use Rattle.finishing.specs.Walking.{Walking, OnTop, Topmost, TopNode, Found, Meeting, discovered, Onward, Stepped, Descended};

use area::Bases;
use words::Word;

// The marks. They are words in lent memory, one a vertex: numbers with names, and no enum. A vertex outside has neither.
pub const NEW: usize = 1;

pub const MET: usize = 2;

// The cursor of a vertex before any of its entries is looked at. It is a word in lent memory, so no Option: a place in an atom's row, 1 for an
// operand, or a link of a chain of leaves, where 0 is its end; `look_operand` and `look_leaf` store 0 for a node with nothing left.
fn first_entry<W: Word>(graph: &[W], b: Bases, v: usize) -> usize
    requires { Accepted W.edition (W.numbers graph.now) × (v < vertices (theory_of (W.numbers graph.now))) × (b.atoms ≡ (theory_of (W.numbers graph.now)).atoms) }
    ensures { result ≡ first_of (W.numbers graph.now) v }
{
    if v < b.atoms {
        return 0;
    }
    let n = v - b.atoms;
    if graph::node_kind(graph, n).takes_operand() {
        return 1;
    }
    graph::first_leaf(graph, n)
}

// Whether vertex v is still to be met.
fn is_new<W: Word>(work: &[W], b: Bases, v: usize) -> bool
    requires { mark_of b v < length (W.numbers work.now) }
    ensures { result ≡ eqb (mark_in b (W.numbers work.now) v) 1 }
{
    words::at(work, b.states + v) == NEW
}

// The body, still to be met, of the next producer with head a that has one.
fn look_atom<W: Word>(graph: &[W], work: &mut [W], b: Bases, a: usize) -> Option<usize>
    requires { Accepted W.edition (W.numbers graph.now) × Topmost (W.numbers graph.now) b (W.numbers work.old) a × (a < b.atoms) }
    ensures { Found (W.numbers graph.now) b (W.numbers work.old) (W.numbers work.new) a result }
{
    let place = b.dependencies + a;
    let start = adjacency::row_start(work, b.by_head, b.atoms, a);
    let end = adjacency::row_start(work, b.by_head, b.atoms, a + 1);
    for cursor in words::at(work, place)..end - start {
        if let Some(n) = graph::body_node(graph, words::at(work, start + cursor)) {
            if is_new(work, b, b.atoms + n) {
                words::put(work, place, cursor + 1);
                return Some(b.atoms + n);
            }
        }
    }
    words::put(work, place, end - start);
    None
}

// The next leaf of a node that is still to be met.
fn look_leaf<W: Word>(graph: &[W], work: &mut [W], b: Bases, v: usize) -> Option<usize>
    requires { Accepted W.edition (W.numbers graph.now) × TopNode (W.numbers graph.now) b (W.numbers work.old) v false }
    ensures { Found (W.numbers graph.now) b (W.numbers work.old) (W.numbers work.new) v result }
{
    let from = graph::links_from(graph);
    let place = b.dependencies + v;
    let mut cursor = words::at(work, place);
    // a `while`: the link that is come to is stored with what is found, and a `for` over `graph::follow` keeps its follower, and so the link, to itself
    while cursor > 0 {
        let leaf = graph::value(graph, from, cursor);
        cursor = graph::next(graph, from, cursor);
        if is_new(work, b, b.atoms + leaf) {
            words::put(work, place, cursor);
            return Some(b.atoms + leaf);
        }
    }
    words::put(work, place, 0);
    None
}

// The operand of a node, unless it has been looked at or met.
fn look_operand<W: Word>(graph: &[W], work: &mut [W], b: Bases, v: usize) -> Option<usize>
    requires { Accepted W.edition (W.numbers graph.now) × TopNode (W.numbers graph.now) b (W.numbers work.old) v true }
    ensures { Found (W.numbers graph.now) b (W.numbers work.old) (W.numbers work.new) v result }
{
    let place = b.dependencies + v;
    if words::at(work, place) == 0 {
        return None;
    }
    let operand = graph::operand(graph, v - b.atoms);
    let new = is_new(work, b, operand);
    words::put(work, place, 0);
    if new {
        return Some(operand);
    }
    None
}

// The next entry of a vertex that leads to one still to be met; the cursor goes past it.
fn look<W: Word>(graph: &[W], work: &mut [W], b: Bases, v: usize) -> Option<usize>
    requires { Accepted W.edition (W.numbers graph.now) × Topmost (W.numbers graph.now) b (W.numbers work.old) v }
    ensures { Found (W.numbers graph.now) b (W.numbers work.old) (W.numbers work.new) v result }
{
    if v < b.atoms {
        return look_atom(graph, work, b, v);
    }
    if graph::node_kind(graph, v - b.atoms).takes_operand() {
        return look_operand(graph, work, b, v);
    }
    look_leaf(graph, work, b, v)
}

// How many vertices are on the stack, and how many are finished. The two lists stand in the lent work area, from `queue` and from `body_nodes` on, so
// that their lengths are numbers: no heap.
#[derive(Clone, Copy)]
struct Tops {
    top: usize,
    done: usize,
}

impl Tops {
    // A vertex that is still to be met is marked, its cursor is set to its first entry, and it goes on the stack.
    fn meet<W: Word>(self, graph: &[W], work: &mut [W], b: Bases, v: usize) -> Tops
        requires { Accepted W.edition (W.numbers graph.now) × Meeting (W.numbers graph.now) b (W.numbers work.old) v self.top }
        ensures { (W.numbers work.new ≡ discovered (W.numbers graph.now) b (W.numbers work.old) v self.top) × (result.top ≡ self.top + 1) × (result.done ≡ self.done) }
    {
        words::put(work, b.states + v, MET);
        words::put(work, b.dependencies + v, first_entry(graph, b, v));
        words::put(work, b.queue + self.top, v);
        Tops {
            top: self.top + 1,
            done: self.done,
        }
    }

    // The top of the stack, v, is finished.
    fn finish<W: Word>(self, work: &mut [W], b: Bases, v: usize) -> Tops
        requires { (b.body_nodes + self.done < length (W.numbers work.old)) × (v < W.limit) × (0 < self.top) }
        ensures { (W.numbers work.new ≡ set (W.numbers work.old) (b.body_nodes + self.done) v) × (result.top ≡ self.top - 1) × (result.done ≡ self.done + 1) }
    {
        words::put(work, b.body_nodes + self.done, v);
        Tops {
            top: self.top - 1,
            done: self.done + 1,
        }
    }

    // On from v, which was just met and is on top: if v takes an operand, that is met too, or v is finished if the operand was met before.
    fn through<W: Word>(self, graph: &[W], work: &mut [W], b: Bases, v: usize) -> Tops
        requires { Accepted W.edition (W.numbers graph.now) × OnTop (W.numbers graph.now) b (W.numbers work.old) v self.top self.done }
        ensures { Onward (W.numbers graph.now) b (W.numbers work.old) (W.numbers work.new) result.top result.done self.done }
    {
        if v < b.atoms || !graph::node_kind(graph, v - b.atoms).takes_operand() {
            return self;
        }
        match look_operand(graph, work, b, v) {
            None => self.finish(work, b, v),
            Some(a) => self.meet(graph, work, b, a),
        }
    }

    // One step: the next vertex that the top leads to is met, and the walk goes on through it; a top with nothing left is finished.
    fn step<W: Word>(self, graph: &[W], work: &mut [W], b: Bases) -> Tops
        requires { Accepted W.edition (W.numbers graph.now) × Walking (W.numbers graph.now) b (W.numbers work.old) self.top self.done × (0 < self.top) }
        ensures { Stepped (W.numbers graph.now) b (W.numbers work.old) (W.numbers work.new) result.top result.done self.done }
    {
        let v = words::at(work, b.queue + (self.top - 1));
        match look(graph, work, b, v) {
            None => self.finish(work, b, v),
            Some(x) => self.meet(graph, work, b, x).through(graph, work, b, x),
        }
    }
}

// The walk from one root, if it is still to be met.
fn descend<W: Word>(graph: &[W], work: &mut [W], b: Bases, root: usize, done: usize) -> usize
    requires { Accepted W.edition (W.numbers graph.now) × Walking (W.numbers graph.now) b (W.numbers work.old) 0 done × (root < vertices (theory_of (W.numbers graph.now))) }
    ensures { Descended (W.numbers graph.now) b (W.numbers work.old) (W.numbers work.new) root result }
{
    if !is_new(work, b, root) {
        return done;
    }
    let mut tops = Tops { top: 0, done }.meet(graph, work, b, root);
    // a stack: how many steps are left shows only at each step
    while tops.top > 0 {
        tops = tops.step(graph, work, b);
    }
    tops.done
}

// The vertices of preparation in a finishing order, from `body_nodes` on; answers how many they are.
pub fn finish_order<W: Word>(graph: &[W], work: &mut [W], b: Bases) -> usize
    requires { Accepted W.edition (W.numbers graph.now) × Ready (W.numbers graph.now) b (W.numbers work.old) × Marked (W.numbers graph.now) b 1 (W.numbers work.old) }
    ensures { Finished (W.numbers graph.now) b (W.numbers work.old) (W.numbers work.new) result }
{
    let mut done: usize = 0;
    for root in 0..b.atoms + b.nodes {
        done = descend(graph, work, b, root, done);
    }
    done
}
