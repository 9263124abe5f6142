// Components and cyclic atoms, by the second walk of Sharir (1981): along the edges, latest finished first, each search collecting one component.
// An atom alone in its component is not cyclic. The queue and the order stand in the lent work area, and how many they hold in local numbers (`tail`,
// `found`, `count`): no heap. `area::Bases` says why graph, work area and bases are lent one by one.
#![tactic(auto)]

ghost use Rattle.std.specs.Prelude.{◌≡◌, ◌+◌, ◌<◌, ◌≤◌, length};
ghost use Rattle.theory.specs.Accepted.{Accepted};
ghost use Rattle.area.specs.Layout.{Based};
ghost use Rattle.components.specs.Gathering.{Ctx, Gathering};
ghost use Rattle.components.specs.Classes.{Classifying, Searched, Gathered, Component, flag_member, Sweeping, Classified};
ghost use Rattle.theory.specs.Words.{theory_of};
ghost use Rattle.rows.specs.Rows.{Tables};
ghost use Rattle.finishing.specs.Finished.{Ready, Marked};

use area::Bases;
use chains::Step;
use finishing::MET;
use std::ops::Range;
use words::Word;

// The mark of a vertex that the second walk has met too, where the first left MET: a word in lent memory, so a number with a name and no enum.
const COLLECTED: usize = 3;

// A component of so many members has no cyclic atom: no atom leads to itself.
const ALONE: usize = 1;

// An entry that the second walk has not met is met, and goes on the queue.
#[derive(Clone, Copy)]
struct Collect {
    bases: Bases,
}

impl<W: Word> Step<W> for Collect {
    ghost Context = { Ctx };

    ghost held = { λ it. Gathering W.limit it.bases };

    ghost kept = { λ it. it.bases.states };

    fn step(self, work: &mut [W], v: usize, tail: usize) -> usize {
        let b = self.bases;
        let m = b.states + v;
        if words::at(work, m) != MET {
            return tail;
        }
        words::put(work, m, COLLECTED);
        words::put(work, b.queue + tail, v);
        tail + 1
    }
}

// The members that are on the queue from `found` on, the root alone at first, and those that their rows lead to. `events::settle_in` is near: what
// they have in common is `rows::along`, and the step and the law of the queue are each one's own.
fn follow<W: Word>(graph: &[W], work: &mut [W], b: Bases, n: usize, found: usize) -> usize
    requires { Accepted W.edition (W.numbers graph.now) × Based (W.numbers graph.now) (length (W.numbers work.old)) b × Tables (theory_of (W.numbers graph.now)) b (W.numbers work.old) × Searched W.limit (W.numbers graph.now) b (W.numbers work.old) (W.numbers work.old) n found found (found + 1) }
    ensures { Searched W.limit (W.numbers graph.now) b (W.numbers work.old) (W.numbers work.new) n found result result }
{
    let mut head = found;
    let mut tail = found + 1;
    // a queue: a turn may add to it, and a `for` fixes its end before the first turn
    while head < tail {
        let v = words::at(work, b.queue + head);
        tail = rows::along(graph, work, b, Collect { bases: b }, v, tail);
        head += 1;
    }
    tail
}

// The component of the vertex at place n of the finishing order, unless it is met already; its members join the queue.
fn gather<W: Word>(graph: &[W], work: &mut [W], b: Bases, n: usize, found: usize) -> usize
    requires { Accepted W.edition (W.numbers graph.now) × Based (W.numbers graph.now) (length (W.numbers work.old)) b × Classifying (W.numbers graph.now) b (W.numbers work.old) (n + 1) found }
    ensures { Gathered (W.numbers graph.now) b (W.numbers work.old) (W.numbers work.new) n found result }
{
    let root = words::at(work, b.body_nodes + n);
    let m = b.states + root;
    if words::at(work, m) != MET {
        return found;
    }
    words::put(work, m, COLLECTED);
    words::put(work, b.queue + found, root);
    follow(graph, work, b, n, found)
}

// The flag of a member that is an atom.
fn flag_member<W: Word>(work: &mut [W], b: Bases, i: usize)
    requires { (b.queue + i < length (W.numbers work.old)) × (b.cyclic_atoms + b.atoms ≤ length (W.numbers work.old)) }
    ensures { W.numbers work.new ≡ flag_member b (W.numbers work.old) i }
{
    let v = words::at(work, b.queue + i);
    if v < b.atoms {
        words::put(work, b.cyclic_atoms + v, words::SET);
    }
}

// The atoms of a component of two or more are cyclic. Its members stand in this part of the queue. (From end to end: over the range itself a proof doesn't know which place a turn is at.)
fn flag<W: Word>(graph: &[W], work: &mut [W], b: Bases, n: usize, members: Range<usize>)
    requires { Based (W.numbers graph.now) (length (W.numbers work.old)) b × Component (W.numbers graph.now) b (W.numbers work.old) n members.start members.end }
    ensures { Sweeping (W.numbers graph.now) b (W.numbers work.old) (W.numbers work.new) n members.end }
{
    if members.len() <= ALONE {
        return;
    }
    for i in members.start..members.end {
        flag_member(work, b, i);
    }
}

// Every component, from the vertex finished last on.
fn classify<W: Word>(graph: &[W], work: &mut [W], b: Bases, count: usize)
    requires { Accepted W.edition (W.numbers graph.now) × Based (W.numbers graph.now) (length (W.numbers work.old)) b × Sweeping (W.numbers graph.now) b (W.numbers work.old) (W.numbers work.old) count 0 }
    ensures { Classified (W.numbers graph.now) b (W.numbers work.old) (W.numbers work.new) }
{
    let mut found: usize = 0;
    for n in (0..count).rev() {
        let tail = gather(graph, work, b, n, found);
        flag(graph, work, b, n, found..tail);
        found = tail;
    }
}

// The cyclic atoms, flagged: both walks.
pub fn cyclic_atoms<W: Word>(graph: &[W], work: &mut [W], b: Bases)
    requires { Accepted W.edition (W.numbers graph.now) × Ready (W.numbers graph.now) b (W.numbers work.old) × Tables (theory_of (W.numbers graph.now)) b (W.numbers work.old) × Marked (W.numbers graph.now) b 1 (W.numbers work.old) }
    ensures { Classified (W.numbers graph.now) b (W.numbers work.old) (W.numbers work.new) }
{
    let count = finishing::finish_order(graph, work, b);
    area::clear(&mut work[b.cyclic_atoms..b.end]);
    classify(graph, work, b, count);
}
