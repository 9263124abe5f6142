// The worklist of the pass, by any rows that serve: every row of a vertex that is found is followed once, and each entry of it settled, one thing fewer to wait for.
#![tactic(auto)]

ghost use Rattle.std.specs.Prelude.{◌≡◌, [], List, ℕ, ◌+◌, ◌<◌, length};
ghost use Rattle.theory.specs.Words.{theory_of};
ghost use Rattle.theory.specs.Rows.{succs};
ghost use Rattle.theory.specs.Drive.{Follows, Drives};
ghost use Rattle.area.specs.declared.Bases.{Bases};
ghost use Rattle.area.specs.Layout.{bases_of};
ghost use Rattle.events.specs.Held.{Ctx, Held};
ghost use Rattle.events.specs.Run.{GraphRows, Abides, Ran, Runs};

use area::Bases;
use chains::Step;
use words::Word;

// One thing fewer that an entry waits for, and no branch on whether it waits at all; after the last one it is found, and goes on the queue.
// (Counts and queue are words of lent memory; `tail` is the queue's length.)
#[derive(Clone, Copy)]
pub struct Settle {
    pub bases: Bases,
}

impl<W: Word> Step<W> for Settle {
    ghost Context = { Ctx };

    ghost held = { λ it. Held W.limit it.bases };

    ghost kept = { λ it. it.bases.states };

    fn step(self, work: &mut [W], v: usize, tail: usize) -> usize {
        let b = self.bases;
        let n = words::at(work, b.dependencies + v);
        if n != 1 {
            let one = usize::from(n > 0);
            words::put(work, b.dependencies + v, n - one);
            return tail;
        }
        words::put(work, b.dependencies + v, 0);
        words::put(work, b.queue + tail, v);
        tail + 1
    }
}

// The rows by which a worklist is run: those of the graph, or narrowed ones.
pub trait Rows<W: Word>: Copy {
    ghost bases: { Self → Bases };

    // The row of a vertex, and what the words of the work area have to hold for it.
    ghost row_of: { Self → ℕ → List ℕ };

    ghost stand: { Self → List ℕ → Type 0 };

    // Every entry of the row of vertex v is settled.
    fn settle(self, work: &mut [W], v: usize, tail: usize) -> usize
        requires stand { stand self (W.numbers work.old) × (v < (bases self).atoms + (bases self).nodes) }
        requires follows { Follows (Held W.limit (bases self)) (W.numbers work.old) tail (row_of self v) }
        ensures { Drives (Held W.limit (bases self)) (bases self).states (W.numbers work.old) tail (row_of self v) (W.numbers work.new) result [] };
}

// The rows of the graph, as its tables have them.
#[derive(Clone, Copy)]
pub struct Original<'a, W> {
    pub graph: &'a [W],
    pub bases: Bases,
}

impl<W: Word> Rows<W> for Original<'_, W> {
    ghost bases = { λ it. it.bases };

    ghost row_of = { λ it. succs (theory_of (W.numbers it.graph.now)) };

    ghost stand = { λ it. GraphRows W.edition (W.numbers it.graph.now) it.bases };

    #[inline(always)]
    fn settle(self, work: &mut [W], v: usize, tail: usize) -> usize {
        let b = self.bases;
        rows::along(self.graph, work, b, Settle { bases: b }, v, tail)
    }
}

// Every vertex on the queue, in turn: the rows of those that are found on the way too.
pub fn settle_in<W: Word, R: Rows<W>>(work: &mut [W], b: Bases, rows: R, first: usize) -> usize
    requires stand { (R.bases rows ≡ b) × Abides b (W.numbers work.old) (R.stand rows) }
    requires runs { Runs W.limit b (R.row_of rows) (W.numbers work.old) first }
    ensures { Ran W.limit b (R.row_of rows) (W.numbers work.old) (W.numbers work.new) 0 first result result }
{
    let mut head: usize = 0;
    let mut tail = first;
    // a queue: a turn may add to it, and a `for` fixes its end before the first turn
    // (no walk shared with `components::follow`: what holds between the turns differs, a clause can't be over any predicate, and a trait for it would be longer)
    while head < tail {
        let v = words::at(work, b.queue + head);
        tail = rows.settle(work, v, tail);
        head += 1;
    }
    tail
}

// By the graph's rows, with the bases worked out here (`area::bases_of` says why).
pub fn settle_all<W: Word>(graph: &[W], work: &mut [W], first: usize) -> usize
    requires stand { GraphRows W.edition (W.numbers graph.now) (bases_of (W.numbers graph.now) (length (W.numbers work.old))) (W.numbers work.old) }
    requires runs { Runs W.limit (bases_of (W.numbers graph.now) (length (W.numbers work.old))) (succs (theory_of (W.numbers graph.now))) (W.numbers work.old) first }
    ensures { Ran W.limit (bases_of (W.numbers graph.now) (length (W.numbers work.old))) (succs (theory_of (W.numbers graph.now))) (W.numbers work.old) (W.numbers work.new) 0 first result result }
{
    let words = work.len();
    let b = area::bases_of(graph, words);
    settle_in(work, b, Original { graph, bases: b }, first)
}
