// A walk along a chain of links, with one step for each entry. What is done at an entry is the caller's: a `Step`.
#![tactic(auto)]

ghost use Rattle.std.specs.Prelude.{[], ◌∷◌, ◌<◌, List, ℕ};
ghost use Rattle.theory.specs.Words.{chain, theory_of};
ghost use Rattle.theory.specs.Links.{MeetsOnce};
ghost use Rattle.theory.specs.Accepted.{Accepted};
ghost use Rattle.theory.specs.Drive.{Follows, Drives};

use words::Word;

// What is done at an entry, on words that are lent. The list of what is found has `tail` entries before the step, and as many as it answers after it.
// It is a region of the lent work area, as there is no heap, and its length goes from call to call as `tail`: in `step`, `along` and `heads`, and in rows and events.
pub trait Step<W: Word>: Copy {
    ghost Context: { Type 0 };

    // What the words hold in a context with a list of entries to come, and how many words before all that is changed.
    ghost held: { Self → Context → List ℕ → ℕ → List ℕ → Type 0 };

    ghost kept: { Self → ℕ };

    fn step(self, work: &mut [W], v: usize, tail: usize) -> usize
        requires { Follows (held self) (W.numbers work.old) tail (v ∷ []) }
        ensures { Drives (held self) (kept self) (W.numbers work.old) tail (v ∷ []) (W.numbers work.new) result [] };
}

// Along the chain from `first` on. The next link is read with the entry, before the step, so that the processor need not wait for it. `MeetsOnce`, that no link comes twice, is a
// clause of its own, since each of the functions with it has `first` from elsewhere.
pub fn along<W: Word, S: Step<W>>(
    graph: &[W],
    work: &mut [W],
    step: S,
    first: usize,
    tail: usize,
) -> usize
    requires accepted { Accepted W.edition (W.numbers graph.now) × MeetsOnce (W.numbers graph.now) first }
    requires follows { Follows (S.held step) (W.numbers work.old) tail (chain (W.numbers graph.now) first) }
    ensures { Drives (S.held step) (S.kept step) (W.numbers work.old) tail (chain (W.numbers graph.now) first) (W.numbers work.new) result [] }
{
    let mut t = tail;
    for v in graph::follow(graph, first) {
        t = step.step(work, v, t);
    }
    t
}

// The heads of producer p.
pub fn heads<W: Word, S: Step<W>>(
    graph: &[W],
    work: &mut [W],
    step: S,
    p: usize,
    tail: usize,
) -> usize
    requires accepted { Accepted W.edition (W.numbers graph.now) × (p < (theory_of (W.numbers graph.now)).producers) }
    requires follows { Follows (S.held step) (W.numbers work.old) tail ((theory_of (W.numbers graph.now)).heads p) }
    ensures { Drives (S.held step) (S.kept step) (W.numbers work.old) tail ((theory_of (W.numbers graph.now)).heads p) (W.numbers work.new) result [] }
{
    along(graph, work, step, graph::first_head(graph, p), tail)
}
