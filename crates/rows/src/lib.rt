// A walk along the row of a vertex, with one step for each entry: an atom's nodes, or a node's parents and then the heads of the producers
// with that body, as the tables have them.
#![tactic(auto)]

ghost use Rattle.std.specs.Prelude.{◌≡◌, [], ℕ, ◌+◌, ◌<◌, ◌≤◌, length};
ghost use Rattle.std.proofs.Math.Seq.{slice};
ghost use Rattle.theory.specs.Words.{theory_of};
ghost use Rattle.theory.specs.Accepted.{Accepted};
ghost use Rattle.theory.specs.Rows.{flat_map, succs};
ghost use Rattle.theory.specs.Drive.{Follows, Drives};
ghost use Rattle.area.specs.Layout.{Based};
ghost use Rattle.area.specs.Views.{as_vertices};
ghost use Rattle.adjacency.specs.Tables.{start_at};
ghost use Rattle.rows.specs.Rows.{Spanned, Named, Tables};

use area::Bases;
use chains::Step;
use std::ops::Range;
use words::Word;

// Where row r of the table at base stands. (`nodes` and `producers` go along this range of the work area and are lent all of it, as a step changes what stands behind.)
pub fn place<W: Word>(work: &[W], base: usize, rows: usize, r: usize) -> Range<usize>
    requires { (n : ℕ) × Spanned n (W.numbers work.now) base rows r }
    ensures { (result.start ≡ start_at (W.numbers work.now) base rows r) × (result.end ≡ start_at (W.numbers work.now) base rows (r + 1)) }
{
    adjacency::row_start(work, base, rows, r)..adjacency::row_start(work, base, rows, r + 1)
}

// The nodes of a row. (`producers` is near: one function for both would be over a closure that is lent `work`, with clauses on the list that an entry stands for, and no
// plainer than two loops of one line. Both go from end to end: over the range itself a proof doesn't know which place a turn is at.)
fn nodes<W: Word, S: Step<W>>(
    work: &mut [W],
    b: Bases,
    step: S,
    row: Range<usize>,
    tail: usize,
) -> usize
    requires fits { b.atoms < W.limit }
    requires inside { (row.start ≤ row.end) × (row.end ≤ S.kept step) × (S.kept step ≤ length (W.numbers work.old)) }
    requires follows { Follows (S.held step) (W.numbers work.old) tail (as_vertices b (slice row.start row.end (W.numbers work.old))) }
    ensures { Drives (S.held step) (S.kept step) (W.numbers work.old) tail (as_vertices b (slice row.start row.end (W.numbers work.old))) (W.numbers work.new) result [] }
{
    let mut t = tail;
    for i in row.start..row.end {
        t = step.step(work, b.atoms + words::at(work, i), t);
    }
    t
}

// The heads of the producers of a row.
fn producers<W: Word, S: Step<W>>(
    graph: &[W],
    work: &mut [W],
    step: S,
    row: Range<usize>,
    tail: usize,
) -> usize
    requires accepted { Accepted W.edition (W.numbers graph.now) × Named (W.numbers graph.now) (W.numbers work.old) row.start row.end }
    requires inside { (row.start ≤ row.end) × (row.end ≤ S.kept step) × (S.kept step ≤ length (W.numbers work.old)) }
    requires follows { Follows (S.held step) (W.numbers work.old) tail (flat_map (theory_of (W.numbers graph.now)).heads (slice row.start row.end (W.numbers work.old))) }
    ensures { Drives (S.held step) (S.kept step) (W.numbers work.old) tail (flat_map (theory_of (W.numbers graph.now)).heads (slice row.start row.end (W.numbers work.old))) (W.numbers work.new) result [] }
{
    let mut t = tail;
    for i in row.start..row.end {
        t = chains::heads(graph, work, step, words::at(work, i), t);
    }
    t
}

// Every entry of the row of vertex v. No step changes the tables. (Inlined, so that `b` and the bases of a step are not copied for each vertex.)
#[inline(always)]
pub fn along<W: Word, S: Step<W>>(
    graph: &[W],
    work: &mut [W],
    b: Bases,
    step: S,
    v: usize,
    tail: usize,
) -> usize
    requires accepted { Accepted W.edition (W.numbers graph.now) × Based (W.numbers graph.now) (length (W.numbers work.old)) b × (v < b.atoms + b.nodes) × Tables (theory_of (W.numbers graph.now)) b (W.numbers work.old) }
    requires kept { S.kept step ≡ b.states }
    requires follows { Follows (S.held step) (W.numbers work.old) tail (succs (theory_of (W.numbers graph.now)) v) }
    ensures { Drives (S.held step) b.states (W.numbers work.old) tail (succs (theory_of (W.numbers graph.now)) v) (W.numbers work.new) result [] }
{
    if v < b.atoms {
        let row = place(work, b.atom_nodes, b.atoms, v);
        return nodes(work, b, step, row, tail);
    }
    let m = v - b.atoms;
    let parents = place(work, b.parents, b.nodes, m);
    let t = nodes(work, b, step, parents, tail);
    let bodies = place(work, b.by_body, b.nodes, m);
    producers(graph, work, step, bodies, t)
}
