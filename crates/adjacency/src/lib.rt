// Incidence rows by counting, summing and filling. A table is rows + 1 offsets and then the entries, in a lent part of the work area; what
// stood there before has no effect.
#![tactic(auto)]

ghost use Rattle.std.specs.Prelude.{◌≡◌, true, false, List, [], ◌∷◌, ℕ, ◌+◌, ◌<◌, ◌≤◌, length};
ghost use Rattle.theory.specs.Words.{theory_of};
ghost use Rattle.theory.specs.Accepted.{Accepted};
ghost use Rattle.theory.specs.Rows.{Edge, edge, tagged};
ghost use Rattle.theory.specs.Drive.{Follows, Drives};
ghost use Rattle.area.specs.Layout.{Based};
ghost use Rattle.adjacency.specs.Tables.{keys_of, items_of, rows_of, edges_of, base_of, next_of, start_at, Tabled, Built};
ghost use Rattle.adjacency.specs.Building.{Building, Around, Placing, Summed, sum_of};

use area::Bases;
use chains::Step;
use std::ops::Range;
use words::Word;

// Nodes per atom, parents per node, producers per head, producers per body.
#[derive(Clone, Copy)]
pub enum Table {
    AtomNodes,
    Parents,
    ByHead,
    ByBody,
}

// What is done with an edge: it is counted, or filled in.
trait Place<W: Word>: Copy {
    // All the edges, the words that they are placed in, and those that are to come.
    ghost building: { Self → List Edge → List ℕ → ℕ → List Edge → Type 0 };

    // `Follows` and `Drives`, here and in each walk above, tie the words before to those after, for one list: facts of a change, which no struct holds.
    fn place(self, part: &mut [W], row: usize, entry: usize)
        requires { Follows (building self) (W.numbers part.old) 0 (edge row entry ∷ []) }
        ensures { Drives (building self) 0 (W.numbers part.old) 0 (edge row entry ∷ []) (W.numbers part.new) 0 [] };
}

// One more in its row.
#[derive(Clone, Copy)]
struct Count {
    rows: usize,
}

impl<W: Word> Place<W> for Count {
    ghost building = { λ count. Building W.limit false count.rows };

    fn place(self, part: &mut [W], row: usize, entry: usize) {
        counters::add(part, row + 1, 1);
    }
}

// The row's next entry.
#[derive(Clone, Copy)]
struct Fill {
    rows: usize,
}

impl<W: Word> Place<W> for Fill {
    ghost building = { λ fill. Building W.limit true fill.rows };

    fn place(self, part: &mut [W], row: usize, entry: usize) {
        let cursor = counters::add(part, row + 1, 1);
        words::put(part, self.rows + 1 + cursor, entry);
    }
}

// An item's edges, along a chain of the rows that they are in.
#[derive(Clone, Copy)]
struct Item<P> {
    place: P,
    index: usize,
}

impl<W: Word, P: Place<W>> Step<W> for Item<P> {
    ghost Context = { Around };

    ghost held = { λ it. Placing (P.building it.place) it.index };

    ghost kept = { λ it. 0 };

    fn step(self, part: &mut [W], row: usize, tail: usize) -> usize {
        self.place.place(part, row, self.index);
        tail
    }
}

// How many rows a table has, and how many items have edges in it.
#[derive(Clone, Copy)]
struct Size {
    rows: usize,
    items: usize,
}

// What the four tables have of their own, in a `match` each: as a trait these would be four impls of three functions, and no shorter.
impl Table {
    #[tactic(auto, unfolding(theory::specs::Words::theory_of))]
    fn size<W: Word>(self, graph: &[W]) -> Size
        requires { Accepted W.edition (W.numbers graph.now) }
        ensures rows { result.rows ≡ rows_of (theory_of (W.numbers graph.now)) self }
        ensures items { result.items ≡ items_of (theory_of (W.numbers graph.now)) self }
    {
        let atoms = graph::atoms(graph);
        let nodes = graph::nodes(graph);
        let producers = graph::producers(graph);
        let (rows, items) = match self {
            Table::AtomNodes => (atoms, nodes),
            Table::Parents => (nodes, nodes),
            Table::ByHead => (atoms, producers),
            Table::ByBody => (nodes, producers),
        };
        Size { rows, items }
    }

    // Its part of the work area: from where it begins to where the next region does.
    fn span(self, b: Bases) -> Range<usize>
        ensures { (result.start ≡ base_of b self) × (result.end ≡ next_of b self) }
    {
        match self {
            Table::AtomNodes => b.atom_nodes..b.parents,
            Table::Parents => b.parents..b.by_head,
            Table::ByHead => b.by_head..b.by_body,
            Table::ByBody => b.by_body..b.states,
        }
    }

    // An item's edges.
    #[tactic(auto, unfolding(theory::specs::Words::theory_of))]
    fn place_item<W: Word, P: Place<W>>(self, graph: &[W], part: &mut [W], place: P, i: usize)
        requires accepted { Accepted W.edition (W.numbers graph.now) × (i < items_of (theory_of (W.numbers graph.now)) self) }
        requires follows { Follows (P.building place) (W.numbers part.old) 0 (tagged i (keys_of (theory_of (W.numbers graph.now)) self i)) }
        ensures { Drives (P.building place) 0 (W.numbers part.old) 0 (tagged i (keys_of (theory_of (W.numbers graph.now)) self i)) (W.numbers part.new) 0 [] }
    {
        let step = Item { place, index: i };
        match self {
            Table::AtomNodes => {
                if graph::node_kind(graph, i).takes_operand() {
                    place.place(part, graph::operand(graph, i), i);
                }
            }
            Table::Parents => {
                chains::along(graph, part, step, graph::first_leaf(graph, i), 0);
            }
            Table::ByHead => {
                chains::heads(graph, part, step, i, 0);
            }
            Table::ByBody => {
                if let Some(node) = graph::body_node(graph, i) {
                    place.place(part, node, i);
                }
            }
        }
    }

    // Every edge, item by item.
    fn place_all<W: Word, P: Place<W>>(self, graph: &[W], part: &mut [W], place: P)
        requires accepted { Accepted W.edition (W.numbers graph.now) }
        requires follows { Follows (P.building place) (W.numbers part.old) 0 (edges_of (theory_of (W.numbers graph.now)) self) }
        ensures { Drives (P.building place) 0 (W.numbers part.old) 0 (edges_of (theory_of (W.numbers graph.now)) self) (W.numbers part.new) 0 [] }
    {
        for i in 0..self.size(graph).items {
            self.place_item(graph, part, place, i);
        }
    }

    // The table in the lent part: row r is the entries of the edges in row r, in stream order.
    fn build<W: Word>(self, graph: &[W], part: &mut [W])
        requires { Accepted W.edition (W.numbers graph.now) × (rows_of (theory_of (W.numbers graph.now)) self + 1 + length (edges_of (theory_of (W.numbers graph.now)) self) ≤ length (W.numbers part.old)) }
        ensures { Tabled (length (W.numbers part.old)) (W.numbers part.new) 0 (rows_of (theory_of (W.numbers graph.now)) self) (edges_of (theory_of (W.numbers graph.now)) self) }
    {
        let rows = self.size(graph).rows;
        area::clear(&mut part[..rows + 1]);
        self.place_all(graph, part, Count { rows });
        sum(part, rows);
        self.place_all(graph, part, Fill { rows });
    }
}

// Each row's count becomes its start.
fn sum<W: Word>(part: &mut [W], rows: usize)
    requires { (rows + 1 ≤ length (W.numbers part.old)) × (sum_of (W.numbers part.old) rows < W.limit) }
    ensures { Summed (W.numbers part.old) (W.numbers part.new) rows (sum_of (W.numbers part.old) rows) }
{
    let mut total: usize = 0;
    for r in 0..rows {
        let n = words::at(part, r + 1);
        words::put(part, r + 1, total);
        total += n;
    }
}

// A table in its part of the work area.
#[inline(always)]
pub fn build_in<W: Word>(graph: &[W], work: &mut [W], b: Bases, table: Table)
    requires { Accepted W.edition (W.numbers graph.now) × Based (W.numbers graph.now) (length (W.numbers work.old)) b }
    ensures { Built (theory_of (W.numbers graph.now)) b table (W.numbers work.old) (W.numbers work.new) }
{
    table.build(graph, &mut work[table.span(b)]);
}

// Where the entries of row r begin, in the table of so many rows at base; they end where those of the next row begin. The table is
// found by its base and is no slice of its own, since what is done at an entry of a row writes in the same work area.
pub fn row_start<W: Word>(work: &[W], base: usize, rows: usize, r: usize) -> usize
    requires { (r ≤ rows) × (base + (rows + 1) ≤ length (W.numbers work.now)) }
    ensures { result ≡ start_at (W.numbers work.now) base rows r }
{
    base + (rows + 1) + words::at(work, base + r)
}
