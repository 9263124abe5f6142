// Why the graph check refuses, and its rows 1 to 6, which look at one record at a time (document 01, "Where a call is turned away"; document 02, request 5). Rows 14 and 7 to 9 and the
// check itself are in crate checking. What the rows before have shown of the words (`Sized`, then `Linked` and `Chained`) is a clause of each row's test, here and there: a struct of the
// words with it would be longer in each clause (crate graph says why), and there are three of them. `Finds` is what a search answers.
#![tactic(auto)]

pub mod search;

ghost use Rattle.std.specs.Prelude.{◌≡◌, ◌+◌, ◌≤◌, ◌<◌, length, get_or};
ghost use Rattle.refusals.specs.Passed.{Sized, turns, turns_at};
ghost use Rattle.refusals.specs.Search.{Clear, Finds};
ghost use Rattle.refusals.specs.Refusals.{bad_edition, bad_counts, bad_size, bad_operand, bad_first, bad_record, bad_node, bad_body, bad_producer, bad_link};

use crate::search::first;
use graph::{
    NodeKind, atoms, body, first_head, first_leaf, kind, links, links_from, next, nodes, operand,
    producers,
};
use words::{Word, at};

// Why the check turns a graph away. specs/Refusals has the number and place of each.
#[derive(Clone, Copy, Debug, PartialEq, Eq)]
pub enum Refusal {
    Edition,
    Counts,
    Size,
    Node(u32),
    Producer(u32),
    Link(u32),
    Back(u32),
    Leaf(u32),
    Head(u32),
    Entries,
}

// Row 1.
#[tactic(auto, unfolding(crate::specs::Refusals::bad_edition))]
pub fn bad_edition<W: Word>(graph: &[W]) -> bool
    ensures { result ≡ bad_edition W.edition (W.numbers graph.now) }
{
    graph.len() < 5 || at(graph, 0) != W::NUMBER
}

// Row 2.
#[tactic(auto, unfolding(crate::specs::Refusals::bad_counts))]
pub fn bad_counts<W: Word>(graph: &[W]) -> bool
    requires { 5 ≤ length (W.numbers graph.now) }
    ensures { result ≡ bad_counts W.edition (W.numbers graph.now) }
{
    W::COUNTS < atoms(graph)
        || W::COUNTS < nodes(graph)
        || W::COUNTS < producers(graph)
        || W::LINKS < links(graph)
}

// Row 3.
#[tactic(auto, unfolding(crate::specs::Refusals::bad_size))]
pub fn bad_size<W: Word>(graph: &[W]) -> bool
    requires { 5 ≤ length (W.numbers graph.now) }
    ensures { result ≡ bad_size (W.numbers graph.now) }
{
    graph.len() != 5 + 3 * at(graph, 2) + 2 * at(graph, 3) + 2 * at(graph, 4)
}

// Row 4: the kind table drives the tests of operand and first link.
#[tactic(auto, unfolding(crate::specs::Refusals::bad_operand))]
fn bad_operand(kind: NodeKind, operand: usize, atoms: usize) -> bool
    ensures { result ≡ bad_operand kind.number operand atoms }
{
    if kind.takes_operand() {
        return atoms <= operand;
    }
    operand != 0
}

#[tactic(auto, unfolding(crate::specs::Refusals::bad_first))]
fn bad_first(kind: NodeKind, first: usize, links: usize) -> bool
    ensures { result ≡ bad_first kind.number first links }
{
    links < first || !kind.takes_links() && first != 0
}

// The kind is still the record's word: this test makes a kind of it, or refuses.
#[tactic(auto, unfolding(crate::specs::Refusals::bad_record))]
fn bad_record(kind: usize, operand: usize, first: usize, atoms: usize, links: usize) -> bool
    ensures { result ≡ bad_record kind operand first atoms links }
{
    let Ok(kind) = NodeKind::try_from(kind) else {
        return true;
    };
    bad_operand(kind, operand, atoms) || bad_first(kind, first, links)
}

fn bad_node_at<W: Word>(graph: &[W], n: usize) -> bool
    requires { Sized W.edition (W.numbers graph.now) × (n < get_or (W.numbers graph.now) 2 0) }
    ensures { result ≡ bad_node (W.numbers graph.now) n }
{
    bad_record(
        kind(graph, n),
        operand(graph, n),
        first_leaf(graph, n),
        atoms(graph),
        links(graph),
    )
}

// The first node whose record is wrong. As `bad_producer` below, one call of `first`: range, test and clause are all there is, and all of it differs.
pub fn bad_node<W: Word>(graph: &[W]) -> Option<usize>
    requires { Sized W.edition (W.numbers graph.now) }
    ensures { Finds (bad_node (W.numbers graph.now)) 0 (get_or (W.numbers graph.now) 2 0) result }
{
    first(0, nodes(graph), |n| bad_node_at(graph, n))
}

// Row 5.
#[tactic(auto, unfolding(crate::specs::Refusals::bad_body))]
fn bad_body(body: usize, first: usize, nodes: usize, links: usize) -> bool
    ensures { result ≡ bad_body body first nodes links }
{
    nodes < body || links < first
}

fn bad_producer_at<W: Word>(graph: &[W], p: usize) -> bool
    requires { Sized W.edition (W.numbers graph.now) × (p < get_or (W.numbers graph.now) 3 0) }
    ensures { result ≡ bad_producer (W.numbers graph.now) p }
{
    bad_body(
        body(graph, p),
        first_head(graph, p),
        nodes(graph),
        links(graph),
    )
}

// The first producer whose record is wrong.
pub fn bad_producer<W: Word>(graph: &[W]) -> Option<usize>
    requires { Sized W.edition (W.numbers graph.now) }
    ensures { Finds (bad_producer (W.numbers graph.now)) 0 (get_or (W.numbers graph.now) 3 0) result }
{
    first(0, producers(graph), |p| bad_producer_at(graph, p))
}

// Links that only lead upward: a next is 0 or a later link of the graph. Then row 6 passes and no chain comes back. The first link whose next is another.
#[tactic(auto, unfolding(crate::specs::Passed::turns))]
fn turns(next: usize, l: usize, links: usize) -> bool
    ensures { result ≡ turns next l links }
{
    links < next || next != 0 && next <= l
}

fn turns_at<W: Word>(graph: &[W], l: usize) -> bool
    requires { Sized W.edition (W.numbers graph.now) × (0 < l) × (l ≤ get_or (W.numbers graph.now) 4 0) }
    ensures { result ≡ turns_at (W.numbers graph.now) l }
{
    turns(next(graph, links_from(graph), l), l, links(graph))
}

pub fn first_turn<W: Word>(graph: &[W]) -> Option<usize>
    requires { Sized W.edition (W.numbers graph.now) }
    ensures { Finds (turns_at (W.numbers graph.now)) 1 (get_or (W.numbers graph.now) 4 0 + 1) result }
{
    first(1, links(graph) + 1, |l| turns_at(graph, l))
}

// Row 6.
fn bad_link_at<W: Word>(graph: &[W], l: usize) -> bool
    requires { Sized W.edition (W.numbers graph.now) × (0 < l) × (l ≤ get_or (W.numbers graph.now) 4 0) }
    ensures { result ≡ bad_link (W.numbers graph.now) l }
{
    links(graph) < next(graph, links_from(graph), l)
}

// The first link from `start` on whose next is wrong. Those before it lead upward.
pub fn bad_link<W: Word>(graph: &[W], start: usize) -> Option<usize>
    requires { Sized W.edition (W.numbers graph.now) × (start ≤ get_or (W.numbers graph.now) 4 0) × Clear (turns_at (W.numbers graph.now)) 1 start }
    ensures { Finds (bad_link (W.numbers graph.now)) 1 (get_or (W.numbers graph.now) 4 0 + 1) result }
{
    first(start, links(graph) + 1, |l| bad_link_at(graph, l))
}
