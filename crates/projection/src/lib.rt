// Rows for the later pairs of a search branch (the Rust: `Projection`): of each node's parents those in the cyclic cone, and of the heads of the producers with that body the
// cyclic ones; in one more row the cyclic heads of the facts. Each table is written in a lent part of its own, row after row, in one go: an entry is stored behind those that are kept, and
// kept by moving on.
#![tactic(auto)]

ghost use Rattle.std.specs.Prelude.{◌≡◌, [], ◌∷◌, ℕ, ◌+◌, ◌<◌, ◌≤◌, length, drop};
ghost use Rattle.std.proofs.Math.Seq.{slice};
ghost use Rattle.theory.specs.Sets.{Is};
ghost use Rattle.theory.specs.Roles.{seed, role};
ghost use Rattle.theory.specs.Words.{theory_of};
ghost use Rattle.theory.specs.Accepted.{Accepted, edition1};
ghost use Rattle.theory.specs.Founded.{cyclic, cyclic_cone};
ghost use Rattle.theory.specs.Rows.{flat_map};
ghost use Rattle.theory.specs.Drive.{Follows, Drives};
ghost use Rattle.area.specs.Views.{as_vertices};
ghost use Rattle.rows.specs.Rows.{Named};
ghost use Rattle.projection.specs.Narrowed.{body_heads, fact_heads, start_in, RowTable, Sourced, parents_of, heads_of};
ghost use Rattle.projection.specs.Narrowing.{RowBegun, Narrowing, Written};
ghost use Rattle.projection.specs.Roles.{is_seed, number_of, Parted, Membered};

use area::Bases;
use chains::Step;
use cones::Cone;

// A vertex is stored behind the entries that are kept, and kept if the word that marks it is 1: the place moves on by 0 or 1, with no branch.
#[derive(Clone, Copy)]
struct Keep<'a> {
    work: &'a [u16],
    marks: usize,
}

impl Step<u16> for Keep<'_> {
    ghost Context = { RowBegun };

    ghost held = { λ it. Narrowing it.work.now it.marks };

    ghost kept = { λ it. 0 };

    fn step(self, part: &mut [u16], v: usize, place: usize) -> usize {
        words::put(part, place, v);
        place + words::at(self.work, self.marks + v)
    }
}

// What the rows are narrowed from.
#[derive(Clone, Copy)]
pub struct Source<'a> {
    pub graph: &'a [u16],
    pub work: &'a [u16],
    pub bases: Bases,
    pub cone: Cone,
}

// The nodes that stand in the words from one place to another, those of the cone.
fn nodes(work: &[u16], b: Bases, from: usize, to: usize, part: &mut [u16], place: usize) -> usize
    requires inside { (from ≤ to) × (to ≤ length work.now) × (b.atoms < 65536) }
    requires follows { Follows (Narrowing work.now b.states) part.old place (as_vertices b (slice from to work.now)) }
    ensures { Drives (Narrowing work.now b.states) 0 part.old place (as_vertices b (slice from to work.now)) part.new result [] }
{
    let keep = Keep {
        work,
        marks: b.states,
    };
    let mut t = place;
    for i in from..to {
        t = keep.step(part, b.atoms + words::at(work, i), t);
    }
    t
}

// The heads of the producers that stand there, the cyclic ones.
fn producers(
    graph: &[u16],
    work: &[u16],
    b: Bases,
    from: usize,
    to: usize,
    part: &mut [u16],
    place: usize,
) -> usize
    requires accepted { Accepted edition1 graph.now × Named graph.now work.now from to }
    requires inside { (from ≤ to) × (to ≤ length work.now) }
    requires follows { Follows (Narrowing work.now b.cyclic_atoms) part.old place (flat_map (theory_of graph.now).heads (slice from to work.now)) }
    ensures { Drives (Narrowing work.now b.cyclic_atoms) 0 part.old place (flat_map (theory_of graph.now).heads (slice from to work.now)) part.new result [] }
{
    let keep = Keep {
        work,
        marks: b.cyclic_atoms,
    };
    let mut t = place;
    for i in from..to {
        t = chains::heads(graph, part, keep, words::at(work, i), t);
    }
    t
}

impl Source<'_> {
    // Whether node n is in the cyclic cone: its mark is a word of lent memory, 1 or 0.
    fn has(self, n: usize) -> bool
        requires { Sourced self.graph.now self.bases self.work.now self.cone × (n < self.bases.nodes) }
        ensures { result ≡ cyclic_cone (theory_of self.entry.graph.now) n }
    {
        let b = self.bases;
        words::at(self.work, b.states + (b.atoms + n)) == 1
    }

    // Node n's narrowed row of parents; a node outside the cone has none.
    fn parent_row(self, n: usize, part: &mut [u16], place: usize) -> usize
        requires sourced { Sourced self.graph.now self.bases self.work.now self.cone × (n < self.bases.nodes) }
        requires room { place + length (parents_of self.graph.now n) < length part.old }
        ensures { Written part.old part.new place result (parents_of self.entry.graph.now n) }
    {
        if !self.has(n) {
            return place;
        }
        let b = self.bases;
        let from = adjacency::row_start(self.work, b.parents, b.nodes, n);
        let to = adjacency::row_start(self.work, b.parents, b.nodes, n + 1);
        nodes(self.work, b, from, to, part, place)
    }

    // Node n's narrowed row of heads.
    fn head_row(self, n: usize, part: &mut [u16], place: usize) -> usize
        requires sourced { Sourced self.graph.now self.bases self.work.now self.cone × (n < self.bases.nodes) }
        requires room { place + length (heads_of self.graph.now n) < length part.old }
        ensures { Written part.old part.new place result (heads_of self.entry.graph.now n) }
    {
        if !self.has(n) {
            return place;
        }
        let b = self.bases;
        let from = adjacency::row_start(self.work, b.by_body, b.nodes, n);
        let to = adjacency::row_start(self.work, b.by_body, b.nodes, n + 1);
        producers(self.graph, self.work, b, from, to, part, place)
    }

    // The row of the facts.
    fn fact_row(self, part: &mut [u16], place: usize) -> usize
        requires sourced { Sourced self.graph.now self.bases self.work.now self.cone }
        requires room { place + length (heads_of self.graph.now self.bases.nodes) < length part.old }
        ensures { Written part.old part.new place result (heads_of self.entry.graph.now self.entry.bases.nodes) }
    {
        let b = self.bases;
        let from = b.fact_rows;
        let to = from + self.cone.facts;
        producers(self.graph, self.work, b, from, to, part, place)
    }

    // The table of the parents.
    pub fn parents(self, part: &mut [u16])
        requires sourced { Sourced self.graph.now self.bases self.work.now self.cone }
        requires room { self.bases.nodes + 1 + start_in (parents_of self.graph.now) self.bases.nodes < length part.old }
        requires small { start_in (parents_of self.graph.now) self.bases.nodes < 65536 }
        ensures { RowTable self.entry.bases.nodes (parents_of self.entry.graph.now) part.new × (length part.new ≡ length part.old) }
    {
        let first = self.bases.nodes + 1;
        let mut place = first;
        words::put(part, 0, 0);
        for n in 0..self.bases.nodes {
            place = self.parent_row(n, part, place);
            words::put(part, n + 1, place - first);
        }
    }

    // The table of the heads, with the row of the facts behind those of the nodes.
    pub fn heads(self, part: &mut [u16])
        requires sourced { Sourced self.graph.now self.bases self.work.now self.cone }
        requires room { self.bases.nodes + 1 + 1 + start_in (heads_of self.graph.now) (self.bases.nodes + 1) < length part.old }
        requires small { start_in (heads_of self.graph.now) (self.bases.nodes + 1) < 65536 }
        ensures { RowTable (self.entry.bases.nodes + 1) (heads_of self.entry.graph.now) part.new × (length part.new ≡ length part.old) }
    {
        let first = self.bases.nodes + 1 + 1;
        let mut place = first;
        words::put(part, 0, 0);
        for n in 0..self.bases.nodes {
            place = self.head_row(n, part, place);
            words::put(part, n + 1, place - first);
        }
        place = self.fact_row(part, place);
        words::put(part, self.bases.nodes + 1, place - first);
    }

    // Whether atom a is cyclic: its flag is a word of lent memory, 1 or 0.
    fn is_cyclic(self, a: usize) -> bool
        requires { Sourced self.graph.now self.bases self.work.now self.cone × (a < self.bases.atoms) }
        ensures { result ≡ cyclic (theory_of self.entry.graph.now) a }
    {
        words::at(self.work, self.bases.cyclic_atoms + a) == words::SET
    }

    // The role of node n of the cone, by the kind table.
    fn read(self, n: usize) -> Role
        requires sourced { Sourced self.graph.now self.bases self.work.now self.cone }
        requires is { Is (cyclic_cone (theory_of self.graph.now) n) }
        ensures { (is_seed result ≡ seed (theory_of self.entry.graph.now) (cyclic (theory_of self.entry.graph.now)) n) × (number_of result ≡ role (theory_of self.entry.graph.now) (cyclic (theory_of self.entry.graph.now)) n) × (number_of result < 65536) }
    {
        let kind = graph::node_kind(self.graph, n);
        if kind.starts_true() {
            return Role::True;
        }
        if kind.takes_operand() {
            let a = graph::operand(self.graph, n);
            if self.is_cyclic(a) {
                return Role::Awaiting(1);
            }
            return Role::Boundary(a);
        }
        if kind.waits_for_one() {
            return Role::Awaiting(1);
        }
        if kind.waits_for_all() {
            return Role::Awaiting(graph::entries(self.graph, graph::first_leaf(self.graph, n)));
        }
        Role::Inactive
    }

    // The nodes of the cone with their roles beside them, counters from the front on and seeds from the back: where the seeds begin.
    pub fn partition(self, nodes: &mut [u16], roles: &mut [u16]) -> usize
        requires sourced { Sourced self.graph.now self.bases self.work.now self.cone }
        requires lengths { (length nodes.old ≡ self.cone.nodes) × (length roles.old ≡ self.cone.nodes) }
        ensures { Parted (theory_of self.entry.graph.now) (cyclic (theory_of self.entry.graph.now)) (drop self.entry.bases.body_nodes self.entry.work.now) self.entry.cone.nodes nodes.new roles.new result }
    {
        let mut counters: usize = 0;
        let mut seeds = self.cone.nodes;
        for i in 0..self.cone.nodes {
            let n = words::at(self.work, self.bases.body_nodes + i);
            let role = self.read(n);
            let number = role.number();
            if role.is_seed() {
                seeds -= 1;
                words::put(nodes, seeds, n);
                words::put(roles, seeds, number);
            } else {
                words::put(nodes, counters, n);
                words::put(roles, counters, number);
                counters += 1;
            }
        }
        counters
    }

    // The cyclic atoms, ascending: how many. One word more is stored.
    pub fn cyclic_atoms(self, part: &mut [u16]) -> usize
        requires sourced { Sourced self.graph.now self.bases self.work.now self.cone }
        requires room { self.bases.atoms < length part.old }
        ensures { Membered (cyclic (theory_of self.entry.graph.now)) self.entry.bases.atoms part.new result × (length part.new ≡ length part.old) }
    {
        let mut count: usize = 0;
        for a in 0..self.bases.atoms {
            words::put(part, count, a);
            count += words::at(self.work, self.bases.cyclic_atoms + a);
        }
        count
    }
}

// A node's start state before masks (the Rust: `Initial`).
#[derive(Clone, Copy)]
pub enum Role {
    Inactive,
    Awaiting(usize),
    True,
    Boundary(usize),
}

impl Role {
    // A seed is true at once or never, whatever is cut, and no entry leads to it that could change this.
    #[tactic(auto, unfolding(crate::specs::Roles::is_seed))]
    fn is_seed(self) -> bool
        ensures { result ≡ is_seed self }
    {
        match self {
            Role::Inactive => false,
            Role::Awaiting(count) => count == 0,
            Role::True | Role::Boundary(_) => true,
        }
    }

    // As it is laid down beside its node: what a counter waits for; of a seed 0, or its atom and 1.
    #[tactic(auto, unfolding(crate::specs::Roles::number_of))]
    fn number(self) -> usize
        requires { number_of self < 65536 }
        ensures { result ≡ number_of self }
    {
        match self {
            Role::Inactive | Role::True => 0,
            Role::Awaiting(count) => count,
            Role::Boundary(a) => a + 1,
        }
    }
}
