// A later pass of a search branch, by narrowed rows and start states with the seeds last: counters are reset, the heads of the facts met, the rows of seeds followed at once, with no place
// on the queue, and the queue settled.
#![tactic(auto)]

ghost use Rattle.std.specs.Prelude.{◌≡◌, [], ◌∷◌, List, ℕ, ◌+◌, ◌-◌, ◌<◌, ◌≤◌, cond, get_or, length};
ghost use Rattle.std.proofs.Math.Seq.{slice};
ghost use Rattle.theory.specs.Words.{bit_at, theory_of};
ghost use Rattle.theory.specs.Founded.{cyclic};
ghost use Rattle.theory.specs.Roles.{live_role, role};
ghost use Rattle.theory.specs.Drive.{Follows, Drives};
ghost use Rattle.area.specs.Layout.{Laid};
ghost use Rattle.adjacency.specs.Tables.{row_at};
ghost use Rattle.rows.specs.Rows.{Spanned};
ghost use Rattle.later.specs.Later.{later_row, Projected, LaterRows, Again, PassedAgain, Reset, Restarted, Seeding};

use area::Bases;
use chains::Step;
use events::{Rows, Settle};

// Every entry of row r of a table that stands alone.
fn along<S: Step<u16>>(
    table: &[u16],
    rows: usize,
    r: usize,
    work: &mut [u16],
    step: S,
    tail: usize,
) -> usize
    requires spanned { Spanned (length table.now) table.now 0 rows r }
    requires follows { Follows (S.held step) work.old tail (row_at table.now 0 rows r) }
    ensures { Drives (S.held step) (S.kept step) work.old tail (row_at table.now 0 rows r) work.new result [] }
{
    let from = adjacency::row_start(table, 0, rows, r);
    let to = adjacency::row_start(table, 0, rows, r + 1);
    let mut t = tail;
    for i in from..to {
        t = step.step(work, words::at(table, i), t);
    }
    t
}

// Whether a seed is true under the cuts: neither it nor the atom that it stands for is cut.
fn live(never: &[u64], atom_never: &[u64], n: usize, role: usize) -> bool
    ensures { result ≡ live_role (bit_at never.now) (bit_at atom_never.now) n role }
{
    !mask::bit(never, n) && (role == 0 || !mask::bit(atom_never, role - 1))
}

// An uncut cyclic atom waits for one.
fn reset_atoms(atom_never: &[u64], atoms: &[u16], work: &mut [u16], b: Bases)
    requires area { Laid b × (b.end ≤ length work.old) }
    requires low { (i : ℕ) → i < length atoms.now → get_or atoms.now i 0 < b.atoms }
    ensures { Reset b (λ v. cond (bit_at atom_never.now v) 0 1) (λ i. get_or atoms.now i 0) work.old work.new (length atoms.now) }
{
    for i in 0..atoms.len() {
        let a = words::at(atoms, i);
        let count = usize::from(!mask::bit(atom_never, a));
        words::put(work, b.dependencies + a, count);
    }
}

// What the narrowed rows, the nodes of the cone with their roles, and the cyclic atoms are read from (the Rust: `Projection`). Counters come first, and the seeds begin at `seed_start`.
#[derive(Clone, Copy)]
pub struct Projection<'a> {
    pub graph: &'a [u16],
    pub bases: Bases,
    pub parents: &'a [u16],
    pub heads: &'a [u16],
    pub body_nodes: &'a [u16],
    pub initial: &'a [u16],
    pub seed_start: usize,
    pub cyclic_atoms: &'a [u16],
}

impl Rows<u16> for Projection<'_> {
    ghost bases = { λ it. it.bases };

    ghost row_of = { λ it. later_row it.graph.now it.bases };

    ghost stand = { λ it. LaterRows it.graph.now it.bases it.parents.now it.heads.now };

    fn settle(self, work: &mut [u16], v: usize, tail: usize) -> usize {
        let b = self.bases;
        let settle = Settle { bases: b };
        if v < b.atoms {
            return rows::along(self.graph, work, b, settle, v, tail);
        }
        let n = v - b.atoms;
        let t = along(self.parents, b.nodes, n, work, settle, tail);
        along(self.heads, b.nodes + 1, n, work, settle, t)
    }
}

impl Projection<'_> {
    // An uncut counter waits for what its role says, and a cut one for nothing.
    fn reset_counters(self, never: &[u64], work: &mut [u16])
        requires area { Laid self.bases × (self.bases.end ≤ length work.old) }
        requires projected { Projected self.graph.now self.bases self.parents.now self.heads.now self.body_nodes.now self.initial.now self.seed_start self.cyclic_atoms.now }
        requires low { (i : ℕ) → i < length self.body_nodes.now → get_or self.body_nodes.now i 0 < self.bases.nodes }
        ensures { Reset self.entry.bases (λ v. cond (bit_at never.now (v - self.entry.bases.atoms)) 0 (role (theory_of self.entry.graph.now) (cyclic (theory_of self.entry.graph.now)) (v - self.entry.bases.atoms))) (λ i. self.entry.bases.atoms + get_or self.entry.body_nodes.now i 0) work.old work.new self.entry.seed_start }
    {
        let b = self.bases;
        for i in 0..self.seed_start {
            let n = words::at(self.body_nodes, i);
            let count = if mask::bit(never, n) {
                0
            } else {
                words::at(self.initial, i)
            };
            words::put(work, b.dependencies + (b.atoms + n), count);
        }
    }

    // The counts that a pass starts with, of all that some pass waits for.
    fn reset(self, never: &[u64], atom_never: &[u64], work: &mut [u16])
        requires again { Again self.graph.now self.bases work.old }
        requires projected { Projected self.graph.now self.bases self.parents.now self.heads.now self.body_nodes.now self.initial.now self.seed_start self.cyclic_atoms.now }
        ensures { Restarted self.entry.graph.now self.entry.bases (bit_at never.now) (bit_at atom_never.now) (slice self.entry.seed_start (length self.entry.body_nodes.now) self.entry.body_nodes.now) work.old work.new }
    {
        reset_atoms(atom_never, self.cyclic_atoms, work, self.bases);
        self.reset_counters(never, work);
    }

    // The rows of the seeds that are true, followed at once.
    fn replay(self, never: &[u64], atom_never: &[u64], work: &mut [u16], tail: usize) -> usize
        requires rows { LaterRows self.graph.now self.bases self.parents.now self.heads.now work.old }
        requires projected { Projected self.graph.now self.bases self.parents.now self.heads.now self.body_nodes.now self.initial.now self.seed_start self.cyclic_atoms.now }
        requires seeding { Seeding self.graph.now self.bases (bit_at never.now) (bit_at atom_never.now) (slice self.seed_start (length self.body_nodes.now) self.body_nodes.now) [] work.old work.old tail }
        ensures { Seeding self.entry.graph.now self.entry.bases (bit_at never.now) (bit_at atom_never.now) (slice self.entry.seed_start (length self.entry.body_nodes.now) self.entry.body_nodes.now) (slice self.entry.seed_start (length self.entry.body_nodes.now) self.entry.body_nodes.now) work.old work.new result }
    {
        let mut t = tail;
        for i in (self.seed_start..self.body_nodes.len()).rev() {
            let n = words::at(self.body_nodes, i);
            if live(never, atom_never, n, words::at(self.initial, i)) {
                t = self.settle(work, self.bases.atoms + n, t);
            }
        }
        t
    }

    // The pass: a missing atom still waits. Counts and queue are written, nothing else.
    pub fn pass(self, never: &[u64], atom_never: &[u64], work: &mut [u16])
        requires again { Again self.graph.now self.bases work.old }
        requires projected { Projected self.graph.now self.bases self.parents.now self.heads.now self.body_nodes.now self.initial.now self.seed_start self.cyclic_atoms.now }
        ensures { PassedAgain self.entry.graph.now (bit_at never.now) (bit_at atom_never.now) self.entry.bases work.old work.new }
    {
        let b = self.bases;
        self.reset(never, atom_never, work);
        let facts = along(
            self.heads,
            b.nodes + 1,
            b.nodes,
            work,
            Settle { bases: b },
            0,
        );
        let first = self.replay(never, atom_never, work, facts);
        events::settle_in(work, b, self, first);
    }
}
