// The graph as lent words (document 01, "The graph as lent words"): the kind table, the header, the records and the reader of chains. Words are read by `at` alone, so that no other function knows how wide one is.
#![tactic(auto)]

ghost use Rattle.std.specs.Iterator.{YieldsFirst, item_count};
ghost use Rattle.std.specs.Prelude.{◌≡◌, false, ◌+◌, ◌-◌, ◌<◌, ◌≤◌, length, get_or, SomeIff, IfOk, OnErr};
ghost use Rattle.theory.specs.Theory.{joins, absorbed};
ghost use Rattle.theory.specs.Words.{kind_of, node_at, producer_at, chain, theory_of};
ghost use Rattle.theory.specs.Links.{MeetsOnce};
ghost use Rattle.theory.specs.Accepted.{Accepted, size_of};
ghost use Rattle.graph.specs.Kinds.{row_of, takes_operand, waits_for_one, waits_for_all, starts_true};
ghost use Rattle.graph.specs.Layout.{NodeIn, ProducerIn, LinksFrom, LinkIn, Following, value_in, next_in};

use words::{Word, at};

// A row a kind: takes an operand, takes links, waits for one, waits for all, starts true.
const KINDS: [[u8; 5]; 8] = [
    [0, 0, 0, 0, 0],
    [1, 0, 1, 0, 0],
    [0, 1, 0, 1, 0],
    [0, 1, 1, 0, 0],
    [0, 0, 0, 0, 1],
    [0, 0, 0, 0, 1],
    [0, 0, 0, 0, 1],
    [0, 0, 0, 0, 0],
];

// A kind: the number of a row of the table. No enum of eight, since document 01 names a table of tables indexed by kind.
#[derive(Clone, Copy, Debug, PartialEq, Eq)]
pub struct NodeKind {
    pub number: usize,
    ghost known: { number ≤ 7 },
}

// A number that the table has no row for.
#[derive(Clone, Copy, Debug, PartialEq, Eq)]
pub struct UnknownKind;

impl TryFrom<usize> for NodeKind {
    type Error = UnknownKind;

    ghost try_from_gives = { λ number result. IfOk result (λ kind. kind.number ≡ number) × OnErr result (7 < number) };

    fn try_from(number: usize) -> Result<NodeKind, UnknownKind> {
        if number < KINDS.len() {
            return Ok(NodeKind { number });
        }
        Err(UnknownKind)
    }
}

// The kind that refusal 12 is for. The table does not tell it from kind 0.
const ABSORBED: usize = 7;

// What each column of the kind's row says, by name; `says` reads document 01's table by row and column.
impl NodeKind {
    fn says(self, column: usize) -> bool
        requires { column ≤ 4 }
        ensures { result ≡ get_or (row_of (kind_of self.number)) column false }
    {
        KINDS[self.number][column] == 1
    }

    pub fn takes_operand(self) -> bool
        ensures { result ≡ takes_operand (kind_of self.number) }
    {
        self.says(0)
    }

    pub fn takes_links(self) -> bool
        ensures { result ≡ joins (kind_of self.number) }
    {
        self.says(1)
    }

    pub fn waits_for_one(self) -> bool
        ensures { result ≡ waits_for_one (kind_of self.number) }
    {
        self.says(2)
    }

    pub fn waits_for_all(self) -> bool
        ensures { result ≡ waits_for_all (kind_of self.number) }
    {
        self.says(3)
    }

    pub fn starts_true(self) -> bool
        ensures { result ≡ starts_true (kind_of self.number) }
    {
        self.says(4)
    }

    pub fn absorbed(self) -> bool
        ensures { result ≡ absorbed (kind_of self.number) }
    {
        self.number == ABSORBED
    }
}

// The header's counts: each accessor is the name of a word, in one line. (What is known of the words is a clause of each function, here and in the crates above; `area::Bases`
// says why. `NodeIn`, `ProducerIn` and `LinkIn`, below, stand for two facts each, so that an accessor's clause is one word.)
pub fn atoms<W: Word>(graph: &[W]) -> usize
    requires { 5 ≤ length (W.numbers graph.now) }
    ensures { result ≡ get_or (W.numbers graph.now) 1 0 }
{
    at(graph, 1)
}

pub fn nodes<W: Word>(graph: &[W]) -> usize
    requires { 5 ≤ length (W.numbers graph.now) }
    ensures { result ≡ get_or (W.numbers graph.now) 2 0 }
{
    at(graph, 2)
}

pub fn producers<W: Word>(graph: &[W]) -> usize
    requires { 5 ≤ length (W.numbers graph.now) }
    ensures { result ≡ get_or (W.numbers graph.now) 3 0 }
{
    at(graph, 3)
}

pub fn links<W: Word>(graph: &[W]) -> usize
    requires { 5 ≤ length (W.numbers graph.now) }
    ensures { result ≡ get_or (W.numbers graph.now) 4 0 }
{
    at(graph, 4)
}

// A node's record: its kind, a raw word that the check holds against the table, its operand and its first leaf link. A link is its number, from 1, and 0 is no link, as
// document 01 has a chain read by a link number; so it is with `first_head`, `next` and `next_at` too. `body` is the raw word for the check, and `body_node` its Option.
pub fn kind<W: Word>(graph: &[W], n: usize) -> usize
    requires { NodeIn (W.numbers graph.now) n }
    ensures { result ≡ get_or (W.numbers graph.now) (node_at n) 0 }
{
    at(graph, 5 + 3 * n)
}

// That of an accepted graph's node.
pub fn node_kind<W: Word>(graph: &[W], n: usize) -> NodeKind
    requires { Accepted W.edition (W.numbers graph.now) × (n < (theory_of (W.numbers graph.now)).nodes) }
    ensures { kind_of result.number ≡ (theory_of (W.numbers graph.now)).kind n }
{
    NodeKind {
        number: kind(graph, n),
    }
}

pub fn operand<W: Word>(graph: &[W], n: usize) -> usize
    requires { NodeIn (W.numbers graph.now) n }
    ensures { result ≡ get_or (W.numbers graph.now) (node_at n + 1) 0 }
{
    at(graph, 5 + 3 * n + 1)
}

pub fn first_leaf<W: Word>(graph: &[W], n: usize) -> usize
    requires { NodeIn (W.numbers graph.now) n }
    ensures { result ≡ get_or (W.numbers graph.now) (node_at n + 2) 0 }
{
    at(graph, 5 + 3 * n + 2)
}

// A producer's record: body + 1, where 0 marks a fact, and the first head link.
fn producer_at<W: Word>(graph: &[W], p: usize) -> usize
    requires { ProducerIn (W.numbers graph.now) p }
    ensures { result ≡ producer_at (W.numbers graph.now) p }
{
    5 + 3 * at(graph, 2) + 2 * p
}

pub fn body<W: Word>(graph: &[W], p: usize) -> usize
    requires { ProducerIn (W.numbers graph.now) p }
    ensures { result ≡ get_or (W.numbers graph.now) (producer_at (W.numbers graph.now) p) 0 }
{
    at(graph, producer_at(graph, p))
}

// The node that is the body, or none for a fact.
pub fn body_node<W: Word>(graph: &[W], p: usize) -> Option<usize>
    requires { ProducerIn (W.numbers graph.now) p }
    ensures { SomeIff result (0 < (theory_of (W.numbers graph.now)).body p) ((theory_of (W.numbers graph.now)).body p - 1) }
{
    body(graph, p).checked_sub(1)
}

pub fn first_head<W: Word>(graph: &[W], p: usize) -> usize
    requires { ProducerIn (W.numbers graph.now) p }
    ensures { result ≡ get_or (W.numbers graph.now) (producer_at (W.numbers graph.now) p + 1) 0 }
{
    at(graph, producer_at(graph, p) + 1)
}

// Where the link records begin.
pub fn links_from<W: Word>(graph: &[W]) -> usize
    requires { length (W.numbers graph.now) ≡ size_of (W.numbers graph.now) }
    ensures { LinksFrom (W.numbers graph.now) result }
{
    5 + 3 * at(graph, 2) + 2 * at(graph, 3)
}

// A link's record, by its number from 1 and where the records begin: its value and the next link.
fn value_at<W: Word>(graph: &[W], from: usize, l: usize) -> usize
    requires { LinkIn (W.numbers graph.now) from l }
    ensures { result ≡ value_in (W.numbers graph.now) from l }
{
    at(graph, from + 2 * l - 2)
}

fn next_at<W: Word>(graph: &[W], from: usize, l: usize) -> usize
    requires { LinkIn (W.numbers graph.now) from l }
    ensures { result ≡ next_in (W.numbers graph.now) from l }
{
    at(graph, from + 2 * l - 1)
}

// The reader of a chain: the graph's words and a link number, the form that document 01 names. Each function over it takes it apart and calls a plain one. Where the links begin is handed to them, so that
// no header is read at each link.
#[derive(Drop)]
pub struct Chain<'a, W> {
    pub words: &'a [W],
    pub link: usize,
}

pub fn chain_of<'a, W: Word>(words: &'a [W], link: usize) -> Chain<'a, W>
    ensures { (result.words ≡ words.entry) × (result.link ≡ link) }
{
    Chain { words, link }
}

pub fn chain_link<'a, W: Word>(c: Chain<'a, W>) -> usize
    ensures { result ≡ c.entry.link }
{
    c.link
}

pub fn chain_value<'a, W: Word>(c: Chain<'a, W>, from: usize) -> usize
    requires { LinkIn (W.numbers c.words.now) from c.link }
    ensures { result ≡ value_in (W.numbers c.entry.words.now) from c.entry.link }
{
    value_at(c.words, from, c.link)
}

pub fn chain_next<'a, W: Word>(c: Chain<'a, W>, from: usize) -> Chain<'a, W>
    requires { LinkIn (W.numbers c.words.now) from c.link }
    ensures { (result.words ≡ c.entry.words) × (result.link ≡ next_in (W.numbers c.entry.words.now) from c.entry.link) }
{
    let next = next_at(c.words, from, c.link);
    Chain {
        words: c.words,
        link: next,
    }
}

// What a follower calls, and who needs the link too, on the graph's words and where the links begin.
pub fn value<W: Word>(graph: &[W], from: usize, l: usize) -> usize
    requires { LinkIn (W.numbers graph.now) from l }
    ensures { result ≡ value_in (W.numbers graph.now) from l }
{
    chain_value(chain_of(graph, l), from)
}

pub fn next<W: Word>(graph: &[W], from: usize, l: usize) -> usize
    requires { LinkIn (W.numbers graph.now) from l }
    ensures { result ≡ next_in (W.numbers graph.now) from l }
{
    chain_link(chain_next(chain_of(graph, l), from))
}

// The values along a chain, one at each `next`. It calls the reader's functions, and keeps the link that comes next and where the links begin, so that no header is read at each
// link. Beside the reader, which has the words and the link alone, as document 01 has it.
#[derive(Drop)]
pub struct Follower<'a, W> {
    pub words: &'a [W],
    pub from: usize,
    pub link: usize,
}

impl<'a, W: Word> Iterator for Follower<'a, W> {
    type Item = usize;

    ghost can_next = { λ s. Following (W.numbers s.words.now) s.from s.link };

    ghost next_gives = { YieldsFirst (λ s. chain (W.numbers s.words.now) s.link) };

    ghost remaining = { item_count (λ s. chain (W.numbers s.words.now) s.link) };

    fn next(&mut self) -> Option<usize> {
        if self.link == 0 {
            return None;
        }
        let v = value(self.words, self.from, self.link);
        self.link = next(self.words, self.from, self.link);
        Some(v)
    }
}

// A follower with all of a chain still to give.
pub fn follow<'a, W: Word>(graph: &'a [W], first: usize) -> Follower<'a, W>
    requires { (length (W.numbers graph.now) ≡ size_of (W.numbers graph.now)) × MeetsOnce (W.numbers graph.now) first }
    ensures { (result.words ≡ graph.entry) × (result.link ≡ first) × Following (W.numbers graph.entry.now) result.from first }
{
    Follower {
        words: graph,
        from: links_from(graph),
        link: first,
    }
}

// How many entries a chain has, repeats counted.
pub fn entries<W: Word>(graph: &[W], first: usize) -> usize
    requires { Accepted W.edition (W.numbers graph.now) × MeetsOnce (W.numbers graph.now) first }
    ensures { result ≡ length (chain (W.numbers graph.now) first) }
{
    follow(graph, first).count()
}
