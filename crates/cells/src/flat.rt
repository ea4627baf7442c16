// Rows of entries that stand in one vector.
ghost use Rattle.std.specs.Prelude.{◌≡◌, ℕ, ◌+◌, ◌*◌, ◌<◌, ◌≤◌, All, List, [], ◌∷◌, ◌++◌, length, replicate, slice_index_or, None, IfOk, OnOk, OnErr};
ghost use Rattle.std.specs.Option.{ForSome};
ghost use Rattle.theory.specs.Graph.{target};
ghost use Rattle.cells.specs.Rows.{flat, rows_of, with_entry, with_node};

use crate::entries::Entry;
use ports::NoMemory;
use std::alloc::Global;
use std::marker::Model;
use words::Letter;

/// So many numbers, from 0, fit in entries of four bytes. More nodes have no room in [`Cells`].
pub const NUMBERS_AT_MOST: usize = 4_294_967_295;

/// For each node and letter a number or none: a row for each node, and at least one.
#[derive(Drop)]
pub struct Cells {
    nodes: usize,
    letters: usize,
    entries: Vec<Entry>,
}

impl Model for Cells {
    ghost use Rattle.std.below.core.specs.declared.int.u32.TheConstants.{MAX};
    ghost use Rattle.std.specs.Prelude.{◌≡◌, ◌*◌, ◌<◌, ◌≤◌, length};
    ghost use Rattle.theory.specs.Graph.{Graph};
    ghost use Rattle.cells.specs.Rows.{rows_of};

    ghost Value = { Graph };

    ghost view = { λ c. rows_of c.letters c.nodes c.entries.items };

    ghost invariant = { λ c. record {
      some : 0 < c.nodes;
      few : c.nodes ≤ MAX;
      entries : length c.entries.items ≡ c.nodes * c.letters;
    } };
}

// Where the entry of the node and letter stands.
fn place(nodes: usize, letters: usize, node: usize, letter: usize) -> usize
    requires room { nodes * letters ≤ usize.MAX }
    requires node { node < nodes }
    requires letter { letter < letters }
    ensures place { result ≡ node * letters + letter }
    ensures within { result < nodes * letters }
{
    node * letters + letter
}

// Where the entries of the node begin.
fn row_start(nodes: usize, letters: usize, node: usize) -> usize
    requires room { nodes * letters ≤ usize.MAX }
    requires node { node < nodes }
    ensures start { result ≡ node * letters }
    ensures within { result + letters ≤ nodes * letters }
{
    node * letters
}

// So many entries more, and nothing in them. Only want of memory refuses it, and then nothing has
// changed.
fn push_empty(entries: &mut Vec<Entry>, count: usize) -> Result<(), NoMemory>
    ensures ok { OnOk result (entries.new.items ≡ entries.old.items ++ replicate count None) }
    ensures err { OnErr result (entries.new.items ≡ entries.old.items) }
{
    let len = entries.len();
    for _ in 0..count {
        let Ok(()) = entries.push(Entry::new(None)) else {
            entries.truncate(len);
            return Err(NoMemory);
        };
    }
    Ok(())
}

// Nothing is left in any entry.
fn empty(entries: &mut Vec<Entry>)
    ensures { entries.new.items ≡ replicate (length entries.old.items) None }
{
    for place in 0..entries.len() {
        entries[place] = Entry::new(None);
    }
}

impl Cells {
    /// The root alone, without entries. Refused only where memory is wanting.
    pub fn new(alloc: Global, letters: usize) -> Result<Cells, NoMemory>
        ensures { IfOk result (λ c. c ≡ replicate letters None ∷ []) }
    {
        Cells::of(alloc, 1, letters)
    }

    /// So many nodes, the root among them, without entries, in a vector that is made at once. Only
    /// want of memory refuses it: more nodes than entries of four bytes can tell apart do not fit.
    pub fn of(alloc: Global, nodes: usize, letters: usize) -> Result<Cells, NoMemory>
        requires { 0 < nodes }
        ensures { IfOk result (λ c. c ≡ replicate nodes (replicate letters None)) }
    {
        if NUMBERS_AT_MOST < nodes {
            return Err(NoMemory);
        }
        let Some(count) = nodes.checked_mul(letters) else {
            return Err(NoMemory);
        };
        let mut entries = Vec::with_capacity(alloc, count)?;
        push_empty(&mut entries, count)?;
        Ok(Cells {
            nodes,
            letters,
            entries,
        })
    }

    /// The rows of so many entries each that stand one behind another in a list.
    pub fn of_entries(nodes: usize, letters: usize, entries: Vec<Entry>) -> Cells
        requires some { 0 < nodes }
        requires few { nodes ≤ NUMBERS_AT_MOST }
        requires whole { length entries.items ≡ nodes * letters }
        ensures { result ≡ rows_of letters nodes entries.items }
    {
        Cells {
            nodes,
            letters,
            entries,
        }
    }

    /// The same rows in memory of their own. Refused only where memory is wanting.
    pub fn copy(&self, alloc: Global) -> Result<Cells, NoMemory>
        ensures { IfOk result (λ c. c ≡ self.now) }
    {
        let entries = Vec::from_slice(alloc, self.entries.as_slice())?;
        Ok(Cells {
            nodes: self.nodes,
            letters: self.letters,
            entries,
        })
    }

    /// How many nodes there are.
    pub fn nodes(&self) -> usize
        ensures { result ≡ length self.now }
    {
        self.nodes
    }

    /// How many letters there are: as many as each row has entries. What holds of all [`Cells`] is
    /// told here.
    pub fn letters(&self) -> usize
        ensures rows { All (λ row. length row ≡ result) self.now }
        ensures some { 0 < length self.now }
        ensures few { length self.now ≤ NUMBERS_AT_MOST }
    {
        self.letters
    }

    /// The entries of a node, letter by letter.
    pub fn row(&self, node: usize) -> &[Entry]
        requires { node < length self.now }
        ensures { result.now ≡ slice_index_or self.now node [] }
    {
        let start = row_start(self.nodes, self.letters, node);
        &self.entries.as_slice()[start..start + self.letters]
    }

    /// The entries of all nodes, row after row.
    pub fn entries(&self) -> &[Entry]
        ensures { result.now ≡ flat self.now }
    {
        let _nodes = self.nodes;
        self.entries.as_slice()
    }

    /// The entry of the node and letter. `None` also where there is no such node or letter.
    pub fn get(&self, node: usize, letter: Letter) -> Option<usize>
        ensures entry { result ≡ target self.now node letter }
        ensures few { ForSome result (λ n. n < NUMBERS_AT_MOST) }
    {
        if self.nodes <= node {
            return None;
        }
        if self.letters <= letter.number() {
            return None;
        }
        let place = place(self.nodes, self.letters, node, letter.number());
        self.entries[place].value()
    }

    /// Puts an entry in the place of the one that was there: the number of a node, or none.
    pub fn put(&mut self, node: usize, letter: Letter, entry: Option<usize>)
        requires node { node < length self.old }
        requires letter { letter < length (slice_index_or self.old node []) }
        requires entry { ForSome entry (λ n. n < length self.old) }
        ensures { self.new ≡ with_entry self.old node letter entry }
    {
        let _nodes = self.nodes;
        self.put_number(node, letter, entry);
    }

    /// Puts an entry in the place of the one that was there: a number, which need not be that of a
    /// node, or none.
    pub fn put_number(&mut self, node: usize, letter: Letter, entry: Option<usize>)
        requires node { node < length self.old }
        requires letter { letter < length (slice_index_or self.old node []) }
        requires entry { ForSome entry (λ n. n < NUMBERS_AT_MOST) }
        ensures { self.new ≡ with_entry self.old node letter entry }
    {
        let place = place(self.nodes, self.letters, node, letter.number());
        self.entries[place] = Entry::new(entry);
    }

    /// One node more, without entries. Only want of memory refuses it, and then nothing has
    /// changed: more nodes than entries of four bytes can tell apart do not fit.
    pub fn add_row(&mut self) -> Result<(), NoMemory>
        ensures ok { OnOk result ((k : ℕ) → All (λ row. length row ≡ k) self.old
            → self.new ≡ with_node k self.old) }
        ensures err { OnErr result (self.new ≡ self.old) }
    {
        if NUMBERS_AT_MOST <= self.nodes {
            return Err(NoMemory);
        }
        push_empty(&mut self.entries, self.letters)?;
        self.nodes += 1;
        Ok(())
    }

    /// Takes all nodes but the root away, and all entries. It asks for no memory.
    pub fn clear(&mut self)
        ensures { (k : ℕ) → All (λ row. length row ≡ k) self.old
            → self.new ≡ replicate k None ∷ [] }
    {
        self.entries.truncate(self.letters);
        empty(&mut self.entries);
        self.nodes = 1;
    }
}
