// The states as a tree: each is a left side's first letters, and a child is one letter longer (Aho
// and Corasick 1975).
ghost use Rattle.std.specs.Prelude.{◌≡◌, ◌+◌, ◌<◌, ◌≤◌, [], ◌∷◌, length, replicate, None, Some, IfOk, OnOk};
ghost use Rattle.cells.specs.Rows.{AreRows};
ghost use Rattle.rewriting.specs.Rules.{AreOver};
ghost use Rattle.rewriting.specs.Tries.{AreReadTo, FindsChild, HasGrown, IsLevelTree, IsReadTo, IsTreeOf, left_at, tree_of};

use crate::rule_lists::Rules;
use cells::{Cells, NUMBERS_AT_MOST};
use ports::NoMemory;
use std::alloc::Global;
use words::Letter;

/// A prefix of the left side of a rule: so many letters of it.
#[derive(Clone, Copy)]
pub struct Prefix {
    pub rule: usize,
    pub count: usize,
}

/// The states as prefixes of left sides over so many letters; and for each state and letter the
/// state that they make, and the rule whose left side they make.
#[derive(Drop)]
pub struct Trie {
    pub letters: usize,
    pub prefixes: Vec<Prefix>,
    pub children: Cells,
    pub lefts: Cells,
}

// The empty word alone.
fn root_alone(alloc: Global, letters: usize) -> Result<Trie, NoMemory>
    ensures letters { IfOk result (λ t. t.letters ≡ letters) }
    ensures prefixes { IfOk result (λ t. t.prefixes.items ≡ record { rule = 0; count = 0 } ∷ []) }
    ensures children { IfOk result (λ t. t.children ≡ replicate letters None ∷ []) }
    ensures lefts { IfOk result (λ t. t.lefts ≡ replicate letters None ∷ []) }
{
    let mut prefixes = Vec::new(alloc);
    prefixes.push(Prefix { rule: 0, count: 0 })?;
    let children = Cells::new(alloc, letters)?;
    let lefts = Cells::new(alloc, letters)?;
    Ok(Trie {
        letters,
        prefixes,
        children,
        lefts,
    })
}

impl Trie {
    // The child of the state by the letter, which is made if it is not there.
    fn descend(&mut self, node: usize, letter: Letter, prefix: Prefix) -> Result<usize, NoMemory>
        requires node { node < length self.old.prefixes.items }
        requires letter { letter < self.old.letters }
        requires children { AreRows (length self.old.prefixes.items) self.old.letters
            self.old.children }
        requires lefts { AreRows (length self.old.prefixes.items) self.old.letters self.old.lefts }
        ensures { IfOk result (FindsChild node letter prefix self.old self.new) }
    {
        if let Some(child) = self.children.get(node, letter) {
            return Ok(child);
        }
        let child = self.children.nodes();
        self.prefixes.push(prefix)?;
        self.children.add_row()?;
        self.children.put(node, letter, Some(child));
        self.lefts.add_row()?;
        Ok(child)
    }

    // Reads one letter more of the left side of a rule, of which so many lead to the node, and gives
    // the node to which they lead then. The last letter leads to none, and is marked.
    fn read_on(
        &mut self,
        rules: &Rules,
        rule: usize,
        count: usize,
        node: usize,
    ) -> Result<usize, NoMemory>
        requires few { rule < NUMBERS_AT_MOST }
        requires over { AreOver self.old.letters rules.now }
        requires rule { rule < length rules.now }
        requires tree { IsLevelTree rules.now (count + 1) (tree_of rules.now self.old) }
        requires read { IsReadTo (tree_of rules.now self.old) (left_at rules.now rule) count node }
        ensures tree { OnOk result
            (IsLevelTree rules.now (count + 1) (tree_of rules.now self.new)) }
        ensures grown { OnOk result
            (HasGrown (tree_of rules.now self.old) (tree_of rules.now self.new)) }
        ensures read { IfOk result
            (IsReadTo (tree_of rules.now self.new) (left_at rules.now rule) (count + 1)) }
    {
        let left = rules.rule(rule).0.letters();
        if left.len() <= count {
            return Ok(node);
        }
        let letter = left[count];
        let count = count + 1;
        if left.len() == count {
            self.lefts.put_number(node, letter, Some(rule));
            return Ok(node);
        }
        let next = self.descend(node, letter, Prefix { rule, count })?;
        Ok(next)
    }

    // Reads one letter more of each left side, of which so many lead to the nodes, and gives those
    // to which they lead then.
    fn read_level(
        &mut self,
        alloc: Global,
        rules: &Rules,
        count: usize,
        nodes: &[usize],
    ) -> Result<Vec<usize>, NoMemory>
        requires few { length rules.now ≤ NUMBERS_AT_MOST }
        requires over { AreOver self.old.letters rules.now }
        requires count { count < usize.MAX }
        requires nodes { length nodes.now ≡ length rules.now }
        requires tree { IsLevelTree rules.now count (tree_of rules.now self.old) }
        requires read { AreReadTo rules.now (length rules.now) count nodes.now
            (tree_of rules.now self.old) }
        ensures letters { OnOk result (self.new.letters ≡ self.old.letters) }
        ensures tree { OnOk result
            (IsLevelTree rules.now (count + 1) (tree_of rules.now self.new)) }
        ensures nodes { IfOk result (λ next. length next.items ≡ length rules.now) }
        ensures read { IfOk result (λ next. AreReadTo rules.now (length rules.now) (count + 1)
            next.items (tree_of rules.now self.new)) }
    {
        let mut next = Vec::with_capacity(alloc, nodes.len())?;
        for rule in 0..nodes.len() {
            let node = self.read_on(rules, rule, count, nodes[rule])?;
            next.push(node)?;
        }
        Ok(next)
    }
}

/// The tree of the empty word and the proper prefixes of the left sides, level by level: the shorter
/// states first. Refused only where memory is wanting: more rules or states than entries of four
/// bytes can tell apart do not fit.
pub fn trie_of(alloc: Global, letters: usize, rules: &Rules) -> Result<Trie, NoMemory>
    requires { AreOver letters rules.now }
    ensures letters { IfOk result (λ t. t.letters ≡ letters) }
    ensures tree { IfOk result (IsTreeOf rules.now) }
{
    let number = rules.len();
    if NUMBERS_AT_MOST < number {
        return Err(NoMemory);
    }
    let mut trie = root_alone(alloc, letters)?;
    let mut nodes = Vec::from_elem(alloc, 0, number)?;
    for count in 0..rules.longest_left() {
        nodes = trie.read_level(alloc, rules, count, nodes.as_slice())?;
    }
    Ok(trie)
}
