// The tables of the automaton: where each state and letter lead, by the links to shorter states
// (Aho and Corasick 1975).
ghost use Rattle.std.specs.Prelude.{◌≡◌, ℕ, ◌+◌, ◌<◌, ◌≤◌, length, replicate, Option, IfOk};
ghost use Rattle.std.specs.Option.{ForSome};
ghost use Rattle.rewriting.specs.Rules.{AreOver};
ghost use Rattle.rewriting.specs.Tries.{IsBehind, linked, AreFilled, AreLinkedTo, IsTreeOf, filling_of};

use crate::rule_lists::Rules;
use crate::tries::Trie;
use cells::{Cells, NUMBERS_AT_MOST};
use ports::NoMemory;
use std::alloc::Global;
use words::Letter;

/// For each state and letter the longest state at their end, and a rule whose left side stands
/// there; and for each state the longest state at its end that is not all of it.
#[derive(Drop)]
pub struct Tables {
    pub targets: Cells,
    pub ends: Cells,
    pub links: Vec<usize>,
}

// So many noughts.
fn noughts(alloc: Global, count: usize) -> Result<Vec<usize>, NoMemory>
    ensures { IfOk result (λ v. v.items ≡ replicate count 0) }
{
    Ok(Vec::from_elem(alloc, 0, count)?)
}

// The child's link, if there is a child.
fn set_link(links: &mut Vec<usize>, child: Option<usize>, to: usize)
    requires { (c : ℕ) → child ≡ Option.Some c → c < length links.old.items }
    ensures { links.new.items ≡ linked child to links.old.items }
{
    if let Some(child) = child {
        links[child] = to;
    }
}

impl Tables {
    // What is read behind the first letter of the state and the letter: where its link leads by
    // the letter.
    fn read_behind(&self, node: usize, letter: Letter) -> (usize, Option<usize>)
        requires { node < length self.now.links.items }
        ensures behind { IsBehind node letter (filling_of self.now) result }
        ensures few { ForSome result.1 (λ n. n < NUMBERS_AT_MOST) }
    {
        if node == 0 {
            return (0, None);
        }
        let link = self.links[node];
        let target = self.targets.get(link, letter).unwrap_or(0);
        (target, self.ends.get(link, letter))
    }

    // The entries of a state and letter, when those of shorter states are there.
    fn link_entry(&mut self, rules: &Rules, trie: &Trie, node: usize, letter: Letter)
        requires over { AreOver trie.now.letters rules.now }
        requires tree { IsTreeOf rules.now trie.now }
        requires node { node < length trie.now.prefixes.items }
        requires letter { letter < trie.now.letters }
        requires linked { AreLinkedTo rules.now trie.now node letter self.old }
        ensures { AreLinkedTo rules.now trie.now node (letter + 1) self.new }
    {
        let _count = rules.len();
        let behind = self.read_behind(node, letter);
        let child = trie.children.get(node, letter);
        let end = trie.lefts.get(node, letter).or(behind.1);
        self.targets
            .put(node, letter, Some(child.unwrap_or(behind.0)));
        self.ends.put_number(node, letter, end);
        set_link(&mut self.links, child, behind.0);
    }

    // The entries of a state.
    fn link_row(&mut self, rules: &Rules, trie: &Trie, node: usize)
        requires few { trie.now.letters ≤ 256 }
        requires over { AreOver trie.now.letters rules.now }
        requires tree { IsTreeOf rules.now trie.now }
        requires node { node < length trie.now.prefixes.items }
        requires linked { AreLinkedTo rules.now trie.now node 0 self.old }
        ensures { AreLinkedTo rules.now trie.now (node + 1) 0 self.new }
    {
        for letter in 0..trie.letters {
            self.link_entry(rules, trie, node, Letter::new(letter as u8));
        }
    }
}

/// The tables of the tree, the shorter states first. Refused only where memory is wanting.
pub fn tables_of(alloc: Global, rules: &Rules, trie: &Trie) -> Result<Tables, NoMemory>
    requires few { trie.now.letters ≤ 256 }
    requires over { AreOver trie.now.letters rules.now }
    requires tree { IsTreeOf rules.now trie.now }
    ensures { IfOk result (AreFilled rules.now trie.now) }
{
    let states = trie.prefixes.len();
    let mut tables = Tables {
        targets: Cells::of(alloc, states, trie.letters)?,
        ends: Cells::of(alloc, states, trie.letters)?,
        links: noughts(alloc, states)?,
    };
    for node in 0..states {
        tables.link_row(rules, trie, node);
    }
    Ok(tables)
}
