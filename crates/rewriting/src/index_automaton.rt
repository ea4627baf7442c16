// The table of the states of rules: for each state and letter the state that follows, or the rule
// whose left side ends.
ghost use Rattle.std.specs.Prelude.{◌≡◌, ℕ, ◌<◌, ◌≤◌, List, length, Option, IfOk};
ghost use Rattle.theory.specs.Word.{Word as Letters};
ghost use Rattle.theory.specs.Graph.{target as target_of, path as path_of, IsGraph};
ghost use Rattle.rewriting.specs.Rules.{AreFalling, AreOver};
ghost use Rattle.rewriting.specs.Tables.{IsTable, IsTableOf, Moves, edges, move_by};
ghost use Rattle.rewriting.specs.Tries.{Reads, longer, words_of};

use crate::links::tables_of;
use crate::rule_lists::Rules;
use crate::tries::{Prefix, trie_of};
use cells::Cells;
use ports::NoMemory;
use std::alloc::Global;
use std::marker::Model;
use words::{Letter, Word};

/// The index automaton of a list of rules (Sims 1994, 3.5): its states are the empty word and the
/// proper prefixes of left sides, and it has for each state and letter the longest state at their
/// end, and where a left side stands there the number of its rule.
#[derive(Drop)]
pub struct IndexAutomaton {
    letters: usize,
    prefixes: Vec<Prefix>,
    targets: Cells,
    ends: Cells,
}

impl Model for IndexAutomaton {
    ghost use Rattle.rewriting.specs.Tables.{IsTable, Moves};

    ghost Value = { Moves };

    ghost view = { λ t. record {
      letters = t.letters;
      prefixes = t.prefixes.items;
      targets = t.targets;
      ends = t.ends;
    } };

    ghost invariant = { λ t. IsTable (record {
      letters = t.letters;
      prefixes = t.prefixes.items;
      targets = t.targets;
      ends = t.ends;
    }) };
}

// Where an entry leads: nowhere, if a left side ends there.
fn move_by(end: Option<usize>, target: Option<usize>) -> Option<usize>
    ensures { result ≡ move_by end target }
{
    match end {
        None => target,
        Some(_) => None,
    }
}

impl IndexAutomaton {
    /// The table of the rules. Refused only where memory is wanting.
    pub fn of(alloc: Global, letters: usize, rules: &Rules) -> Result<IndexAutomaton, NoMemory>
        requires few { letters ≤ 256 }
        requires over { AreOver letters rules.now }
        ensures { IfOk result (IsTableOf letters rules.now) }
    {
        let trie = trie_of(alloc, letters, rules)?;
        let tables = tables_of(alloc, rules, &trie)?;
        Ok(IndexAutomaton {
            letters: trie.letters,
            prefixes: trie.prefixes,
            targets: tables.targets,
            ends: tables.ends,
        })
    }

    /// How many letters there are. What holds of every table is told here: it has a row for each
    /// state, and as a graph it has as many entries in a row, and each edge leads to a node.
    pub fn letters(&self) -> usize
        ensures letters { result ≡ self.now.letters }
        ensures table { IsTable self.now }
        ensures graph { IsGraph result (edges self.now) }
        ensures few { result ≤ 256 }
    {
        self.letters
    }

    /// How many states there are.
    pub fn nodes(&self) -> usize
        ensures states { result ≡ length self.now.prefixes }
        ensures nodes { result ≡ length (edges self.now) }
        ensures rooted { 0 < result }
    {
        self.prefixes.len()
    }

    /// The longest state at the end of the state and the letter, and a rule whose left side stands
    /// there.
    pub fn read(&self, state: usize, letter: Letter) -> (usize, Option<usize>)
        requires { state < length self.now.prefixes }
        ensures { (k : ℕ) (rules : List (Letters × Letters)) → AreFalling rules
            → IsTableOf k rules self.now → Reads rules (words_of rules self.now.prefixes)
            (longer (words_of rules self.now.prefixes) state letter) result.0 result.1 }
    {
        let target = self.targets.get(state, letter).unwrap_or(0);
        (target, self.ends.get(state, letter))
    }

    /// Where the edge of the letter leads from the node. `None` exactly where there is no such
    /// edge.
    pub fn target(&self, node: usize, letter: Letter) -> Option<usize>
        ensures { result ≡ target_of (edges self.now) node letter }
    {
        move_by(self.ends.get(node, letter), self.targets.get(node, letter))
    }

    /// Where the word leads from the node. `None` exactly where an edge is missing on the way.
    pub fn path_from(&self, node: usize, word: &Word) -> Option<usize>
        ensures { result ≡ path_of (edges self.now) node word.now }
    {
        let mut at = node;
        for i in 0..word.len() {
            match self.target(at, word.letter(i)) {
                None => return None,
                Some(next) => at = next,
            }
        }
        Some(at)
    }

    /// Where the word leads from the root. `None` exactly where an edge is missing on the way.
    pub fn path(&self, word: &Word) -> Option<usize>
        ensures { result ≡ path_of (edges self.now) 0 word.now }
    {
        self.path_from(0, word)
    }
}
