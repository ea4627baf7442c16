// Paths by the first targets of a table.
ghost use Rattle.std.specs.Prelude.{◌≡◌, ℕ, ◌+◌, ◌*◌, ◌<◌, ◌≤◌, ◌↔◌, List, length, All, IsTrue, slice_get, Contains};
ghost use Rattle.theory.specs.Word.{Word as Letters, IsOver};
ghost use Rattle.presentation.specs.Presented.{IsPresented};
ghost use Rattle.word_graph.specs.Numbered.{max_from};
ghost use Rattle.sims_one.specs.Targets.{path_in, Agree, IsSound};

use crate::indexed::Indexed;
use presentation::Pairs;
use words::{Letter, Word};

/// The most nodes of a table.
pub const MOST_NODES: usize = 17;

/// The greatest of the targets; the root where there is none.
pub fn greatest(targets: &[usize]) -> usize
    ensures { result ≡ max_from 0 targets.now }
{
    let mut greatest = 0;
    for target in targets {
        greatest = greatest.max(*target);
    }
    greatest
}

// Where the edge of the letter leads from the node, in tables of so many letters. `None` where its
// target is wanting.
fn target_at(letters: usize, targets: &[usize], node: usize, letter: Letter) -> Option<usize>
    requires node { node < MOST_NODES }
    requires letters { letters ≤ 53 }
    requires letter { letter < letters }
    ensures { result ≡ slice_get targets.now (node * letters + letter) }
{
    targets.get(node * letters + letter.number()).copied()
}

// Where the word leads from the node. `None` where a target on the way is wanting.
fn path_in(letters: usize, targets: &[usize], node: usize, word: &Word) -> Option<usize>
    requires node { node < MOST_NODES }
    requires letters { letters ≤ 53 }
    requires word { IsOver letters word.now }
    requires targets { All (λ m. m < MOST_NODES) targets.now }
    ensures { result ≡ path_in letters targets.now node word.now }
{
    let mut at = node;
    for i in 0..word.len() {
        match target_at(letters, targets, at, word.letter(i)) {
            None => return None,
            Some(next) => at = next,
        }
    }
    Some(at)
}

// Whether both words lead from the node to one, unless a target is wanting.
fn agree(letters: usize, targets: &[usize], node: usize, r: &Word, s: &Word) -> bool
    requires node { node < MOST_NODES }
    requires letters { letters ≤ 53 }
    requires left { IsOver letters r.now }
    requires right { IsOver letters s.now }
    requires targets { All (λ m. m < MOST_NODES) targets.now }
    ensures { IsTrue result ↔ Agree letters targets.now node r.now s.now }
{
    let Some(left) = path_in(letters, targets, node, r) else {
        return true;
    };
    let Some(right) = path_in(letters, targets, node, s) else {
        return true;
    };
    left == right
}

// Whether the sides of each pair lead from the node to one, unless a target is wanting.
fn agree_at(letters: usize, targets: &[usize], node: usize, pairs: &Pairs) -> bool
    requires node { node < MOST_NODES }
    requires letters { letters ≤ 53 }
    requires pairs { All (λ p. IsOver letters p.0 × IsOver letters p.1) pairs.now }
    requires targets { All (λ m. m < MOST_NODES) targets.now }
    ensures { IsTrue result ↔ ((r s : Letters) → Contains pairs.now (r, s)
        → Agree letters targets.now node r s) }
{
    for i in 0..pairs.len() {
        let pair = pairs.pair(i);
        if !agree(letters, targets, node, &pair.0, &pair.1) {
            return false;
        }
    }
    true
}

/// Whether the relations hold at the nodes seen, as far as targets are there.
pub fn is_sound(presentation: &Indexed, targets: &[usize]) -> bool
    requires { All (λ m. m < MOST_NODES) targets.now }
    ensures { IsTrue result ↔ IsSound presentation.now.presentation targets.now }
{
    let letters = presentation.letters();
    let relations = presentation.relations();
    for node in 0..greatest(targets) + 1 {
        if !agree_at(letters, targets, node, relations) {
            return false;
        }
    }
    true
}
