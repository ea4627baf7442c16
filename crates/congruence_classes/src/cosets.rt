// A list of classes from a graph that decides a problem, and the least words of its nodes.
ghost use Rattle.std.specs.Prelude.{◌≡◌, ◌<◌, ◌↔◌, [], ◌∷◌, ◌++◌, length, true, unwrap_or, IfOk, IsTrue, MatchOption};
ghost use Rattle.std.specs.Option.{option_copied};
ghost use Rattle.theory.specs.Word.{IsElement};
ghost use Rattle.theory.specs.ShortLex.{◌≺◌};
ghost use Rattle.theory.specs.Class.{IsLeast, IsNormal, IsRuleList};
ghost use Rattle.theory.specs.Graph.{path};
ghost use Rattle.theory.specs.Listing.{IsLast, IsNext, GoesOnOrEnds};
ghost use Rattle.problem.specs.Problem.{SameClassOf, allows_rules, count_of, has_empty_word};
ghost use Rattle.congruence_classes.specs.Indexes.{IsIndexWithin};
ghost use Rattle.congruence_classes.specs.ClassLists.{IsGraphFor, IsStandardGraphFor, IsSolutionFor, coset_list, reads_backwards, place_of, AreNumberedWords, AreOrderedWords, ArePlaced, ArePlacesOf};

use crate::indexes::Index;
use crate::listing::{ListedClasses, equal_in, index_in, next_in, normal_in, rules_in};
use ports::NoMemory;
use presentation::Kind;
use problem::Problem;
use rewriting::Rules;
use std::alloc::Global;
use std::marker::Model;
use word_graph::WordGraph;
use words::{Letter, Word, shortlex};

/// The least words of the nodes of a graph, in order, and the place of each node in this order. The
/// graph reads words forwards, or backwards.
#[derive(Drop)]
pub struct CosetList {
    alloc: Global,
    letters: usize,
    backwards: bool,
    graph: WordGraph,
    least: Vec<(usize, Word)>,
    places: Vec<usize>,
}

impl Model for CosetList {
    ghost use Rattle.congruence_classes.specs.ClassLists.{CosetTable, AreListed};

    ghost Value = { CosetTable };

    ghost view = { λ s. record {
      letters = s.letters;
      backwards = s.backwards;
      graph = s.graph;
      least = s.least.items;
      places = s.places.items;
    } };

    ghost invariant = { λ s. AreListed s.graph s.places.items s.least.items };
}

/// The classes of a problem by the graph of its cosets (Sims 1994, chapter 5; libsemigroups,
/// `ToddCoxeter`). With left pairs the graph reads words backwards. The empty word counts as a
/// class of a monoid, and is no element of a semigroup.
#[derive(Drop)]
pub struct CosetClasses {
    alloc: Global,
    problem: Problem,
    list: CosetList,
}

impl Model for CosetClasses {
    ghost use Rattle.problem.specs.declared.kinds.Problem.{Problem as Posed};
    ghost use Rattle.congruence_classes.specs.ClassLists.{IsSolutionFor as IsListFor, coset_list as listed_by};

    ghost Value = { Posed };

    ghost view = { λ s. s.problem };

    ghost invariant = { λ s. IsListFor s.problem (listed_by s.list) };
}

/// Each node with the least word that leads to it, as the graph reads words, in the order of these
/// words. The nodes of a standard graph are in the order of the words that are read forwards (Sims
/// 1994, 4.7). Refused only where memory is wanting.
pub fn ordered_words(
    alloc: Global,
    problem: &Problem,
    graph: &WordGraph,
) -> Result<Vec<(usize, Word)>, NoMemory>
    requires { IsStandardGraphFor problem.now graph.now }
    ensures { IfOk result (λ least.
        AreOrderedWords graph.now (reads_backwards problem.now) least.items) }
{
    if !reads_backwards(problem) {
        return graph.least_words(alloc);
    }
    let mut least = numbered(alloc, graph.least_reversed(alloc)?)?;
    least.sort_by(|first, second| shortlex(&first.1, &second.1))?;
    Ok(least)
}

// Each word with its number.
fn numbered(alloc: Global, words: Vec<Word>) -> Result<Vec<(usize, Word)>, NoMemory>
    ensures { IfOk result (λ pairs. AreNumberedWords words.items pairs.items) }
{
    let mut pairs = Vec::new(alloc);
    for word in words {
        pairs.push((pairs.len(), word))?;
    }
    Ok(pairs)
}

// The place of each node in the list of nodes with words.
fn places_of(alloc: Global, least: &[(usize, Word)]) -> Result<Vec<usize>, NoMemory>
    requires { ArePlaced least.now }
    ensures { IfOk result (λ places. ArePlacesOf least.now places.items) }
{
    let mut places = Vec::new(alloc);
    for _ in 0..least.len() {
        places.push(0)?;
    }
    for place in 0..least.len() {
        places[least[place].0] = place;
    }
    Ok(places)
}

// The place of the node to which the word leads, or of the root.
fn place_of(graph: &WordGraph, places: &[usize], word: &Word) -> usize
    requires { unwrap_or (path graph.now 0 word.now) 0 < length places.now }
    ensures { result ≡ place_of graph.now places.now word.now }
{
    places[graph.path(0, word).unwrap_or(0)]
}

// Whether the word is the other with the letter behind it.
fn is_word_with(word: &Word, front: &Word, letter: Letter) -> bool
    ensures { IsTrue result ↔ (word.now ≡ front.now ++ letter ∷ []) }
{
    match word.letters().split_last() {
        Some((last, rest)) => *last == letter && rest == front.letters(),
        None => false,
    }
}

/// Whether the graph of the problem reads words backwards: its pairs are left pairs.
pub fn reads_backwards(problem: &Problem) -> bool
    ensures { result ≡ reads_backwards problem.now }
{
    problem.kind() == Kind::Left && !problem.pairs().is_empty()
}

impl ListedClasses for CosetList {
    ghost use Rattle.congruence_classes.specs.ClassLists.{coset_list};

    ghost list = { coset_list };

    /// How many letters there are.
    fn letters(&self) -> usize {
        self.letters
    }

    /// How many words there are.
    fn count(&self) -> usize {
        self.least.len()
    }

    /// The word of a place. Refused only where memory is wanting.
    fn word(&self, place: usize) -> Result<Word, NoMemory> {
        self.least[place].1.copy(self.alloc)
    }

    /// The place of the node to which the word leads, or of the root. Refused only where memory is
    /// wanting.
    fn place(&self, word: &Word) -> Result<usize, NoMemory> {
        self.place_read(word)
    }

    /// The place of the class of the word of a place with the letter behind it. Refused only where
    /// memory is wanting.
    fn step(&self, place: usize, letter: Letter) -> Result<usize, NoMemory> {
        let mut word = self.word(place)?;
        word.push(letter)?;
        self.place_read(&word)
    }

    /// Whether the word of the target is that of the place with the letter behind it.
    fn goes_on(&self, place: usize, letter: Letter, target: usize) -> bool {
        is_word_with(&self.least[target].1, &self.least[place].1, letter)
    }
}

impl CosetList {
    // The classes that a graph gives whose equal paths are the relation of the elements, with the
    // least words of its nodes, in order.
    fn new(
        alloc: Global,
        problem: &Problem,
        graph: WordGraph,
        least: Vec<(usize, Word)>,
    ) -> Result<CosetList, NoMemory>
        requires graph { IsGraphFor problem.now graph }
        requires words { AreOrderedWords graph (reads_backwards problem.now) least.items }
        ensures { IfOk result (λ list. IsSolutionFor problem.now (coset_list list)) }
    {
        let places = places_of(alloc, least.as_slice())?;
        Ok(CosetList {
            alloc,
            letters: graph.letters(),
            backwards: reads_backwards(problem),
            graph,
            least,
            places,
        })
    }

    // The place of the node to which the word leads, or of the root.
    fn place_read(&self, word: &Word) -> Result<usize, NoMemory>
        ensures { IfOk result (λ place. place ≡ (coset_list self.now).place word.now) }
    {
        let places = self.places.as_slice();
        if !self.backwards {
            return Ok(place_of(&self.graph, places, word));
        }
        let read = word.reversed(self.alloc)?;
        Ok(place_of(&self.graph, places, &read))
    }
}

impl CosetClasses {
    /// The classes that a graph gives whose equal paths are the relation of the elements, with the
    /// least words of its nodes, in order. Refused only where memory is wanting.
    pub fn new(
        alloc: Global,
        problem: &Problem,
        graph: WordGraph,
        least: Vec<(usize, Word)>,
    ) -> Result<CosetClasses, NoMemory>
        requires graph { IsGraphFor problem.now graph }
        requires words { AreOrderedWords graph (reads_backwards problem.now) least.items }
        ensures { IfOk result (λ s. s ≡ problem.now) }
    {
        let list = CosetList::new(alloc, problem, graph, least)?;
        Ok(CosetClasses {
            alloc,
            problem: problem.copy(alloc)?,
            list,
        })
    }

    /// The number of classes, if it is at most the bound. Refused only where memory is wanting.
    pub fn index(&self, bound: usize) -> Result<Index, NoMemory>
        ensures { IfOk result (IsIndexWithin (SameClassOf self.now) bound) }
    {
        Ok(index_in(&self.problem, &self.list, bound))
    }

    /// Whether the two words, which are elements, are of one class. Refused only where memory is
    /// wanting.
    pub fn equal(&self, u: &Word, v: &Word) -> Result<bool, NoMemory>
        requires left { IsElement (has_empty_word self.now) (count_of self.now) u.now }
        requires right { IsElement (has_empty_word self.now) (count_of self.now) v.now }
        ensures { IfOk result (λ same. IsTrue same ↔ SameClassOf self.now u.now v.now) }
    {
        equal_in(&self.problem, &self.list, u, v)
    }

    /// The normal form of the word, which is an element: the least word of its class in short-lex
    /// order. Refused only where memory is wanting.
    pub fn normal(&self, u: &Word) -> Result<Word, NoMemory>
        requires { IsElement (has_empty_word self.now) (count_of self.now) u.now }
        ensures { IfOk result (IsNormal (SameClassOf self.now) u.now) }
    {
        normal_in(&self.problem, &self.list, u)
    }

    /// The first least word of a class after the cursor, or the first at all; `None` where there is
    /// none. The cursor need not be the least word of its class. What holds of every decided
    /// congruence is told here: after each cursor comes a next class, or none. Refused only where
    /// memory is wanting.
    pub fn next_after(&self, after: Option<&Word>) -> Result<Option<Word>, NoMemory>
        ensures goes_on { GoesOnOrEnds (IsLeast (SameClassOf self.now)) ◌≺◌ }
        ensures next { IfOk result (λ next. MatchOption next
            (IsLast (IsLeast (SameClassOf self.now)) ◌≺◌ (option_copied after.entry))
            (IsNext (IsLeast (SameClassOf self.now)) ◌≺◌ (option_copied after.entry))) }
    {
        next_in(&self.problem, &self.list, after)
    }

    /// The reduced rules of a two-sided congruence, in short-lex order of their left sides
    /// (Froidure and Pin 1997). Refused only where memory is wanting.
    pub fn rules(&self) -> Result<Rules, NoMemory>
        requires { allows_rules self.now ≡ true }
        ensures { IfOk result (IsRuleList (SameClassOf self.now)) }
    {
        rules_in(self.alloc, &self.problem, &self.list)
    }
}
