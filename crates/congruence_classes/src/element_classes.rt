// A list of classes from the tables of elements.
ghost use Rattle.std.specs.Prelude.{◌≡◌, ◌<◌, ◌≤◌, length, false, IfOk, IfSome};
ghost use Rattle.froidure_pin.specs.Found.{word_or_none};
ghost use Rattle.problem.specs.Problem.{is_presented};
ghost use Rattle.congruence_classes.specs.ClassLists.{IsSolutionFor};
ghost use Rattle.congruence_classes.specs.ElementLists.{AreClassesFor, element_list, element_word};

use crate::listing::ListedClasses;
use cayley::{Classes, number_of};
use froidure_pin::CayleyTables;
use ports::NoMemory;
use problem::Problem;
use std::alloc::Global;
use std::marker::Model;
use words::{Letter, Word};

/// The classes of elements by tables that others hold: the words of their least numbers, in order,
/// behind the empty word of the root, and the place of the class of each number (Froidure and Pin
/// 1997; libsemigroups, `Congruence` over a `FroidurePin`).
#[derive(Drop)]
pub struct ElementClasses<'a> {
    alloc: Global,
    tables: &'a CayleyTables,
    roots: &'a [usize],
    places: &'a [usize],
}

impl<'a> Model for ElementClasses<'a> {
    ghost use Rattle.congruence_classes.specs.ElementLists.{HasPlaces, PlacedTables};

    ghost Value = { PlacedTables };

    ghost view = { λ s. record {
      tables = s.tables.now;
      roots = s.roots.now;
      places = s.places.now;
    } };

    ghost invariant = { λ s. HasPlaces (record {
      tables = s.tables.now;
      roots = s.roots.now;
      places = s.places.now;
    }) };
}

impl<'a> ElementClasses<'a> {
    /// The classes of the elements of the problem, whose tables and classes these are.
    pub fn new(
        alloc: Global,
        problem: &Problem,
        tables: &'a CayleyTables,
        classes: &'a Classes,
    ) -> ElementClasses<'a>
        requires { AreClassesFor problem.now tables.now classes.now }
        ensures { IsSolutionFor problem.now (element_list result) }
    {
        let (roots, places) = classes.placed();
        ElementClasses {
            alloc,
            tables,
            roots,
            places,
        }
    }

    // The number whose word a place has, or `None` for the empty word.
    fn number(&self, place: usize) -> Option<usize>
        requires { place ≤ length self.now.roots }
        ensures within { IfSome result (λ number. number < length self.now.tables.words) }
        ensures word { word_or_none self.now.tables.words result
            ≡ element_word self.now.tables self.now.roots place }
    {
        if place == 0 {
            None
        } else {
            Some(self.roots[place - 1])
        }
    }
}

impl<'a> ListedClasses for ElementClasses<'a> {
    ghost use Rattle.congruence_classes.specs.ElementLists.{element_list};

    ghost list = { element_list };

    /// How many letters there are.
    fn letters(&self) -> usize {
        self.tables.letters.as_slice().len()
    }

    /// How many words there are: one more than classes.
    fn count(&self) -> usize {
        self.roots.len() + 1
    }

    /// The word of a place. Refused only where memory is wanting.
    fn word(&self, place: usize) -> Result<Word, NoMemory> {
        if place == 0 {
            return Ok(Word::new(self.alloc));
        }
        self.tables.words.word(self.roots[place - 1])
    }

    /// The place of the class of a word.
    fn place(&self, word: &Word) -> Result<usize, NoMemory> {
        if word.is_empty() {
            return Ok(0);
        }
        Ok(self.places[number_of(self.tables, word)] + 1)
    }

    /// The place of the class of the word of a place with the letter behind it, by the right graph.
    fn step(&self, place: usize, letter: Letter) -> Result<usize, NoMemory> {
        let number = match self.number(place) {
            Some(number) => self.tables.right.at(number, letter.number()),
            None => self.tables.letters.as_slice()[letter.number()],
        };
        Ok(self.places[number] + 1)
    }

    /// Whether the word of the target is that of the place with the letter behind it.
    fn goes_on(&self, place: usize, letter: Letter, target: usize) -> bool {
        let Some(number) = self.number(target) else {
            return false;
        };
        let (prefix, last) = self.tables.words.factors(number);
        last == letter && prefix == self.number(place)
    }
}

/// A problem that is given by generators. Its classes are read from the tables of its elements.
#[derive(Drop)]
pub struct GeneratedProblem {
    alloc: Global,
    problem: Problem,
}

impl Model for GeneratedProblem {
    ghost use Rattle.std.specs.Prelude.{◌≡◌, false};
    ghost use Rattle.problem.specs.declared.kinds.Problem.{Problem as Posed};
    ghost use Rattle.problem.specs.Problem.{is_presented};

    ghost Value = { Posed };

    ghost view = { λ s. s.problem };

    ghost invariant = { λ s. is_presented s.problem ≡ false };
}

impl GeneratedProblem {
    /// The problem in memory of its own. Refused only where memory is wanting.
    pub fn new(alloc: Global, problem: &Problem) -> Result<GeneratedProblem, NoMemory>
        requires { is_presented problem.now ≡ false }
        ensures { IfOk result (λ s. s ≡ problem.now) }
    {
        Ok(GeneratedProblem {
            alloc,
            problem: problem.copy(alloc)?,
        })
    }

    /// The allocator of its words.
    pub fn alloc(&self) -> Global {
        self.alloc
    }

    /// The problem.
    pub fn problem(&self) -> &Problem
        ensures is { result.now ≡ self.now }
        ensures generated { is_presented self.now ≡ false }
    {
        &self.problem
    }
}
