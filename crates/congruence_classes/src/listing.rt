// Answers from a list of the least words of classes.
ghost use Rattle.std.specs.Prelude.{◌≡◌, ◌+◌, ◌<◌, ◌≤◌, ◌↔◌, [], ◌∷◌, ◌++◌, drop, true, IfOk, OnOk, IsTrue, MatchOption, Some};
ghost use Rattle.std.specs.Option.{option_copied};
ghost use Rattle.theory.specs.Word.{IsOver, IsElement};
ghost use Rattle.theory.specs.ShortLex.{◌≺◌};
ghost use Rattle.theory.specs.Class.{IsLeast, IsNormal, IsRuleList};
ghost use Rattle.theory.specs.Listing.{IsLast, IsNext, GoesOnOrEnds};
ghost use Rattle.problem.specs.Problem.{SameClassOf, allows_rules, count_of, has_empty_word};
ghost use Rattle.congruence_classes.specs.Indexes.{IsIndexWithin};
ghost use Rattle.congruence_classes.specs.ClassLists.{IsListing, IsSolutionFor, IsPlaceAfter, first_class};
ghost use Rattle.congruence_classes.specs.ListedRules.{Falls, IsReducedList, IsRuleOf, AreRulesTo, rest_place};

use crate::indexes::Index;
use ports::NoMemory;
use problem::Problem;
use rewriting::Rules;
use std::alloc::Global;
use words::{Letter, Word, shortlex};

/// The least words of classes in order, and the place of the class of a word (Sims 1994, chapter 5;
/// Froidure and Pin 1997). At the first place stands the empty word, which counts as a class of a
/// monoid, and is no element of a semigroup.
pub trait ListedClasses {
    ghost use Rattle.std.specs.Prelude.{◌≡◌, ◌<◌, ◌↔◌, IfOk, IsTrue};
    ghost use Rattle.theory.specs.Word.{IsOver as IsWordOver};
    ghost use Rattle.congruence_classes.specs.ClassLists.{ClassList};
    ghost use Rattle.congruence_classes.specs.ListedRules.{GoesOn, step};

    ghost list: { Self → ClassList };

    /// How many letters there are.
    fn letters(&self) -> usize
        ensures { result ≡ (list self.now).letters };

    /// How many words there are.
    fn count(&self) -> usize
        ensures { result ≡ (list self.now).count };

    /// The word of a place. Refused only where memory is wanting.
    fn word(&self, place: usize) -> Result<Word, NoMemory>
        requires { place < (list self.now).count }
        ensures { IfOk result (λ w. w ≡ (list self.now).word place) };

    /// The place of the class of a word. Refused only where memory is wanting.
    fn place(&self, word: &Word) -> Result<usize, NoMemory>
        requires { IsWordOver (list self.now).letters word.now }
        ensures { IfOk result (λ place. place ≡ (list self.now).place word.now) };

    /// The place of the class of the word of a place with the letter behind it. Refused only where
    /// memory is wanting.
    fn step(&self, place: usize, letter: Letter) -> Result<usize, NoMemory>
        requires place { place < (list self.now).count }
        requires letter { letter < (list self.now).letters }
        ensures { IfOk result (λ target. target ≡ step (list self.now) place letter) };

    /// Whether the word of the target is that of the place with the letter behind it.
    fn goes_on(&self, place: usize, letter: Letter, target: usize) -> bool
        requires place { place < (list self.now).count }
        requires target { target < (list self.now).count }
        ensures { IsTrue result ↔ GoesOn (list self.now) place letter target };
}

// The place of the first class: in a semigroup the root is none.
fn first_class(problem: &Problem) -> usize
    ensures { result ≡ first_class (has_empty_word problem.now) }
{
    if problem.has_empty_word() { 0 } else { 1 }
}

/// The number of classes, if it is at most the bound.
pub fn index_in<L: ListedClasses>(problem: &Problem, classes: &L, bound: usize) -> Index
    requires { IsSolutionFor problem.now (L.list classes.now) }
    ensures { IsIndexWithin (SameClassOf problem.now) bound result }
{
    let count = classes.count() - first_class(problem);
    if count <= bound {
        Index::Finite(count)
    } else {
        Index::Over
    }
}

/// Whether the two words, which are elements, are of one class. Refused only where memory is
/// wanting.
pub fn equal_in<L: ListedClasses>(
    problem: &Problem,
    classes: &L,
    u: &Word,
    v: &Word,
) -> Result<bool, NoMemory>
    requires solution { IsSolutionFor problem.now (L.list classes.now) }
    requires left { IsElement (has_empty_word problem.now) (count_of problem.now) u.now }
    requires right { IsElement (has_empty_word problem.now) (count_of problem.now) v.now }
    ensures { IfOk result (λ same. IsTrue same ↔ SameClassOf problem.now u.now v.now) }
{
    let left = classes.place(u)?;
    let right = classes.place(v)?;
    Ok(left == right)
}

/// The normal form of the word, which is an element: the least word of its class in short-lex
/// order. Refused only where memory is wanting.
pub fn normal_in<L: ListedClasses>(
    problem: &Problem,
    classes: &L,
    u: &Word,
) -> Result<Word, NoMemory>
    requires solution { IsSolutionFor problem.now (L.list classes.now) }
    requires element { IsElement (has_empty_word problem.now) (count_of problem.now) u.now }
    ensures { IfOk result (IsNormal (SameClassOf problem.now) u.now) }
{
    let place = classes.place(u)?;
    classes.word(place)
}

// Whether each letter of the word is one of so many.
fn is_over(letters: usize, word: &Word) -> bool
    ensures { IsTrue result ↔ IsOver letters word.now }
{
    for place in 0..word.len() {
        if word.letter(place).number() >= letters {
            return false;
        }
    }
    true
}

// The place behind that of the cursor, where the cursor is the word of its own place.
fn place_of_next<L: ListedClasses>(
    classes: &L,
    first: usize,
    cursor: &Word,
) -> Result<Option<usize>, NoMemory>
    requires first { first ≤ 1 }
    requires listing { IsListing (L.list classes.now) }
    ensures { IfOk result (λ found. MatchOption found (Unit {0})
        (IsPlaceAfter first (L.list classes.now) (Some cursor.now))) }
{
    if !is_over(classes.letters(), cursor) {
        return Ok(None);
    }
    let _count = classes.count();
    let place = classes.place(cursor)?;
    let word = classes.word(place)?;
    if word.letters() == cursor.letters() {
        Ok(Some(place + 1))
    } else {
        Ok(None)
    }
}

// The first place, from that of the first class on, whose word comes after the cursor.
fn place_behind<L: ListedClasses>(
    classes: &L,
    first: usize,
    cursor: &Word,
) -> Result<usize, NoMemory>
    requires first { first ≤ (L.list classes.now).count }
    requires listing { IsListing (L.list classes.now) }
    ensures { IfOk result (IsPlaceAfter first (L.list classes.now) (Some cursor.now)) }
{
    let mut low = first;
    let mut high = classes.count();
    while low < high {
        let middle = low + (high - low) / 2;
        let word = classes.word(middle)?;
        if shortlex(cursor, &word).is_lt() {
            high = middle;
        } else {
            low = middle + 1;
        }
    }
    Ok(low)
}

// The place of the first class after the cursor, or of the first at all.
fn place_after<L: ListedClasses>(
    classes: &L,
    first: usize,
    after: Option<&Word>,
) -> Result<usize, NoMemory>
    requires small { first ≤ 1 }
    requires first { first ≤ (L.list classes.now).count }
    requires listing { IsListing (L.list classes.now) }
    ensures { IfOk result
        (IsPlaceAfter first (L.list classes.now) (option_copied after.entry)) }
{
    let Some(cursor) = after else {
        return Ok(first);
    };
    match place_of_next(classes, first, cursor)? {
        Some(place) => Ok(place),
        None => place_behind(classes, first, cursor),
    }
}

/// The first least word of a class after the cursor, or the first at all; `None` where there is
/// none. The cursor need not be the least word of its class. After each cursor comes a next class,
/// or none. Refused only where memory is wanting.
pub fn next_in<L: ListedClasses>(
    problem: &Problem,
    classes: &L,
    after: Option<&Word>,
) -> Result<Option<Word>, NoMemory>
    requires { IsSolutionFor problem.now (L.list classes.now) }
    ensures goes_on { GoesOnOrEnds (IsLeast (SameClassOf problem.now)) ◌≺◌ }
    ensures next { IfOk result (λ next. MatchOption next
        (IsLast (IsLeast (SameClassOf problem.now)) ◌≺◌ (option_copied after.entry))
        (IsNext (IsLeast (SameClassOf problem.now)) ◌≺◌ (option_copied after.entry))) }
{
    let place = place_after(classes, first_class(problem), after)?;
    if place < classes.count() {
        let word = classes.word(place)?;
        Ok(Some(word))
    } else {
        Ok(None)
    }
}

// The word without its first letter.
fn rest_of(alloc: Global, word: &Word) -> Result<Word, NoMemory>
    ensures { IfOk result (λ w. w ≡ drop 1 word.now) }
{
    let mut rest = Word::new(alloc);
    for place in 1..word.len() {
        rest.push(word.letter(place))?;
    }
    Ok(rest)
}

// The place of the word of a place without its first letter.
fn rest_place<L: ListedClasses>(alloc: Global, classes: &L, place: usize) -> Result<usize, NoMemory>
    requires listing { IsListing (L.list classes.now) }
    requires place { place < (L.list classes.now).count }
    ensures { IfOk result (λ rest. rest ≡ rest_place (L.list classes.now) place) }
{
    let word = classes.word(place)?;
    let rest = rest_of(alloc, &word)?;
    classes.place(&rest)
}

// The word of the place with the letter behind it.
fn word_on<L: ListedClasses>(classes: &L, place: usize, letter: Letter) -> Result<Word, NoMemory>
    requires { place < (L.list classes.now).count }
    ensures { IfOk result (λ w. w ≡ (L.list classes.now).word place ++ letter ∷ []) }
{
    let mut word = classes.word(place)?;
    word.push(letter)?;
    Ok(word)
}

// Whether the word of the place without its first letter, and with the letter behind it, falls. The
// former has the place `rest`.
fn rest_falls<L: ListedClasses>(
    classes: &L,
    place: usize,
    rest: usize,
    letter: Letter,
) -> Result<bool, NoMemory>
    requires listing { IsListing (L.list classes.now) }
    requires reduced { IsReducedList (L.list classes.now) }
    requires place { place < (L.list classes.now).count }
    requires rest { rest ≡ rest_place (L.list classes.now) place }
    requires letter { letter < (L.list classes.now).letters }
    ensures { IfOk result (λ falls. IsTrue falls ↔
        Falls (L.list classes.now) (drop 1 ((L.list classes.now).word place ++ letter ∷ []))) }
{
    if place == 0 {
        return Ok(false);
    }
    let target = classes.step(rest, letter)?;
    Ok(!classes.goes_on(rest, letter, target))
}

// The rule whose left side is the word of the place with the letter behind it, where there is one:
// the word falls, and what is left of it without its first letter does not. The word of the place
// has, without its first letter, the place `rest`.
fn rule_at<L: ListedClasses>(
    classes: &L,
    place: usize,
    rest: usize,
    letter: Letter,
) -> Result<Option<(Word, Word)>, NoMemory>
    requires listing { IsListing (L.list classes.now) }
    requires reduced { IsReducedList (L.list classes.now) }
    requires place { place < (L.list classes.now).count }
    requires rest { rest ≡ rest_place (L.list classes.now) place }
    requires letter { letter < (L.list classes.now).letters }
    ensures { IfOk result (IsRuleOf (L.list classes.now) place letter) }
{
    let target = classes.step(place, letter)?;
    if classes.goes_on(place, letter, target) {
        return Ok(None);
    }
    if rest_falls(classes, place, rest, letter)? {
        return Ok(None);
    }
    let left = word_on(classes, place, letter)?;
    let right = classes.word(target)?;
    Ok(Some((left, right)))
}

// Puts the rules of the place at the end.
fn add_rules_of<L: ListedClasses>(
    alloc: Global,
    classes: &L,
    place: usize,
    rules: &mut Rules,
) -> Result<(), NoMemory>
    requires listing { IsListing (L.list classes.now) }
    requires reduced { IsReducedList (L.list classes.now) }
    requires letters { (L.list classes.now).letters ≤ 256 }
    requires place { place < (L.list classes.now).count }
    requires rules { AreRulesTo (L.list classes.now) place 0 rules.old }
    ensures { OnOk result (AreRulesTo (L.list classes.now) (place + 1) 0 rules.new) }
{
    let rest = rest_place(alloc, classes, place)?;
    for number in 0..classes.letters() {
        let letter = Letter::new(number as u8);
        if let Some((left, right)) = rule_at(classes, place, rest, letter)? {
            rules.push(left, right)?;
        }
    }
    Ok(())
}

// The rules of all places, in order.
fn all_rules<L: ListedClasses>(alloc: Global, classes: &L) -> Result<Rules, NoMemory>
    requires listing { IsListing (L.list classes.now) }
    requires reduced { IsReducedList (L.list classes.now) }
    requires letters { (L.list classes.now).letters ≤ 256 }
    ensures { IfOk result (AreRulesTo (L.list classes.now) (L.list classes.now).count 0) }
{
    let mut rules = Rules::new(alloc);
    for place in 0..classes.count() {
        add_rules_of(alloc, classes, place, &mut rules)?;
    }
    Ok(rules)
}

/// The reduced rules of a two-sided congruence, in short-lex order of their left sides (Froidure
/// and Pin 1997). Refused only where memory is wanting.
pub fn rules_in<L: ListedClasses>(
    alloc: Global,
    problem: &Problem,
    classes: &L,
) -> Result<Rules, NoMemory>
    requires solution { IsSolutionFor problem.now (L.list classes.now) }
    requires allowed { allows_rules problem.now ≡ true }
    ensures { IfOk result (IsRuleList (SameClassOf problem.now)) }
{
    let _few = problem.alphabet().len();
    all_rules(alloc, classes)
}
