// Where letters stand in relations.
use ports::NoMemory;
use presentation::{Pairs, Presentation};
use std::alloc::Global;
use std::cmp::min;
use words::Word;

// So many letters behind two places are compared at most.
const COMPARED: usize = 64;

/// A place of a side of a relation.
#[derive(Clone, Copy)]
pub struct Place {
    /// The number of the relation.
    pub relation: usize,
    /// Whether the side is the second one.
    pub second: bool,
    /// How many letters of the side stand before.
    pub before: usize,
    /// How many letters stand behind.
    pub behind: usize,
    /// So many letters behind are those behind the last place before it in its list that is not
    /// covered.
    pub shared: usize,
}

impl Place {
    /// Whether it is known without reading that all letters behind but for the last lead on, or the
    /// letters behind are the first ones behind an earlier place in the list.
    pub fn is_covered(&self) -> bool {
        self.behind <= 1 || self.shared == self.behind
    }
}

/// The places of the sides of relations, in lists by the letters that stand there, and the
/// relations that have at most one letter. They say where to read, and no contract says which they
/// are.
#[derive(Drop)]
pub struct Places {
    lists: Vec<Vec<Place>>,
    short: Vec<usize>,
}

// So many lists without a place. Refused only where memory is wanting.
fn empty_lists(alloc: Global, count: usize) -> Result<Vec<Vec<Place>>, NoMemory> {
    let mut lists = Vec::new(alloc);
    for _ in 0..count {
        lists.push(Vec::new(alloc))?;
    }
    Ok(lists)
}

// The side of the place.
fn side_at<'a>(relations: &'a Pairs, place: &Place) -> Option<&'a Word> {
    if relations.len() <= place.relation {
        return None;
    }
    let pair = relations.pair(place.relation);
    if place.second {
        Some(&pair.1)
    } else {
        Some(&pair.0)
    }
}

// How many letters, up to a limit, are the same in both words from these places on.
fn common(left: &Word, first: usize, right: &Word, second: usize) -> usize {
    for count in 0..COMPARED {
        let (i, j) = (first.saturating_add(count), second.saturating_add(count));
        if left.len() <= i || right.len() <= j || left.letter(i) != right.letter(j) {
            return count;
        }
    }
    COMPARED
}

// How many letters behind the place are those behind the last one of the list that is not covered.
fn shared_with(list: &[Place], relations: &Pairs, side: &Word, before: usize) -> usize {
    for place in list.iter().rev() {
        if place.is_covered() {
            continue;
        }
        return match side_at(relations, place) {
            Some(last) => common(
                last,
                place.before.saturating_add(1),
                side,
                before.saturating_add(1),
            ),
            None => 0,
        };
    }
    0
}

// Puts each place of a side into the list of its letter. Refused only where memory is wanting.
fn note_side(
    lists: &mut Vec<Vec<Place>>,
    relations: &Pairs,
    relation: usize,
    second: bool,
    side: &Word,
) -> Result<(), NoMemory> {
    for before in 0..side.len() {
        let letter = side.letter(before).number();
        if letter < lists.len() {
            let shared = shared_with(lists[letter].as_slice(), relations, side, before);
            lists[letter].push(Place {
                relation,
                second,
                before,
                behind: side.len() - 1 - before,
                shared,
            })?;
        }
    }
    Ok(())
}

impl Places {
    /// The places of all sides of the relations. Refused only where memory is wanting.
    pub fn new(alloc: Global, presentation: &Presentation) -> Result<Places, NoMemory> {
        let mut lists = empty_lists(alloc, presentation.letters())?;
        let mut short = Vec::new(alloc);
        let relations = presentation.relations();
        for relation in 0..relations.len() {
            let pair = relations.pair(relation);
            if pair.0.len().saturating_add(pair.1.len()) <= 1 {
                short.push(relation)?;
            }
            note_side(&mut lists, relations, relation, false, &pair.0)?;
            note_side(&mut lists, relations, relation, true, &pair.1)?;
        }
        Ok(Places { lists, short })
    }

    /// The places at which the letter of this number stands.
    pub fn of(&self, letter: usize) -> &[Place] {
        if letter < self.lists.len() {
            self.lists[letter].as_slice()
        } else {
            &[]
        }
    }

    /// The numbers of the relations that have at most one letter, which alone can lead from a node
    /// without edges.
    pub fn short(&self) -> &[usize] {
        self.short.as_slice()
    }
}
