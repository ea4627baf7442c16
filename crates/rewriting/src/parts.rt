// Rules out of which some are taken, and where the others go.
ghost use Rattle.std.specs.Prelude.{◌≡◌, ◌<◌, ◌≤◌, [], ◌∷◌, ◌++◌, cond, length, map, not, None, Some, IfOk, OnOk};
ghost use Rattle.std.specs.List.{filter};
ghost use Rattle.rewriting.specs.Rules.{stands_in};
ghost use Rattle.rewriting.specs.Parts.{AreParts, through};

use crate::factors::has_factor;
use ports::NoMemory;
use std::alloc::Global;
use words::Word;

/// The rules that are kept and those that are gone, the place to which each has gone, and how many
/// of those before a place are kept.
#[derive(Drop)]
pub struct Parts {
    pub kept: Vec<(Word, Word)>,
    pub gone: Vec<(Word, Word)>,
    pub moved: Vec<Option<usize>>,
    pub first: usize,
}

// Puts one rule where it goes.
fn put(parts: &mut Parts, rule: (Word, Word), left: &Word) -> Result<(), NoMemory>
    ensures kept { OnOk result (parts.new.kept.items
        ≡ parts.old.kept.items ++ filter (λ r. not (stands_in left.now r.0)) (rule ∷ [])) }
    ensures gone { OnOk result (parts.new.gone.items
        ≡ parts.old.gone.items ++ filter (λ r. stands_in left.now r.0) (rule ∷ [])) }
    ensures moved { OnOk result (parts.new.moved.items ≡ parts.old.moved.items
        ++ cond (stands_in left.now rule.0) None (Some (length parts.old.kept.items)) ∷ []) }
    ensures first { OnOk result (parts.new.first ≡ parts.old.first) }
{
    if has_factor(&rule.0, left) {
        parts.moved.push(None)?;
        parts.gone.push(rule)?;
    } else {
        parts.moved.push(Some(parts.kept.len()))?;
        parts.kept.push(rule)?;
    }
    Ok(())
}

// How many rules are kept, while no more than so many have been seen, and else the number that is
// given.
fn first_of(parts: &Parts, most: usize) -> usize
    ensures early { length parts.now.moved.items ≤ most → result ≡ length parts.now.kept.items }
    ensures late { most < length parts.now.moved.items → result ≡ parts.now.first }
{
    if parts.moved.len() <= most {
        parts.kept.len()
    } else {
        parts.first
    }
}

/// The rules in whose left sides the word stands are taken out. Of the first rules, so many, it is
/// told how many are kept. Refused only where memory is wanting.
pub fn part(
    alloc: Global,
    rules: Vec<(Word, Word)>,
    left: &Word,
    first: usize,
) -> Result<Parts, NoMemory>
    ensures { IfOk result (AreParts left.now rules.items first) }
{
    let mut parts = Parts {
        kept: Vec::new(alloc),
        gone: Vec::new(alloc),
        moved: Vec::new(alloc),
        first: 0,
    };
    for rule in rules {
        put(&mut parts, rule, left)?;
        parts.first = first_of(&parts, first);
    }
    Ok(parts)
}

// Where the rule at a place has gone, if there is one.
fn through(moved: &[Option<usize>], place: Option<usize>) -> Option<usize>
    ensures { result ≡ through moved.now place }
{
    let place = place?;
    match moved.get(place) {
        Some(to) => *to,
        None => None,
    }
}

/// The places to which the rules at these have gone. Refused only where memory is wanting.
pub fn places_after(
    alloc: Global,
    places: &[Option<usize>],
    moved: &[Option<usize>],
) -> Result<Vec<Option<usize>>, NoMemory>
    ensures { IfOk result (λ after. after.items ≡ map (through moved.now) places.now) }
{
    let mut after = Vec::new(alloc);
    for place in places {
        after.push(through(moved, *place))?;
    }
    Ok(after)
}
