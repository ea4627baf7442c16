// Lists of the entries of word graphs.
ghost use Rattle.std.specs.Prelude.{◌≡◌, ℕ, ◌<◌, ◌++◌, List, map, length, Option, None, Some, OnOk, All};
ghost use Rattle.std.specs.List.{flat_map};
ghost use Rattle.std.specs.Option.{ForSome, option_to_list};
ghost use Rattle.std.specs.Ordering.{nat_cmp};
ghost use Rattle.std.specs.Cmp.Lexicographic.{slice_cmp};
ghost use Rattle.word_graph.specs.Renumber.{renumber};

use cells::{Entry, NUMBERS_AT_MOST};
use ports::NoMemory;
use std::cmp::Ordering;

/// The place of the node that an edge leads to. `None` where there is no edge, where the node has no
/// place, and past the end of `places`.
pub fn renumber(places: &[Option<usize>], target: Option<usize>) -> Option<usize>
    ensures { result ≡ renumber places.now target }
{
    let node = target?;
    if node < places.len() {
        places[node]
    } else {
        None
    }
}

/// Adds a row at the end of `entries`, of any length, with the place of each node in the node's
/// stead. Each place must be below [`NUMBERS_AT_MOST`], since an entry has four bytes.
///
/// Refused only where memory is wanting, and then the front of the row may have been added.
pub fn push_renumbered(
    entries: &mut Vec<Entry>,
    row: &[Entry],
    places: &[Option<usize>],
) -> Result<(), NoMemory>
    requires { (target : Option ℕ) → ForSome (renumber places.now target)
        (λ place. place < NUMBERS_AT_MOST) }
    ensures { OnOk result (entries.new.items
        ≡ entries.old.items ++ map (renumber places.now) row.now) }
{
    for entry in row {
        entries.push(Entry::new(renumber(places, entry.value())))?;
    }
    Ok(())
}

/// Adds an edge to each of these nodes at the end of `entries`, in order. Each node must be below
/// [`NUMBERS_AT_MOST`], since an entry has four bytes.
///
/// Refused only where memory is wanting, and then the first of them may have been added.
pub fn push_edges(entries: &mut Vec<Entry>, targets: &[usize]) -> Result<(), NoMemory>
    requires { All (λ target. target < NUMBERS_AT_MOST) targets.now }
    ensures { OnOk result (entries.new.items ≡ entries.old.items ++ map Some targets.now) }
{
    for target in targets {
        entries.push(Entry::new(Some(*target)))?;
    }
    Ok(())
}

/// Adds the nodes that edges lead to at the end of `targets`, in order, and nothing for an entry
/// without an edge: at most as many nodes as there are entries.
///
/// Refused only where memory is wanting, and then the first of them may have been added.
pub fn push_targets(targets: &mut Vec<usize>, entries: &[Entry]) -> Result<(), NoMemory>
    ensures { OnOk result (targets.new.items ≡ targets.old.items
        ++ flat_map option_to_list entries.now) }
{
    for entry in entries {
        if let Some(target) = entry.value() {
            targets.push(target)?;
        }
    }
    Ok(())
}

/// How the targets of two lists, of any lengths, compare in the order of dictionaries: the first
/// that differ decide, else the lengths. No clause says so where an entry is no edge.
pub fn compare(entries: &[Entry], others: &[Entry]) -> Ordering
    ensures { (s t : List ℕ) → entries.now ≡ map Some s → others.now ≡ map Some t
        → result ≡ slice_cmp nat_cmp s t }
{
    for place in 0..entries.len().min(others.len()) {
        let order = entries[place].value().cmp(&others[place].value());
        if order != Ordering::Equal {
            return order;
        }
    }
    entries.len().cmp(&others.len())
}
