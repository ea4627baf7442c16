// Classes of numbers by parents: a number's parent is of its class and not greater, and the least
// number of a class, its root, is its own parent (Tarjan and van Leeuwen 1984).
ghost use Rattle.std.specs.Prelude.{◌≡◌, ℕ, ◌<◌, ◌≤◌, length, slice_index, IfOk, true, false};
ghost use Rattle.std.specs.List.{sum};
ghost use Rattle.congruence_closure.specs.Labels.{AreBelow, AreLabels, HasMerged};

use ports::NoMemory;
use std::alloc::Global;

// Each number a class of its own.
pub(crate) fn singletons(alloc: Global, count: usize) -> Result<Vec<usize>, NoMemory>
    ensures count { IfOk result (λ parents. length parents.items ≡ count) }
    ensures own { IfOk result (λ parents. (i : ℕ) → i < count → slice_index parents.items i ≡ i) }
{
    let mut parents = Vec::new(alloc);
    for number in 0..count {
        parents.push(number)?;
    }
    Ok(parents)
}

// The parent of a number's parent, which becomes its own (path halving).
fn skip_parent(parents: &mut Vec<usize>, number: usize) -> usize
    requires below { AreBelow parents.old.items }
    requires within { number < length parents.old.items }
    ensures parent { result ≡ slice_index parents.old.items (slice_index parents.old.items number) }
    ensures lower { result ≤ slice_index parents.old.items number }
    ensures there { slice_index parents.new.items number ≡ result }
    ensures others { (i : ℕ) → i < number
        → slice_index parents.new.items i ≡ slice_index parents.old.items i }
    ensures count { length parents.new.items ≡ length parents.old.items }
    ensures below { AreBelow parents.new.items }
    ensures sum { sum parents.new.items ≤ sum parents.old.items }
    ensures tops { (i : ℕ) → i < length parents.old.items → slice_index parents.old.items i ≡ i
        → slice_index parents.new.items i ≡ i }
    ensures labels { (label : ℕ → ℕ) → AreLabels label parents.old.items
        → AreLabels label parents.new.items }
{
    let above = parents[parents[number]];
    parents[number] = above;
    above
}

// The least number of a number's class. The way to it becomes shorter.
pub(crate) fn find_root(parents: &mut Vec<usize>, number: usize) -> usize
    requires below { AreBelow parents.old.items }
    requires within { number < length parents.old.items }
    ensures root { (label : ℕ → ℕ) → AreLabels label parents.old.items → result ≡ label number }
    ensures top { slice_index parents.new.items result ≡ result }
    ensures within { result ≤ number }
    ensures count { length parents.new.items ≡ length parents.old.items }
    ensures below { AreBelow parents.new.items }
    ensures sum { sum parents.new.items ≤ sum parents.old.items }
    ensures tops { (i : ℕ) → i < length parents.old.items → slice_index parents.old.items i ≡ i
        → slice_index parents.new.items i ≡ i }
    ensures labels { (label : ℕ → ℕ) → AreLabels label parents.old.items
        → AreLabels label parents.new.items }
{
    let mut at = number;
    while parents[at] != at {
        at = skip_parent(parents, at);
    }
    at
}

// The class of the greater root becomes part of the other one.
fn hang_below(parents: &mut Vec<usize>, low: usize, high: usize)
    requires below { AreBelow parents.old.items }
    requires order { low < high }
    requires within { high < length parents.old.items }
    requires top { slice_index parents.old.items high ≡ high }
    ensures count { length parents.new.items ≡ length parents.old.items }
    ensures below { AreBelow parents.new.items }
    ensures sum { sum parents.new.items < sum parents.old.items }
    ensures merged { (label : ℕ → ℕ) → AreLabels label parents.old.items
        → label low ≡ low → label high ≡ high → HasMerged label parents.new.items low high }
{
    parents[high] = low;
}

// The classes of two roots become one. Answers whether they were two.
fn link(parents: &mut Vec<usize>, first: usize, second: usize) -> bool
    requires below { AreBelow parents.old.items }
    requires first { (first < length parents.old.items)
        × (slice_index parents.old.items first ≡ first) }
    requires second { (second < length parents.old.items)
        × (slice_index parents.old.items second ≡ second) }
    ensures count { length parents.new.items ≡ length parents.old.items }
    ensures below { AreBelow parents.new.items }
    ensures falls { result ≡ true → sum parents.new.items < sum parents.old.items }
    ensures merged { result ≡ true → (label : ℕ → ℕ) → AreLabels label parents.old.items
        → label first ≡ first → label second ≡ second
        → HasMerged label parents.new.items first second }
    ensures same { result ≡ false → (parents.new.items ≡ parents.old.items) × (first ≡ second) }
{
    if first == second {
        return false;
    }
    if first < second {
        hang_below(parents, first, second);
    } else {
        hang_below(parents, second, first);
    }
    true
}

// The classes of two numbers become one. Answers whether they were two.
pub(crate) fn merge(parents: &mut Vec<usize>, left: usize, right: usize) -> bool
    requires below { AreBelow parents.old.items }
    requires left { left < length parents.old.items }
    requires right { right < length parents.old.items }
    ensures count { length parents.new.items ≡ length parents.old.items }
    ensures below { AreBelow parents.new.items }
    ensures falls { result ≡ true → sum parents.new.items < sum parents.old.items }
    ensures stays { sum parents.new.items ≤ sum parents.old.items }
    ensures merged { result ≡ true → (label : ℕ → ℕ) → AreLabels label parents.old.items
        → HasMerged label parents.new.items left right }
    ensures same { result ≡ false → (label : ℕ → ℕ) → AreLabels label parents.old.items
        → AreLabels label parents.new.items × (label left ≡ label right) }
{
    let first = find_root(parents, left);
    let second = find_root(parents, right);
    link(parents, first, second)
}

// Each number's parent becomes the least number of its class.
pub(crate) fn flatten(parents: &mut Vec<usize>)
    requires below { AreBelow parents.old.items }
    ensures count { length parents.new.items ≡ length parents.old.items }
    ensures roots { (label : ℕ → ℕ) → AreLabels label parents.old.items
        → (i : ℕ) → i < length parents.new.items → slice_index parents.new.items i ≡ label i }
{
    for number in 0..parents.len() {
        skip_parent(parents, number);
    }
}
