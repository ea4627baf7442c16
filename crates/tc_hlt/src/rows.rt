// Tracing words in a table, and the row of a node.
ghost use Rattle.std.specs.Prelude.{◌≡◌, ◌⊎◌, ℕ, suc, ◌+◌, ◌-◌, ◌<◌, ◌≤◌, length, slice_index_or, take, true, false, Some, IfOk, OnOk};
ghost use Rattle.theory.specs.Word.{Word as Letters, IsOver};
ghost use Rattle.theory.specs.Graph.{target as target_of, path as path_of};
ghost use Rattle.theory.specs.Hlt.{IsSide, IsTraced, IsExtension, IsInRow};
ghost use Rattle.coincidence.specs.Holding.{HoldBefore, HoldFrom, MeetAt};
ghost use Rattle.coincidence.specs.Table.{IsTable, IsLive};
ghost use Rattle.tc_hlt.specs.Tracing.{AreSides, AreSidesAny, IsGrown, IsNext, IsAlong, IsAlongBoth, NoDrawing};
ghost use Rattle.tc_hlt.specs.Stage.{IsReady, HasLastRow};

use coincidence::Table;
use ports::NoMemory;
use presentation::{Congruence, Pairs};
use words::{Letter, Word};

// Where the edge of the letter leads from the node. It leads to a new node if it was missing.
fn step(table: &mut Table, node: usize, letter: Letter) -> Result<usize, NoMemory>
    requires table { IsTable table.old }
    requires failed { table.old.failed ≡ false }
    requires node { IsLive table.old node }
    requires letter { letter < table.old.congruence.presentation.letters }
    ensures edge { IfOk result (λ next. target_of table.new.graph node letter ≡ Some next) }
    ensures grown { OnOk result (IsGrown (IsNext letter) NoDrawing table.old table.new node) }
    ensures congruence { table.new.congruence ≡ table.old.congruence }
    ensures table { IsTable table.new }
{
    match table.target(node, letter) {
        Some(next) => Ok(next),
        None => table.define(node, letter),
    }
}

// Where so many letters of the word lead from the node. Edges that are missing on the way are made.
// Only want of memory refuses it.
fn trace_front(table: &mut Table, node: usize, word: &Word, count: usize) -> Result<usize, NoMemory>
    requires table { IsTable table.old }
    requires failed { table.old.failed ≡ false }
    requires node { IsLive table.old node }
    requires over { IsOver table.old.congruence.presentation.letters word.now }
    requires count { count ≤ length word.now }
    ensures end { IfOk result (λ end. path_of table.new.graph node (take count word.now)
        ≡ Some end) }
    ensures grown { OnOk result (IsGrown (IsAlong (take count word.now)) NoDrawing table.old
        table.new node) }
    ensures congruence { table.new.congruence ≡ table.old.congruence }
    ensures table { IsTable table.new }
{
    let mut at = node;
    for i in 0..count {
        at = step(table, at, word.letter(i))?;
    }
    Ok(at)
}

/// Where the word leads from the node. Edges that are missing on the way are made. Only want of
/// memory refuses it.
pub fn trace(table: &mut Table, node: usize, word: &Word) -> Result<usize, NoMemory>
    requires table { IsTable table.old }
    requires failed { table.old.failed ≡ false }
    requires node { IsLive table.old node }
    requires over { IsOver table.old.congruence.presentation.letters word.now }
    ensures end { IfOk result (λ end. path_of table.new.graph node word.now ≡ Some end) }
    ensures grown { OnOk result (IsGrown (IsAlong word.now) NoDrawing table.old table.new node) }
    ensures congruence { table.new.congruence ≡ table.old.congruence }
    ensures table { IsTable table.new }
{
    trace_front(table, node, word, word.len())
}

// How many letters come before the last, if there is one.
fn before_last(side: &Word) -> usize
    ensures { result ≡ length side.now - 1 }
{
    side.len().saturating_sub(1)
}

// Where the side leads from a node from which all but its last letter lead here, if its last edge
// is there.
fn end_of(table: &Table, at: usize, side: &Word) -> Option<usize>
    requires { table.now.failed ≡ false }
    ensures { (node : ℕ)
        → path_of table.now.graph node (take (length side.now - 1) side.now) ≡ Some at
        → result ≡ path_of table.now.graph node side.now }
{
    if side.len() == 0 {
        return Some(at);
    }
    table.target(at, side.letter(before_last(side)))
}

// Where the side leads from a node from which all but its last letter lead here. Its last edge is
// made if it is missing.
fn finish(table: &mut Table, at: usize, side: &Word) -> Result<usize, NoMemory>
    requires table { IsTable table.old }
    requires failed { table.old.failed ≡ false }
    requires at { IsLive table.old at }
    requires over { IsOver table.old.congruence.presentation.letters side.now }
    ensures end { IfOk result (λ end. (node : ℕ)
        → path_of table.old.graph node (take (length side.now - 1) side.now) ≡ Some at
        → path_of table.new.graph node side.now ≡ Some end) }
    ensures grown { OnOk result ((node : ℕ)
        → path_of table.old.graph node (take (length side.now - 1) side.now) ≡ Some at
        → IsGrown (IsAlong side.now) NoDrawing table.old table.new node) }
    ensures congruence { table.new.congruence ≡ table.old.congruence }
    ensures table { IsTable table.new }
{
    if side.len() == 0 {
        return Ok(at);
    }
    let end = step(table, at, side.letter(before_last(side)))?;
    Ok(end)
}

// Draws the last edge of a side, if it is missing, from the node to which all its other letters
// lead to the end of the other side. Tells whether both sides lead to one node then.
fn meet(table: &mut Table, at: usize, side: &Word, end: usize) -> Result<bool, NoMemory>
    requires table { IsTable table.old }
    requires failed { table.old.failed ≡ false }
    requires at { IsLive table.old at }
    requires end { IsLive table.old end }
    requires over { IsOver table.old.congruence.presentation.letters side.now }
    ensures met { IfOk result (λ met. (node : ℕ) (other : Letters) → met ≡ true
        → path_of table.old.graph node (take (length side.now - 1) side.now) ≡ Some at
        → path_of table.old.graph node other ≡ Some end
        → MeetAt table.new.graph node (other, side.now)) }
    ensures grown { OnOk result ((node : ℕ) (other : Letters)
        → path_of table.old.graph node (take (length side.now - 1) side.now) ≡ Some at
        → path_of table.old.graph node other ≡ Some end
        → IsGrown (IsAlong side.now) (AreSides other side.now) table.old table.new node) }
    ensures congruence { table.new.congruence ≡ table.old.congruence }
    ensures table { IsTable table.new }
{
    if side.len() == 0 {
        return Ok(at == end);
    }
    let last = side.letter(before_last(side));
    match table.target(at, last) {
        Some(to) => Ok(to == end),
        None => {
            table.draw(at, last, end)?;
            Ok(true)
        }
    }
}

// Traces both sides of a relation from the node. Where one of them is there but for its last edge,
// this edge is drawn to the end of the other. Tells whether the relation holds there then.
fn trace_both(table: &mut Table, node: usize, first: &Word, second: &Word) -> Result<bool, NoMemory>
    requires table { IsTable table.old }
    requires failed { table.old.failed ≡ false }
    requires node { IsLive table.old node }
    requires first { IsOver table.old.congruence.presentation.letters first.now }
    requires second { IsOver table.old.congruence.presentation.letters second.now }
    ensures met { IfOk result (λ met. met ≡ true
        → MeetAt table.new.graph node (first.now, second.now)) }
    ensures grown { OnOk result (IsGrown (IsAlongBoth first.now second.now)
        (AreSides first.now second.now) table.old table.new node) }
    ensures congruence { table.new.congruence ≡ table.old.congruence }
    ensures table { IsTable table.new }
{
    let at = trace_front(table, node, first, before_last(first))?;
    let other = trace_front(table, node, second, before_last(second))?;
    match end_of(table, other, second) {
        Some(end) => {
            let met = meet(table, at, first, end)?;
            Ok(met)
        }
        None => {
            let end = finish(table, at, first)?;
            let met = meet(table, other, second, end)?;
            Ok(met)
        }
    }
}

// As `trace_both`, of a relation, unless it is known to hold at the node.
fn trace_relation(
    table: &mut Table,
    node: usize,
    pair: &(Word, Word),
    known: bool,
) -> Result<bool, NoMemory>
    requires table { IsTable table.old }
    requires failed { table.old.failed ≡ false }
    requires node { IsLive table.old node }
    requires known { known ≡ true → MeetAt table.old.graph node pair.now }
    requires first { IsOver table.old.congruence.presentation.letters pair.now.0 }
    requires second { IsOver table.old.congruence.presentation.letters pair.now.1 }
    ensures met { IfOk result (λ met. met ≡ true → MeetAt table.new.graph node pair.now) }
    ensures grown { OnOk result (IsGrown (IsAlongBoth pair.now.0 pair.now.1)
        (AreSides pair.now.0 pair.now.1) table.old table.new node) }
    ensures congruence { table.new.congruence ≡ table.old.congruence }
    ensures table { IsTable table.new }
{
    if known {
        return Ok(true);
    }
    let met = trace_both(table, node, &pair.0, &pair.1)?;
    Ok(met)
}

// The next relation, this one or one behind it, that is not known to hold at the node, where it is
// known of those before another.
fn unknown_from(table: &Table, node: usize, number: usize, known: usize) -> usize
    requires node { IsLive table.now node }
    requires known { HoldFrom table.now.congruence.presentation.relations table.now.graph node number
        known }
    ensures { HoldFrom table.now.congruence.presentation.relations table.now.graph node number
        result }
{
    if number < known {
        return known;
    }
    table.next_unknown(node, number)
}

// How many of so many relations, the first ones, are known to hold, if that of the number does.
fn held_with(held: usize, number: usize, count: usize, holds: bool) -> usize
    requires held { held ≤ number }
    requires number { number < count }
    ensures within { result ≤ number + 1 }
    ensures more { (result ≡ held)
        ⊎ ((result ≡ number + 1) × (held ≡ number) × (holds ≡ true)) }
{
    if holds && held == number {
        return number + 1;
    }
    held
}

// Traces both sides of each relation from the node. Tells of how many, the first ones, it is known
// that they hold there then.
fn trace_sides(table: &mut Table, node: usize, pairs: &Pairs) -> Result<usize, NoMemory>
    requires table { IsTable table.old }
    requires failed { table.old.failed ≡ false }
    requires node { IsLive table.old node }
    requires relations { pairs.now ≡ table.old.congruence.presentation.relations }
    requires over { (side : Letters) → IsSide pairs.now side
        → IsOver table.old.congruence.presentation.letters side }
    ensures held { IfOk result (HoldBefore pairs.now table.new.graph node) }
    ensures grown { OnOk result (IsGrown (IsTraced pairs.now) (AreSidesAny pairs.now) table.old
        table.new node) }
    ensures congruence { table.new.congruence ≡ table.old.congruence }
    ensures table { IsTable table.new }
{
    let mut held = 0;
    let mut known = 0;
    for i in 0..pairs.len() {
        known = unknown_from(table, node, i, known);
        let met = trace_relation(table, node, pairs.pair(i), i < known)?;
        held = held_with(held, i, pairs.len(), met);
    }
    Ok(held)
}

// Makes each edge of the node that is missing.
fn define_letters(table: &mut Table, node: usize, letters: usize) -> Result<(), NoMemory>
    requires table { IsTable table.old }
    requires failed { table.old.failed ≡ false }
    requires node { IsLive table.old node }
    requires letters { letters ≡ table.old.congruence.presentation.letters }
    requires few { letters ≤ 256 }
    ensures grown { OnOk result (IsGrown (IsExtension letters) NoDrawing table.old table.new node) }
    ensures congruence { table.new.congruence ≡ table.old.congruence }
    ensures table { IsTable table.new }
{
    for number in 0..letters {
        step(table, node, Letter::new(number as u8))?;
    }
    Ok(())
}

// Defines what the row of the node does. Tells of how many relations, the first ones, it is known
// that they hold there then.
fn trace_row(table: &mut Table, congruence: &Congruence, node: usize) -> Result<usize, NoMemory>
    requires table { IsTable table.old }
    requires failed { table.old.failed ≡ false }
    requires node { IsLive table.old node }
    requires congruence { congruence.now.congruence ≡ table.old.congruence }
    ensures held { IfOk result (HoldBefore table.old.congruence.presentation.relations
        table.new.graph node) }
    ensures grown { OnOk result (IsGrown (IsInRow table.old.congruence)
        (AreSidesAny table.old.congruence.presentation.relations) table.old table.new node) }
    ensures congruence { table.new.congruence ≡ table.old.congruence }
    ensures table { IsTable table.new }
{
    let presentation = congruence.presentation();
    let held = trace_sides(table, node, presentation.relations())?;
    define_letters(table, node, presentation.letters())?;
    Ok(held)
}

/// Makes the row of the node, and draws what follows when relations are read there. Only want of
/// memory refuses it.
pub fn make_row(table: &mut Table, congruence: &Congruence, node: usize) -> Result<(), NoMemory>
    requires table { IsTable table.old }
    requires failed { table.old.failed ≡ false }
    requires node { IsLive table.old node }
    requires congruence { congruence.now.congruence ≡ table.old.congruence }
    ensures row { OnOk result ((made : ℕ) → IsReady table.old made node
        → HasLastRow table.new (suc made)) }
    ensures congruence { table.new.congruence ≡ table.old.congruence }
    ensures table { IsTable table.new }
{
    let held = trace_row(table, congruence, node)?;
    table.mark(node)?;
    table.close_at(node, held)
}
