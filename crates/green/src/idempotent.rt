// Idempotents: at most one of each H-class, by Green's theorem (Howie 1995, theorem 2.2.5).
ghost use Rattle.std.specs.Prelude.{◌≡◌, ◌<◌, ◌+◌, length, None, IfOk, MatchOption};
ghost use Rattle.theory.specs.Listing.{IsListOf};
ghost use Rattle.theory.specs.declared.Relation.TheVariants.{L, H};
ghost use Rattle.cayley.specs.Tables.{FitTogether};
ghost use Rattle.green.specs.Idempotents.{AreMarked, IsIdempotentIn, IsMarked};
ghost use Rattle.green.specs.Naming.{AreNames};
ghost use Rattle.green.specs.Related.{AreOfLetters, AreRelated, DoAgree, DoCommute, IsIdempotentAt, product_in};

use froidure_pin::CayleyTables;
use ports::NoMemory;
use std::alloc::Global;

// The product of two numbers, as long as it stays in the L-class of the second one: where the
// letters of the first one's word, the last one first, lead from the second one in the left Cayley
// graph. The names are those of the L-classes.
fn product_in_class(
    tables: &CayleyTables,
    names: &[u32],
    first: usize,
    second: usize,
) -> Option<usize>
    requires fit { FitTogether tables.now }
    requires words { AreOfLetters tables.now }
    requires names { AreNames (length tables.now.words) (AreRelated L tables.now) names.now }
    requires first { first < length tables.now.words }
    requires second { second < length tables.now.words }
    ensures { MatchOption result
        (AreRelated L tables.now second (product_in tables.now first second) → ⊥)
        (λ product. product ≡ product_in tables.now first second) }
{
    let mut at = second;
    let mut rest = Some(first);
    while let Some(place) = rest {
        let (prefix, last) = tables.words.factors(place);
        at = tables.left.at(at, last.number());
        if names[at] != names[second] {
            return None;
        }
        rest = prefix;
    }
    Some(at)
}

// The idempotent in the H-class of a number, if there is one: powers are followed until they come
// back to the number, or leave its L-class.
fn idempotent_in_class(tables: &CayleyTables, names: &[u32], number: usize) -> Option<usize>
    requires fit { FitTogether tables.now }
    requires commute { DoCommute tables.now }
    requires words { AreOfLetters tables.now }
    requires agree { DoAgree tables.now }
    requires names { AreNames (length tables.now.words) (AreRelated L tables.now) names.now }
    requires number { number < length tables.now.words }
    ensures { IsIdempotentIn tables.now number result }
{
    let mut power = number;
    for _ in 0..tables.words.len() {
        let next = product_in_class(tables, names, number, power)?;
        if next == number {
            return Some(power);
        }
        power = next;
    }
    None
}

// Marks the idempotent in the H-class of a number, unless a number of this class was seen before.
fn mark(
    tables: &CayleyTables,
    left: &[u32],
    both: &[u32],
    number: usize,
    seen: &mut Vec<bool>,
    marks: &mut Vec<bool>,
)
    requires fit { FitTogether tables.now }
    requires commute { DoCommute tables.now }
    requires words { AreOfLetters tables.now }
    requires agree { DoAgree tables.now }
    requires left { AreNames (length tables.now.words) (AreRelated L tables.now) left.now }
    requires both { AreNames (length tables.now.words) (AreRelated H tables.now) both.now }
    requires number { number < length tables.now.words }
    requires marked { AreMarked tables.now both.now number seen.old.items marks.old.items }
    ensures { AreMarked tables.now both.now (number + 1) seen.new.items marks.new.items }
{
    let name = both[number] as usize;
    if seen[name] {
        return;
    }
    seen[name] = true;
    if let Some(idempotent) = idempotent_in_class(tables, left, number) {
        marks[idempotent] = true;
    }
}

// The numbers that are marked, ascending.
fn marked(alloc: Global, marks: &[bool]) -> Result<Vec<usize>, NoMemory>
    ensures { IfOk result (λ found. IsListOf (IsMarked marks.now) ◌<◌ None found.items) }
{
    let mut found = Vec::new(alloc);
    for number in 0..marks.len() {
        if marks[number] {
            found.push(number)?;
        }
    }
    Ok(found)
}

// The numbers of the idempotents, ascending. The names are those of the L- and of the H-classes,
// and of each H-class the powers of one number are looked at.
pub(crate) fn idempotents(
    alloc: Global,
    tables: &CayleyTables,
    left: &[u32],
    both: &[u32],
) -> Result<Vec<usize>, NoMemory>
    requires fit { FitTogether tables.now }
    requires commute { DoCommute tables.now }
    requires words { AreOfLetters tables.now }
    requires agree { DoAgree tables.now }
    requires left { AreNames (length tables.now.words) (AreRelated L tables.now) left.now }
    requires both { AreNames (length tables.now.words) (AreRelated H tables.now) both.now }
    ensures { IfOk result (λ found.
        IsListOf (IsIdempotentAt tables.now) ◌<◌ None found.items) }
{
    let mut seen = vec![in alloc; false; both.len()]?;
    let mut marks = vec![in alloc; false; tables.words.len()]?;
    for number in 0..tables.words.len() {
        mark(tables, left, both, number, &mut seen, &mut marks);
    }
    marked(alloc, &marks)
}
