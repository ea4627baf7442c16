// Tables as tokens.
ghost use Rattle.std.specs.Prelude.{◌≡◌, ◌≤◌, ◌↔◌, IfOk, IfErr, IsTrue, Ok};
ghost use Rattle.theory.specs.Lattice.{HasFreeRoot};
ghost use Rattle.line_parts.specs.Faults.{IsLineFault};
ghost use Rattle.line_parts.specs.Tables.{IsCongruenceTable, IsLowTable, IsTable, both_tables, congruence_table_of, low_table_of, meets_relations, table_of, two_tables};
ghost use Rattle.line_parts.specs.Texts.{texts};

use crate::cause::Cause;
use crate::fault::LineFault;
use crate::line_words::two_tokens;
use ports::NoMemory;
use std::alloc::Global;
use table_texts::read_table;
use word_graph::{MOST_LETTERS, WordGraph};
use words::Word;

// Whether no edge leads into the root.
fn avoids_root(alloc: Global, table: &WordGraph) -> Result<bool, NoMemory>
    ensures { IfOk result (λ avoids. IsTrue avoids ↔ HasFreeRoot table.now) }
{
    let targets = table.targets(alloc)?;
    Ok(!targets.contains(&0))
}

// The standard table over so many letters that the token is; in a semigroup no edge leads into the
// root. Refused where the token is no such table, or for want of memory.
fn table_of(
    alloc: Global,
    is_monoid: bool,
    letters: usize,
    token: &[u8],
) -> Result<WordGraph, LineFault>
    requires { letters ≤ MOST_LETTERS }
    ensures ok { IfOk result (λ g. table_of is_monoid letters token.now ≡ Ok g) }
    ensures table { IfOk result (IsTable is_monoid letters) }
    ensures err { IfErr result (IsLineFault (table_of is_monoid letters token.now)) }
{
    let table = read_table(alloc, letters, token)?;
    if !table.is_standard() {
        return Err(LineFault::refused(Cause::BadTable));
    }
    if !is_monoid && !avoids_root(alloc, &table)? {
        return Err(LineFault::refused(Cause::BadTable));
    }
    Ok(table)
}

/// The standard table over so many letters, of at most so many classes, that the token is: in a
/// semigroup the root is no class, and no edge leads into it. Refused where the token is no such
/// table, or for want of memory.
pub fn low_table_of(
    alloc: Global,
    is_monoid: bool,
    letters: usize,
    classes: usize,
    token: &[u8],
) -> Result<WordGraph, LineFault>
    requires letters { letters ≤ MOST_LETTERS }
    requires classes { classes ≤ 16 }
    ensures ok { IfOk result (λ g. low_table_of is_monoid letters classes token.now ≡ Ok g) }
    ensures low { IfOk result (IsLowTable is_monoid letters classes) }
    ensures err { IfErr result (IsLineFault
        (low_table_of is_monoid letters classes token.now)) }
{
    let table = table_of(alloc, is_monoid, letters, token)?;
    let most = if is_monoid { classes } else { classes + 1 };
    if table.nodes() > most {
        return Err(LineFault::refused(Cause::BadTable));
    }
    Ok(table)
}

// Whether both sides of each relation lead from each node to one node.
fn meets_relations(table: &WordGraph, relations: &[(Word, Word)]) -> bool
    ensures { result ≡ meets_relations relations.now table.now }
{
    for relation in relations {
        if !table.meets_relation(&relation.0, &relation.1) {
            return false;
        }
    }
    true
}

// The standard table over so many letters that the token is, at which the relations hold; in a
// semigroup no edge leads into the root. Refused for a bad table, else for a broken relation, or
// for want of memory.
fn congruence_table_of(
    alloc: Global,
    is_monoid: bool,
    letters: usize,
    relations: &[(Word, Word)],
    token: &[u8],
) -> Result<WordGraph, LineFault>
    requires { letters ≤ MOST_LETTERS }
    ensures ok { IfOk result (λ g. congruence_table_of is_monoid letters relations.now token.now
        ≡ Ok g) }
    ensures table { IfOk result (IsCongruenceTable is_monoid letters relations.now) }
    ensures err { IfErr result (IsLineFault
        (congruence_table_of is_monoid letters relations.now token.now)) }
{
    let table = table_of(alloc, is_monoid, letters, token)?;
    if !meets_relations(&table, relations) {
        return Err(LineFault::refused(Cause::TableBreaksRelation));
    }
    Ok(table)
}

// Two such tables. Refused for the cause of the first one that has a cause, or for want of memory.
fn both_tables(
    alloc: Global,
    is_monoid: bool,
    letters: usize,
    relations: &[(Word, Word)],
    left: &[u8],
    right: &[u8],
) -> Result<(WordGraph, WordGraph), LineFault>
    requires { letters ≤ MOST_LETTERS }
    ensures ok { IfOk result (λ tables. both_tables is_monoid letters relations.now left.now
        right.now ≡ Ok tables) }
    ensures left { IfOk result (λ tables. IsCongruenceTable is_monoid letters relations.now
        tables.0) }
    ensures right { IfOk result (λ tables. IsCongruenceTable is_monoid letters relations.now
        tables.1) }
    ensures err { IfErr result (IsLineFault
        (both_tables is_monoid letters relations.now left.now right.now)) }
{
    let left = congruence_table_of(alloc, is_monoid, letters, relations, left)?;
    let right = congruence_table_of(alloc, is_monoid, letters, relations, right)?;
    Ok((left, right))
}

/// The two such tables that the tokens are.
pub fn two_tables(
    alloc: Global,
    is_monoid: bool,
    letters: usize,
    relations: &[(Word, Word)],
    tokens: &[&[u8]],
) -> Result<(WordGraph, WordGraph), LineFault>
    requires { letters ≤ MOST_LETTERS }
    ensures ok { IfOk result (λ tables. two_tables is_monoid letters relations.now
        (texts tokens.now) ≡ Ok tables) }
    ensures left { IfOk result (λ tables. IsCongruenceTable is_monoid letters relations.now
        tables.0) }
    ensures right { IfOk result (λ tables. IsCongruenceTable is_monoid letters relations.now
        tables.1) }
    ensures err { IfErr result (IsLineFault
        (two_tables is_monoid letters relations.now (texts tokens.now))) }
{
    let (left, right) = two_tokens(tokens)?;
    both_tables(alloc, is_monoid, letters, relations, left, right)
}
