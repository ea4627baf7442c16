// Words, classes and idempotents, by the calls for who asks once.
ghost use Rattle.std.specs.Prelude.{◌≡◌, ◌<◌, ◌≤◌, length, IfOk, IfSome};
ghost use Rattle.elements.specs.Generators.{HaveOneShape};
ghost use Rattle.froidure_pin.specs.Rules.{IsWholeTable};
ghost use Rattle.cayley.specs.Tables.{FitTogether};
ghost use Rattle.green.specs.Related.{AreOfLetters, DoAgree, DoCommute};

use elements::{Element, Field, Transf};
use froidure_pin::{CayleyTables, FroidurePin, Run, Steps, Table, have_one_shape};
use green::{Relation, classes, facts, idempotents};
use ports::NoMemory;
use std::alloc::Global;
use std::marker::Brand;
use std::process::Abort;
use std::sync::ledger::{Blank, Ledger};
use words::{Letter, Word};

const ZERO: Field = Field::Number(0);

const ONE: Field = Field::Number(1);

// The maps a = 1 0 and b = 0 0.
fn maps(rt: &impl Abort, alloc: Global) -> Vec<Transf>
    ensures some { 0 < length result.items }
    ensures few { length result.items ≤ 256 }
    ensures shape { HaveOneShape (λ m. (length m, 0)) result.items }
{
    let swap = Transf::read(alloc, 2, &[ONE, ZERO]).expect(rt, "a map");
    let fold = Transf::read(alloc, 2, &[ZERO, ZERO]).expect(rt, "a map");
    let maps = vec![in alloc; swap, fold].expect(rt, "memory");
    assert!(rt; have_one_shape(&maps));
    maps
}

// The table of generators, by a ledger of its own; none where there are more elements than the
// bound.
fn counted_table<E: Element, L: Ledger>(
    alloc: Global,
    blank: Blank,
    generators: &Vec<E>,
    bound: usize,
) -> Result<Option<Table<E>>, NoMemory>
    requires name { blank.name ≡ L.name }
    requires parts { (blank.parts ≡ L.parts) × (0 < L.parts) }
    requires some { 0 < length generators.now.items }
    requires few { length generators.now.items ≤ 256 }
    requires shape { HaveOneShape E.shape generators.now.items }
    ensures { IfOk result (λ found. IfSome found (λ table. (unused : E)
        → IsWholeTable E.shape E.product E.eq generators.now.items unused table)) }
{
    let mut steps = Steps::<L>::open(blank);
    match FroidurePin::run(alloc, generators, bound, &mut steps)? {
        Run::Over => Ok(None),
        Run::Whole(table) => Ok(Some(table)),
    }
}

// The table of generators; none where there are more elements than the bound.
fn table_of<E: Element>(
    alloc: Global,
    generators: &Vec<E>,
    bound: usize,
) -> Result<Option<Table<E>>, NoMemory>
    requires some { 0 < length generators.now.items }
    requires few { length generators.now.items ≤ 256 }
    requires shape { HaveOneShape E.shape generators.now.items }
    ensures { IfOk result (λ found. IfSome found (λ table. (unused : E)
        → IsWholeTable E.shape E.product E.eq generators.now.items unused table)) }
{
    counted_table::<E, Brand>(alloc, Blank::new(1), generators, bound)
}

// The tables of the semigroup that the maps generate, which has at most 4 elements.
fn tables(alloc: Global, maps: &Vec<Transf>) -> Result<CayleyTables, NoMemory>
    requires some { 0 < length maps.now.items }
    requires few { length maps.now.items ≤ 256 }
    requires shape { HaveOneShape (λ m. (length m, 0)) maps.now.items }
    ensures { IfOk result (λ t. FitTogether t × AreOfLetters t × DoCommute t × DoAgree t) }
{
    facts::tables_serve::<Transf>();
    match table_of(alloc, maps, 4)? {
        Some(table) => Ok(table.tables()?),
        None => Err(NoMemory),
    }
}

// The word of the last of 4 elements.
fn last_word(table: &Table<Transf>) -> Result<Option<Word>, NoMemory> {
    if table.len() == 4 {
        Ok(Some(table.word(3)?))
    } else {
        Ok(None)
    }
}

// The table of the two maps.
fn table(rt: &impl Abort, alloc: Global) -> Table<Transf> {
    let table = table_of(alloc, &maps(rt, alloc), 4).expect(rt, "memory");
    table.expect(rt, "4 elements")
}

#[test]
fn a_table_is_asked_for_a_word(rt: HostRuntime) {
    let word = last_word(&table(&rt, rt.alloc())).expect(&rt, "memory");
    let word = word.expect(&rt, "4 elements");
    assert!(rt; word.letters() == [Letter::new(1), Letter::new(0)].as_slice());
}

// a and aa are related by R, and so are b and ba.
fn count_classes(alloc: Global, tables: &CayleyTables) -> Result<usize, NoMemory>
    requires { FitTogether tables.now × DoCommute tables.now }
{
    Ok(classes(alloc, tables, Relation::R)?.len())
}

// All but a are idempotents.
fn count_idempotents(alloc: Global, tables: &CayleyTables) -> Result<usize, NoMemory>
    requires { FitTogether tables.now × AreOfLetters tables.now × DoCommute tables.now
        × DoAgree tables.now }
{
    Ok(idempotents(alloc, tables)?.len())
}

#[test]
fn tables_are_asked_once(rt: HostRuntime) {
    let maps = maps(&rt, rt.alloc());
    let tables = tables(rt.alloc(), &maps).expect(&rt, "memory");
    assert!(rt; count_classes(rt.alloc(), &tables) == Ok(2));
    assert!(rt; count_idempotents(rt.alloc(), &tables) == Ok(3));
}
