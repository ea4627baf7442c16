//! What the tables of a semigroup and the classes of its elements say of words.
ghost use Rattle.std.specs.Prelude.{ℕ, List, false, length};
ghost use Rattle.theory.specs.Congruence.{AreElements};
ghost use Rattle.theory.specs.Word.{Word};
ghost use Rattle.theory.specs.declared.Kind.{Kind};
ghost use Rattle.elements.specs.Generators.{HaveOneShape};
ghost use Rattle.froidure_pin.specs.Found.{IsTableOf};
ghost use Rattle.froidure_pin.specs.Numbering.{TableOf, IsNumbering};
ghost use Rattle.froidure_pin.specs.declared.tables.CayleyTables.{CayleyTables};
ghost use Rattle.cayley.specs.Tables.{AreClasses};
ghost use Rattle.cayley.specs.Whole.{AreReadFrom, AreTablesOf, AreClassesOf};

use elements::Element;

/// What the table of a whole run is read out as are the tables of its generators.
pub fn read_tables<E: Element>()
    ensures { (generators : List E) (unused : E) (table : TableOf E) (tables : CayleyTables)
        → IsTableOf E.product E.eq generators unused table.words table.elements
        → IsNumbering E.product E.eq generators unused table
        → AreReadFrom table tables
        → AreTablesOf E.product E.eq generators unused tables }
{}

/// Classes of numbers are classes of words: with pairs of any kind, a chain joins two words exactly
/// where their numbers have one class. Its steps replace a factor by a word of equal value, or use
/// a pair as its kind allows.
pub fn words_by_classes<E: Element>()
    ensures { (generators : List E) (unused : E) → HaveOneShape E.shape generators
        → (tables : CayleyTables) → AreTablesOf E.product E.eq generators unused tables
        → (kind : Kind) (pairs : List (Word × Word)) → AreElements false (length generators) pairs
        → (classes : List ℕ) → AreClasses tables kind pairs classes
        → AreClassesOf E.product E.eq generators unused kind pairs tables classes }
{}
