//! What the classes and the idempotents of numbers say of elements.
ghost use Rattle.std.specs.Prelude.{◌≡◌, ℕ, ◌<◌, ◌↔◌, List, Contains, false, length, None};
ghost use Rattle.theory.specs.Green.{AreClasses, IsIdempotent};
ghost use Rattle.theory.specs.Listing.{IsListOf};
ghost use Rattle.theory.specs.Word.{Word, IsElement};
ghost use Rattle.elements.specs.Generators.{HaveOneShape, value_by};
ghost use Rattle.froidure_pin.specs.declared.tables.CayleyTables.{CayleyTables};
ghost use Rattle.cayley.specs.Tables.{FitTogether, number_in};
ghost use Rattle.cayley.specs.Whole.{AreTablesOf};
ghost use Rattle.green.specs.Related.{AreOfLetters, AreRelated, DoAgree, DoCommute, IsIdempotentAt};
ghost use Rattle.green.specs.Told.{IsGreen, StandTogether};
ghost use Rattle.theory.specs.declared.Relation.{Relation};
ghost use Rattle.theory.specs.declared.Relation.TheVariants.{R, L, J};

use theory::values::Values;

/// The tables of generators fit together, their words are words of the letters, a letter on the
/// left and one on the right may be multiplied in either order, and words lead to the product of
/// two numbers in either graph.
pub fn tables_serve<V: Values>()
    ensures fit { (generators : List V) (unused : V) (tables : CayleyTables)
        → AreTablesOf V.product V.eq generators unused tables → FitTogether tables }
    ensures words { (generators : List V) (unused : V) (tables : CayleyTables)
        → AreTablesOf V.product V.eq generators unused tables → AreOfLetters tables }
    ensures commute { (generators : List V) (unused : V) → HaveOneShape V.shape generators
        → (tables : CayleyTables) → AreTablesOf V.product V.eq generators unused tables
        → DoCommute tables }
    ensures agree { (generators : List V) (unused : V) → HaveOneShape V.shape generators
        → (tables : CayleyTables) → AreTablesOf V.product V.eq generators unused tables
        → DoAgree tables }
{}

/// In a finite semigroup two elements are related by J exactly where some element is related to the
/// one by R and to the other by L (Howie 1995, proposition 2.1.4).
pub fn j_by_r_and_l()
    ensures { (t : CayleyTables) → FitTogether t → DoCommute t → (i j : ℕ)
        → i < length t.words → j < length t.words
        → AreRelated J t i j
        ↔ (m : ℕ) × (m < length t.words) × AreRelated R t i m × AreRelated L t m j }
{}

/// Two elements are related by one of Green's relations exactly where the numbers of words with
/// these values stand in one of its classes.
pub fn green_by_classes<V: Values>()
    ensures { (generators : List V) (unused : V) → HaveOneShape V.shape generators
        → (tables : CayleyTables) → AreTablesOf V.product V.eq generators unused tables
        → (relation : Relation) (classes : List (List ℕ))
        → AreClasses (length tables.words) (AreRelated relation tables) classes
        → (u v : Word)
        → IsElement false (length generators) u → IsElement false (length generators) v
        → IsGreen relation V.product V.eq (length generators)
        (value_by V.product generators unused) (value_by V.product generators unused u)
        (value_by V.product generators unused v)
        ↔ StandTogether classes (number_in tables u) (number_in tables v) }
{}

/// An element is idempotent exactly where the number of a word with this value is listed.
pub fn idempotents_by_numbers<V: Values>()
    ensures { (generators : List V) (unused : V) → HaveOneShape V.shape generators
        → (tables : CayleyTables) → AreTablesOf V.product V.eq generators unused tables
        → (found : List ℕ) → IsListOf (IsIdempotentAt tables) ◌<◌ None found
        → (u : Word) → IsElement false (length generators) u
        → IsIdempotent V.product V.eq (value_by V.product generators unused u)
        ↔ Contains found (number_in tables u) }
{}
