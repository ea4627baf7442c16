// Sets of words, relations on words and on numbers, and things in an order, for laws that hold of
// each.
ghost use Rattle.std.specs.Prelude.{ℕ};
ghost use Rattle.theory.specs.Word.{Word};

/// A set of words.
pub trait Words {
    ghost has: { Word → Type 0 };
}

/// A relation on words.
pub trait Relation {
    ghost relates: { Word → Word → Type 0 };
}

/// A relation on numbers.
pub trait Numbers {
    ghost relates: { ℕ → ℕ → Type 0 };
}

/// Things in an order, some of which have a property.
pub trait Ordered {
    ghost Item: { Type 0 };

    ghost has: { Item → Type 0 };

    ghost less: { Item → Item → Type 0 };
}
