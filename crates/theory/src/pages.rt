// Pages of what has a property, in a strict order.
ghost use Rattle.std.specs.Prelude.{◌≡◌, ℕ, ◌+◌, ◌<◌, ◌⊎◌, Bool, true, List, ◌∷◌, ◌++◌, Option};
ghost use Rattle.theory.specs.Class.{IsLeast};
ghost use Rattle.theory.specs.Congruence.{Presentation};
ghost use Rattle.theory.specs.Listing.{IsAfter, IsPage, IsStrictOrder, last_of};
ghost use Rattle.theory.specs.LowIndex.{IsLowIndex, TableLess};
ghost use Rattle.theory.specs.ShortLex.{◌≺◌};
ghost use Rattle.theory.specs.TwoSidedTable.{IsTwoSidedLowIndex};

use crate::predicates::{Ordered, Relation};

/// Pages in a strict order: after a cursor there is at most one page of each size; a page, and the
/// page after its last item, join to a page; and a page leaves nothing out, so that what comes
/// after its cursor is in it or comes after its last.
pub fn pages_are_determined<O: Ordered>()
    ensures one { IsStrictOrder O.has O.less
        → (cursor : Option O.Item) (count : ℕ) (xs ys : List O.Item) (m n : Bool)
        → IsPage O.has O.less cursor count xs m → IsPage O.has O.less cursor count ys n
        → (xs ≡ ys) × (m ≡ n) }
    ensures join { IsStrictOrder O.has O.less
        → (cursor : Option O.Item) (m n : ℕ) (xs ys : List O.Item) (more : Bool)
        → IsPage O.has O.less cursor m xs true
        → IsPage O.has O.less (last_of cursor xs) n ys more
        → IsPage O.has O.less cursor (m + n) (xs ++ ys) more }
    ensures full { IsStrictOrder O.has O.less
        → (cursor : Option O.Item) (count : ℕ) (xs : List O.Item) (more : Bool)
        → IsPage O.has O.less cursor count xs more
        → (y : O.Item) → O.has y → IsAfter O.less cursor y
        → ((before after : List O.Item) × (xs ≡ before ++ (y ∷ after)))
        ⊎ IsAfter O.less (last_of cursor xs) y }
{}

/// What pages are made of stands in a strict order: the least words of the classes of whatever
/// relation, and the tables of low index, of which those of two-sided congruences are some, of a
/// presentation with a letter.
pub fn orders_of_pages_are_strict<R: Relation>()
    ensures words { IsStrictOrder (IsLeast R.relates) ◌≺◌ }
    ensures tables { (p : Presentation) (n : ℕ) → 0 < p.letters
        → IsStrictOrder (IsLowIndex p n) TableLess }
    ensures two_sided { (p : Presentation) (n : ℕ) → 0 < p.letters
        → IsStrictOrder (IsTwoSidedLowIndex p n) TableLess }
{}
