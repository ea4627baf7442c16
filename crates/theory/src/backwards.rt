// The classes of left congruences, read backwards along a graph.
ghost use Rattle.std.specs.Prelude.{ℕ, ◌≡◌, ◌<◌, ◌↔◌, List, ◌∷◌, Contains, Some, None, reverse, length};
ghost use Rattle.theory.specs.Word.{Word, IsOver, IsElement};
ghost use Rattle.theory.specs.ShortLex.{◌≺◌};
ghost use Rattle.theory.specs.Congruence.{Presentation, Congruence, IsWellFormed, read_backwards};
ghost use Rattle.theory.specs.Chain.{Related};
ghost use Rattle.theory.specs.declared.Kind.TheVariants.{Left};
ghost use Rattle.theory.specs.Class.{SameClass, IsNormal, IsClassList};
ghost use Rattle.theory.specs.Listing.{IsAscending};
ghost use Rattle.theory.specs.Graph.{Graph, target, path, SameEnd, IsGraph};
ghost use Rattle.theory.specs.Backwards.{IsLeastBackwards, AreWordsBackwards, DecidesBackwards};

/// Words of nodes are the least that, read backwards, lead there exactly where no edge leads to a
/// node with a greater word. A least word without its first letter is least too.
pub fn words_backwards_are_least()
    ensures least { (k : ℕ) (g : Graph) (word : ℕ → Word) → IsGraph k g → AreWordsBackwards k g word
        → (node : ℕ) → node < length g → IsLeastBackwards k g node (word node) }
    ensures edges { (k : ℕ) (g : Graph) (word : ℕ → Word) → IsGraph k g
        → ((node : ℕ) → node < length g → IsLeastBackwards k g node (word node))
        → AreWordsBackwards k g word }
    ensures tail { (k : ℕ) (g : Graph) (node a : ℕ) (w : Word) → IsLeastBackwards k g node (a ∷ w)
        → (m : ℕ) × (target g m a ≡ Some node) × IsLeastBackwards k g m w }
{}

/// The normal forms of a left congruence that a graph decides are these words, and those of all
/// nodes to which elements lead, in order, are its class list.
pub fn left_classes_are_read_backwards()
    ensures normal { (c : Congruence) → IsWellFormed c → (g : Graph) → DecidesBackwards g c
        → (u w : Word) (node : ℕ)
        → IsElement c.presentation.is_monoid c.presentation.letters u
        → path g 0 (reverse u) ≡ Some node
        → IsLeastBackwards c.presentation.letters g node w → IsNormal (SameClass c) u w }
    ensures list { (c : Congruence) → IsWellFormed c → (g : Graph) → DecidesBackwards g c
        → (words : List Word)
        → IsAscending ◌≺◌ None words
        → ((w : Word) → Contains words w
        → IsElement c.presentation.is_monoid c.presentation.letters w × (node : ℕ)
        × IsLeastBackwards c.presentation.letters g node w)
        → ((u : Word) (node : ℕ) → IsElement c.presentation.is_monoid c.presentation.letters u
        → path g 0 (reverse u) ≡ Some node
        → (w : Word) × Contains words w × IsLeastBackwards c.presentation.letters g node w)
        → IsClassList (SameClass c) words }
    ensures decides { (p : Presentation) (pairs : List (Word × Word)) (g : Graph)
        → let c : Congruence = record { presentation = p; kind = Left; pairs = pairs } in
        ((u v : Word) → IsOver p.letters u → Related (read_backwards c) u v ↔ SameEnd g u v)
        → DecidesBackwards g c }
{}
