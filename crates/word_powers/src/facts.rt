// What words with powers stand for.
ghost use Rattle.std.specs.Prelude.{◌≡◌, ℕ, Bool, List, Ok};
ghost use Rattle.words.specs.Alphabet.{IsAlphabet};
ghost use Rattle.word_powers.specs.Powers.{IsFaultAt, IsWordText};
ghost use Rattle.words.specs.WordText.{word_of};

/// A text stands for at most one word with powers, so that each refusal of it excludes the others.
pub fn texts_stand_for_one_word()
    ensures { (alphabet text u v : List ℕ) → IsAlphabet alphabet → IsWordText alphabet text u
        → IsWordText alphabet text v → u ≡ v }
{}

/// A word without powers is the same word with powers.
pub fn plain_words_stand_for_themselves()
    ensures { (alphabet text word : List ℕ) (allow_empty : Bool)
        → word_of alphabet allow_empty text ≡ Ok word → IsWordText alphabet text word }
{}

/// A text goes wrong at one place.
pub fn texts_go_wrong_at_one_place()
    ensures { (alphabet text : List ℕ) (p q : ℕ) → IsFaultAt alphabet text p
        → IsFaultAt alphabet text q → p ≡ q }
{}
