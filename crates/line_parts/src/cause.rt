// The causes of refusal.
ghost use Rattle.std.specs.Prelude.{◌≡◌};
ghost use Rattle.line_parts.specs.Causes.{cause_text, number_of_cause};

/// Why a line of a script is refused. Each cause has a number and a text of its own.
#[derive(Clone, Copy)]
pub enum Cause {
    /// The script ends without a header.
    HeaderMissing = 1,
    /// The first line begins with no header's name.
    UnknownHeader = 2,
    /// The line has not as many tokens as its form asks for.
    WrongNumberOfWords = 3,
    /// A token in a number's place is no number, or out of range.
    BadNumber = 4,
    /// A generator's name, a byte in the place of the header's letters, or a token in the place of
    /// a letter is no letter of the version.
    NotALetter = 5,
    /// A generator's name, or a letter of the header, came before.
    RepeatedLetter = 6,
    /// The line is of no form that the script's kind has: its first token is no name of such a
    /// line, and it is no generator line.
    UnknownLine = 7,
    /// A generator, a relation, a role of letters or a pair stands after a query, or one of the
    /// first three after a pair.
    LineOutOfOrder = 8,
    /// In a script of generators a pair or a query stands before any, or the script ends without
    /// one.
    NoGenerator = 9,
    /// A generator has not as many entries as it should.
    WrongNumberOfEntries = 10,
    /// An entry is out of form, or out of range.
    BadEntry = 11,
    /// A partial permutation has an image twice.
    NotInjective = 12,
    /// A word has a byte that is no letter of the script, or a letter that gets a role is none.
    NotInAlphabet = 13,
    /// A word has too many letters.
    WordTooLong = 14,
    /// A word is empty, and the script poses no monoid.
    EmptyWord = 15,
    /// There would be more than 4,096 relations after the line.
    TooManyRelations = 16,
    /// There are 4,096 pairs before this one.
    TooManyPairs = 17,
    /// A pair is of another kind than the first one.
    MixedKinds = 18,
    /// The rules or a chain are asked for, and the script has right or left pairs; or the Cayley
    /// graphs, the classes of one of Green's relations, the idempotents, tables of low index, a
    /// meet or a join are, and it has pairs.
    QueryNotAllowed = 19,
    /// A table is out of form, not standard, or of too many classes, or one of its edges leads into
    /// the root, and the script poses no monoid.
    BadTable = 20,
    /// The token in the place of `after` is another.
    AfterExpected = 21,
    /// The number of the version is neither 1 nor 2.
    UnknownVersion = 22,
    /// A word of version 2 is of no such form.
    BadPower = 23,
    /// The token in the place of one of Green's relations is none of `r`, `l`, `h` and `j`.
    UnknownRelation = 24,
    /// From some node of a table the two sides of a relation lead to different nodes.
    TableBreaksRelation = 25,
}

impl Cause {
    /// The number of the cause.
    pub fn number(self) -> u8
        ensures { result ≡ number_of_cause self }
    {
        self as u8
    }
}

/// The text of the cause of this number, as it is printed; no byte where there is no such cause.
pub fn cause_text(number: u8) -> &'static [u8]
    ensures { result.now ≡ cause_text number }
{
    match number {
        1 => b"header missing",
        2 => b"unknown header",
        3 => b"wrong number of words",
        4 => b"bad number",
        5 => b"not a letter",
        6 => b"repeated letter",
        7 => b"unknown line",
        8 => b"line out of order",
        9 => b"no generator",
        10 => b"wrong number of entries",
        11 => b"bad entry",
        12 => b"not injective",
        13 => b"letter not in alphabet",
        14 => b"word too long",
        15 => b"empty word not allowed",
        16 => b"too many relations",
        17 => b"too many pairs",
        18 => b"mixed kinds of pairs",
        19 => b"query not allowed with pairs",
        20 => b"bad table",
        21 => b"after expected",
        22 => b"unknown version",
        23 => b"bad power",
        24 => b"unknown relation",
        25 => b"table breaks a relation",
        _ => b"",
    }
}
