// The edges of the Cayley graphs, as maps of numbers.
ghost use Rattle.std.specs.Prelude.{◌≡◌, ◌≢◌, ◌<◌, [], false, length, slice_index_or, IfOk, All};
ghost use Rattle.theory.specs.Word.{IsOver};
ghost use Rattle.theory.specs.Congruence.{AreElements};
ghost use Rattle.congruence_closure.specs.Maps.{AreIn};
ghost use Rattle.cayley.specs.Tables.{FitTogether, edge, number_in};
ghost use Rattle.cayley.specs.Sides.{numbers_of};

use congruence_closure::Maps;
use froidure_pin::{CayleyTables, Rows};
use ports::NoMemory;
use presentation::{Kind, Pairs};
use std::alloc::Global;
use std::marker::Model;
use words::Word;

// To which number an edge leads.
fn target(rows: &Rows, number: usize, letter: usize) -> usize
    requires number { number < length rows.now }
    requires letter { letter < length (slice_index_or rows.now number []) }
    ensures { result ≡ edge rows.now number letter }
{
    rows.at(number, letter)
}

/// The number of the value of a word: from that of its first letter along the right graph. The
/// tables are those of a whole run, or at least fit together. It takes no memory.
pub fn number_of(tables: &CayleyTables, word: &Word) -> usize
    requires fit { FitTogether tables.now }
    requires some { word.now ≢ [] }
    requires over { IsOver (length tables.now.letters) word.now }
    ensures number { result ≡ number_in tables.now word.now }
    ensures within { result < length tables.now.words }
{
    let mut number = tables.letters.as_slice()[word.letter(0).number()];
    for place in 1..word.len() {
        number = target(&tables.right, number, word.letter(place).number());
    }
    number
}

// The numbers of each pair.
pub(crate) fn numbered(
    alloc: Global,
    tables: &CayleyTables,
    pairs: &Pairs,
) -> Result<Vec<(usize, usize)>, NoMemory>
    requires fit { FitTogether tables.now }
    requires elements { AreElements false (length tables.now.letters) pairs.now }
    ensures numbers { IfOk result (λ waiting.
        waiting.items ≡ numbers_of tables.now pairs.now) }
    ensures within { IfOk result (λ waiting.
        All (AreIn (length tables.now.words)) waiting.items) }
{
    let mut waiting = Vec::new(alloc);
    for place in 0..pairs.len() {
        let pair = pairs.pair(place);
        waiting.push((number_of(tables, &pair.0), number_of(tables, &pair.1)))?;
    }
    Ok(waiting)
}

// The edges of each letter in the graphs on the sides of a kind, as maps: those of the right graph
// first. Tables fit together.
#[derive(Drop)]
pub(crate) struct Sides<'a> {
    tables: &'a CayleyTables,
    kind: Kind,
}

impl<'a> Model for Sides<'a> {
    ghost use Rattle.theory.specs.declared.Kind.{Kind};
    ghost use Rattle.froidure_pin.specs.declared.tables.CayleyTables.{CayleyTables};
    ghost use Rattle.cayley.specs.Tables.{FitTogether};

    ghost Value = { CayleyTables × Kind };

    ghost view = { λ s. (s.tables.now, s.kind) };

    ghost invariant = { λ s. FitTogether s.tables.now };
}

impl<'a> Sides<'a> {
    // The edges of these tables on the sides of this kind.
    pub(crate) fn new(tables: &'a CayleyTables, kind: Kind) -> Sides<'a>
        requires { FitTogether tables.now }
        ensures { result ≡ (tables.now, kind) }
    {
        Sides { tables, kind }
    }
}

impl<'a> Maps for Sides<'a> {
    ghost use Rattle.cayley.specs.Sides.{side_maps};

    ghost maps = { λ s. side_maps s.0 s.1 };

    // One for each letter and side.
    fn count(&self) -> usize {
        let letters = self.tables.letters.as_slice().len();
        match self.kind {
            Kind::TwoSided => 2 * letters,
            Kind::Right | Kind::Left => letters,
        }
    }

    // Where the edge leads.
    fn image(&self, number: usize, map: usize) -> usize {
        let letters = self.tables.letters.as_slice().len();
        match self.kind {
            Kind::TwoSided if letters <= map => target(&self.tables.left, number, map - letters),
            Kind::TwoSided | Kind::Right => target(&self.tables.right, number, map),
            Kind::Left => target(&self.tables.left, number, map),
        }
    }
}
