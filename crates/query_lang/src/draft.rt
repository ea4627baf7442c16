// Generators that lines give, one after another.
ghost use Rattle.std.specs.Prelude.{◌≡◌, ℕ, ◌==◌, Bool, false, List, [], IfOk, IfErr, Ok, length, map};
ghost use Rattle.problem.specs.Problem.{letters_of};
ghost use Rattle.line_parts.specs.Faults.{IsLineFault};
ghost use Rattle.line_parts.specs.Fields.{field_of};
ghost use Rattle.line_parts.specs.Texts.{texts};
ghost use Rattle.query_lang.specs.Draft.{new_letter_of, start_of, with_one};
ghost use Rattle.query_lang.specs.Generators.{one_more};
ghost use Rattle.query_lang.specs.Header.{none_of};
ghost use Rattle.query_lang.specs.Pairing.{IsPairable};
ghost use Rattle.query_lang.specs.Reading.{with_generator};

use elements::{BMat, Field, MaxPlusTrunc, PPerm, Transf};
use line_parts::{Cause, Generator, LineFault, fields_of, letter_of};
use ports::NoMemory;
use presentation::{Kind, Pairs};
use problem::{Gens, Posed, Problem};
use std::alloc::Global;
use std::marker::Model;
use words::{Alphabet, AlphabetFault};

// Generators of one kind and shape, each with a letter. Contracts see the numbers of the header,
// the bytes of the letters, and the generators.
#[derive(Drop)]
struct Listed<E: Generator> {
    sizes: (u32, u32),
    letters: Vec<u8>,
    generators: Vec<E>,
}

impl<E: Generator> Model for Listed<E> {
    ghost use Rattle.query_lang.specs.Draft.{DraftOf, IsDraft, draft_code, without_pairs};

    ghost Value = { DraftOf E };

    ghost coded = { draft_code E.code };

    ghost view = { λ d. record
        { sizes = d.sizes; posed = without_pairs d.letters.items d.generators.items } };

    ghost invariant = { λ d. IsDraft E.shape
        (E.shape_for d.sizes) d.letters.items d.generators.items };
}

// A letter that is not there yet.
fn new_letter_of(wide: bool, letters: &[u8], name: &[u8]) -> Result<u8, Cause>
    ensures { result ≡ new_letter_of wide letters.now name.now }
{
    let letter = letter_of(wide, name).ok_or(Cause::NotALetter)?;
    if letters.contains(&letter) {
        Err(Cause::RepeatedLetter)
    } else {
        Ok(letter)
    }
}

impl<E: Generator> Listed<E> {
    // No generator yet.
    fn new(alloc: Global, sizes: (u32, u32)) -> Listed<E>
        ensures { result ≡ start_of sizes }
    {
        Listed {
            sizes,
            letters: Vec::new(alloc),
            generators: Vec::new(alloc),
        }
    }

    // The letter and the generator that a line with this name and these entries gives.
    fn generator_of(
        &self,
        alloc: Global,
        wide: bool,
        name: &[u8],
        fields: &[Field],
    ) -> Result<(u8, E), LineFault>
        ensures letter { IfOk result (λ given.
            new_letter_of wide self.now.posed.letters name.now ≡ Ok given.0) }
        ensures generator { IfOk result (λ given.
            E.generator_of self.now.sizes fields.now ≡ Ok given.1) }
        ensures shape { IfOk result (λ given. E.shape given.1 ≡ E.shape_for self.now.sizes) }
        ensures err { IfErr result (IsLineFault
            (with_one E.generator_of wide self.now name.now fields.now)) }
    {
        let letter = new_letter_of(wide, &self.letters, name)?;
        let generator = E::generator(alloc, self.sizes, fields)?;
        Ok((letter, generator))
    }

    // One generator more, of the others' shape, with a letter that is not there yet.
    fn pushed(self, letter: u8, generator: E) -> Result<Listed<E>, NoMemory>
        requires letter { (wide : Bool) × (name : List ℕ)
            × (new_letter_of wide self.posed.letters name ≡ Ok letter) }
        requires shape { E.shape generator ≡ E.shape_for self.sizes }
        ensures sizes { IfOk result (λ next. next.sizes ≡ self.sizes) }
        ensures posed { IfOk result (λ next.
            next.posed ≡ one_more self.posed letter generator) }
    {
        let Listed {
            sizes,
            mut letters,
            mut generators,
        } = self;
        letters.push(letter)?;
        generators.push(generator)?;
        Ok(Listed {
            sizes,
            letters,
            generators,
        })
    }

    // The generator with this name and these entries behind the others.
    fn with_generator(
        self,
        alloc: Global,
        wide: bool,
        name: &[u8],
        fields: &[Field],
    ) -> Result<Listed<E>, LineFault>
        ensures ok { IfOk result (λ next. with_one E.generator_of wide self name.now fields.now
            ≡ Ok next.posed) }
        ensures sizes { IfOk result (λ next. next.sizes ≡ self.sizes) }
        ensures err { IfErr result (IsLineFault
            (with_one E.generator_of wide self name.now fields.now)) }
    {
        let (letter, generator) = self.generator_of(alloc, wide, name, fields)?;
        Ok(self.pushed(letter, generator)?)
    }

    // The generators by their letters, which are an alphabet, since each was new.
    fn posed(self, alloc: Global) -> Result<Posed<E>, NoMemory>
        requires { (length self.posed.letters == 0) ≡ false }
        ensures posed { IfOk result (λ posed. posed ≡ self.posed) }
        ensures unpaired { IfOk result (λ posed. posed.pairs ≡ []) }
    {
        match Alphabet::wide(alloc, &self.letters) {
            Ok(alphabet) => {
                let generators = Gens::from_vec(self.generators);
                let pairs = Pairs::new(alloc);
                Ok(Posed::new(alphabet, generators, Kind::TwoSided, pairs))
            }
            Err(AlphabetFault::NoMemory) => Err(NoMemory),
            Err(_) => unreachable!(),
        }
    }
}

/// The kinds of generators.
#[derive(Clone, Copy)]
pub enum GeneratorKind {
    /// Transformations.
    Transf,
    /// Partial permutations.
    PPerm,
    /// Boolean matrices.
    BMat,
    /// Truncated max-plus matrices.
    MaxPlus,
}

// The generators of a script, so far, by their kind.
#[derive(Drop)]
enum AnyListed {
    Transf(Listed<Transf>),
    PPerm(Listed<PPerm>),
    BMat(Listed<BMat>),
    MaxPlus(Listed<MaxPlusTrunc>),
}

/// The generators of a script, so far. Contracts see the numbers of the header, and what is posed.
#[derive(Drop)]
pub struct Draft {
    listed: AnyListed,
}

impl Model for Draft {
    ghost use Rattle.problem.specs.declared.kinds.Problem.TheVariants as problem;
    ghost use Rattle.query_lang.specs.Header.{Start};
    ghost use Rattle.query_lang.specs.declared.draft.AnyListed.TheVariants as kept;

    ghost Value = { Start };

    ghost view = { λ d. elim d.listed [
      | kept.Transf e ↦ (e.sizes, problem.Transf e.posed)
      | kept.PPerm e ↦ (e.sizes, problem.PPerm e.posed)
      | kept.BMat e ↦ (e.sizes, problem.BMat e.posed)
      | kept.MaxPlus e ↦ (e.sizes, problem.MaxPlus e.posed)
    ] };
}

impl Draft {
    /// No generator yet, of this kind and with these numbers of the header.
    pub fn new(alloc: Global, kind: GeneratorKind, sizes: (u32, u32)) -> Draft
        ensures { result ≡ (sizes, none_of kind) }
    {
        let listed = match kind {
            GeneratorKind::Transf => AnyListed::Transf(Listed::new(alloc, sizes)),
            GeneratorKind::PPerm => AnyListed::PPerm(Listed::new(alloc, sizes)),
            GeneratorKind::BMat => AnyListed::BMat(Listed::new(alloc, sizes)),
            GeneratorKind::MaxPlus => AnyListed::MaxPlus(Listed::new(alloc, sizes)),
        };
        Draft { listed }
    }

    /// The numbers of the header.
    pub fn sizes(&self) -> (u32, u32)
        ensures { result ≡ self.now.0 }
    {
        match &self.listed {
            AnyListed::Transf(draft) => draft.sizes,
            AnyListed::PPerm(draft) => draft.sizes,
            AnyListed::BMat(draft) => draft.sizes,
            AnyListed::MaxPlus(draft) => draft.sizes,
        }
    }

    /// Whether there is no generator yet.
    pub fn is_empty(&self) -> bool
        ensures { result ≡ (length (letters_of self.now.1) == 0) }
    {
        match &self.listed {
            AnyListed::Transf(draft) => draft.letters.is_empty(),
            AnyListed::PPerm(draft) => draft.letters.is_empty(),
            AnyListed::BMat(draft) => draft.letters.is_empty(),
            AnyListed::MaxPlus(draft) => draft.letters.is_empty(),
        }
    }

    // The same, by the entries as they are written.
    fn with_fields(
        self,
        alloc: Global,
        wide: bool,
        name: &[u8],
        fields: &[Field],
    ) -> Result<Draft, LineFault>
        ensures ok { IfOk result (λ next. with_generator wide self name.now fields.now
            ≡ Ok next.1) }
        ensures sizes { IfOk result (λ next. next.0 ≡ self.0) }
        ensures err { IfErr result (IsLineFault (with_generator wide self name.now fields.now)) }
    {
        match self.listed {
            AnyListed::Transf(draft) => {
                let listed = AnyListed::Transf(draft.with_generator(alloc, wide, name, fields)?);
                Ok(Draft { listed })
            }
            AnyListed::PPerm(draft) => {
                let listed = AnyListed::PPerm(draft.with_generator(alloc, wide, name, fields)?);
                Ok(Draft { listed })
            }
            AnyListed::BMat(draft) => {
                let listed = AnyListed::BMat(draft.with_generator(alloc, wide, name, fields)?);
                Ok(Draft { listed })
            }
            AnyListed::MaxPlus(draft) => {
                let listed = AnyListed::MaxPlus(draft.with_generator(alloc, wide, name, fields)?);
                Ok(Draft { listed })
            }
        }
    }

    /// The generator with this name and these entries behind the others; the name is a letter, of
    /// both cases where letters are wide. Refused with the cause of its line, or for want of
    /// memory.
    pub fn with_generator(
        self,
        alloc: Global,
        wide: bool,
        name: &[u8],
        entries: &[&[u8]],
    ) -> Result<Draft, LineFault>
        ensures ok { IfOk result (λ next. with_generator wide self name.now
            (map field_of (texts entries.now)) ≡ Ok next.1) }
        ensures sizes { IfOk result (λ next. next.0 ≡ self.0) }
        ensures err { IfErr result (IsLineFault
            (with_generator wide self name.now (map field_of (texts entries.now)))) }
    {
        match fields_of(alloc, entries) {
            Ok(fields) => self.with_fields(alloc, wide, name, &fields),
            Err(_) => {
                drop(self);
                Err(LineFault::no_memory())
            }
        }
    }

    /// What the generators pose, of which there are some. Only want of memory refuses.
    pub fn problem(self, alloc: Global) -> Result<Problem, NoMemory>
        requires { (length (letters_of self.1) == 0) ≡ false }
        ensures problem { IfOk result (λ problem. problem ≡ self.1) }
        ensures pairable { IfOk result IsPairable }
    {
        match self.listed {
            AnyListed::Transf(draft) => Ok(Problem::Transf(draft.posed(alloc)?)),
            AnyListed::PPerm(draft) => Ok(Problem::PPerm(draft.posed(alloc)?)),
            AnyListed::BMat(draft) => Ok(Problem::BMat(draft.posed(alloc)?)),
            AnyListed::MaxPlus(draft) => Ok(Problem::MaxPlus(draft.posed(alloc)?)),
        }
    }
}
