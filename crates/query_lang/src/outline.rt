// Relations that lines give, one after another.
ghost use Rattle.std.specs.Prelude.{◌≡◌, ◌≢◌, ◌<◌, ◌≤◌, ◌+◌, ℕ, [], ◌∷◌, Option, IfOk, IfErr, OnOk, Ok, Err, length, Contains};
ghost use Rattle.theory.specs.Word.{Word as Letters};
ghost use Rattle.words.specs.Alphabet.{marker};
ghost use Rattle.presentation.specs.Added.{identity_relations, zero_relations, inverse_relations, products_with};
ghost use Rattle.line_parts.specs.Faults.{IsLineFault};
ghost use Rattle.line_parts.specs.LineWords.{both_elements};
ghost use Rattle.line_parts.specs.Texts.{texts};
ghost use Rattle.query_lang.specs.Relations.{IsSide, add_relation, add_relations, free_over, most_relations};
ghost use Rattle.query_lang.specs.Roles.{AreInverses, both_letters, is_too_many, letter_for, letter_in};
ghost use Rattle.query_lang.specs.Outline.{related};
ghost use Rattle.query_lang.specs.Pairing.{IsPairable};
ghost use Rattle.query_lang.specs.Values.{added_of};

use crate::form::Form;
use crate::role::{Role, count_for, count_for_both};
use line_parts::{Cause, LineFault, Version, both_elements, letter_of, one_token, two_tokens};
use ports::NoMemory;
use presentation::{AddFault, Congruence, Kind, Pairs, Presentation};
use problem::Problem;
use std::alloc::Global;
use std::marker::Model;
use words::{Alphabet, Letter, Word};

// The most relations of a script.
const MOST_RELATIONS: usize = 4096;

/// A presentation with the relations so far. Contracts see the letters, and the congruence without
/// pairs.
#[derive(Drop)]
pub struct Outline {
    presentation: Presentation,
}

impl Model for Outline {
    ghost use Rattle.presentation.specs.Presented.{Posed};
    ghost use Rattle.query_lang.specs.Relations.{IsOutline, outlined};

    ghost Value = { Posed };

    ghost view = { λ o. outlined o.presentation };

    ghost invariant = { λ o. IsOutline (outlined o.presentation) };
}

impl Outline {
    /// No relation yet; the marker is none of the letters.
    pub fn new(alloc: Global, alphabet: Alphabet, monoid: bool) -> Outline
        requires { ¬ Contains alphabet marker }
        ensures { result ≡ free_over monoid alphabet }
    {
        Outline {
            presentation: Presentation::new(alloc, alphabet, monoid),
        }
    }

    // The two elements that the tokens are.
    fn sides(
        &self,
        alloc: Global,
        version: Version,
        left: &[u8],
        right: &[u8],
    ) -> Result<(Word, Word), LineFault>
        ensures ok { IfOk result (λ sides. both_elements version self.now.alphabet
            self.now.congruence.presentation.is_monoid left.now right.now ≡ Ok sides) }
        ensures left { IfOk result (λ sides. IsSide self.now sides.0) }
        ensures right { IfOk result (λ sides. IsSide self.now sides.1) }
        ensures err { IfErr result (IsLineFault (both_elements version self.now.alphabet
            self.now.congruence.presentation.is_monoid left.now right.now)) }
    {
        let alphabet = self.presentation.alphabet();
        let allow_empty = self.presentation.is_monoid();
        both_elements(alloc, version, alphabet, allow_empty, left, right)
    }

    // Puts the relation of these two elements behind the others.
    fn add_relation(&mut self, left: Word, right: Word) -> Result<(), NoMemory>
        requires few { length self.old.congruence.presentation.relations ≢ most_relations }
        requires left { IsSide self.old left }
        requires right { IsSide self.old right }
        ensures { OnOk result (self.new ≡ add_relation self.old (left, right)) }
    {
        let _alphabet = self.presentation.alphabet();
        match self.presentation.add(left, right) {
            Ok(()) => Ok(()),
            Err(AddFault::NoMemory) => Err(NoMemory),
            Err(_) => unreachable!(),
        }
    }

    // The relation of these two words, which may stand behind the others.
    fn relation_of(
        &self,
        alloc: Global,
        version: Version,
        tokens: &[&[u8]],
    ) -> Result<(Word, Word), LineFault>
        ensures ok { IfOk result (λ sides. added_of version (Problem.Presented self.now)
            Form.Relation (texts tokens.now) ≡ Ok (sides ∷ [])) }
        ensures few { OnOk result
            (length self.now.congruence.presentation.relations ≢ most_relations) }
        ensures left { IfOk result (λ sides. IsSide self.now sides.0) }
        ensures right { IfOk result (λ sides. IsSide self.now sides.1) }
        ensures err { IfErr result (IsLineFault
            (added_of version (Problem.Presented self.now) Form.Relation (texts tokens.now))) }
    {
        let (left, right) = two_tokens(tokens)?;
        if self.presentation.relations().len() == MOST_RELATIONS {
            return Err(LineFault::refused(Cause::TooManyRelations));
        }
        self.sides(alloc, version, left, right)
    }

    /// Puts the relation of these two words behind the others. Refused with the cause of its line,
    /// or for want of memory.
    pub fn take_relation(
        &mut self,
        alloc: Global,
        version: Version,
        tokens: &[&[u8]],
    ) -> Result<(), LineFault>
        ensures ok { OnOk result (related self.old (added_of version
            (Problem.Presented self.old) Form.Relation (texts tokens.now)) ≡ Ok self.new) }
        ensures err { IfErr result (IsLineFault (related self.old
            (added_of version (Problem.Presented self.old) Form.Relation (texts tokens.now)))) }
    {
        let (left, right) = self.relation_of(alloc, version, tokens)?;
        self.add_relation(left, right)?;
        Ok(())
    }

    // The letter of the alphabet that the token is.
    fn letter(&self, version: Version, token: &[u8]) -> Result<Letter, Cause>
        ensures letter { result ≡ letter_in version self.now.alphabet token.now }
        ensures within { IfOk result (λ letter. letter < length self.now.alphabet) }
    {
        let byte = letter_of(version.is_wide(), token).ok_or(Cause::NotALetter)?;
        let letter = self.presentation.alphabet().letter(byte);
        letter.ok_or(Cause::NotInAlphabet)
    }

    // Whether so many relations more are too many.
    fn is_too_many(&self, count: usize) -> bool
        requires { count ≤ 106 }
        ensures { result ≡ is_too_many self.now count }
    {
        MOST_RELATIONS < self.presentation.relations().len() + count
    }

    // Puts the relations by which the letter is an identity behind the others.
    fn add_identity(&mut self, e: Letter) -> Result<(), NoMemory>
        requires within { e < length self.old.alphabet }
        requires few { length self.old.congruence.presentation.relations
            + length (identity_relations (length self.old.alphabet) e) ≤ most_relations }
        ensures { OnOk result (self.new
            ≡ add_relations self.old (identity_relations (length self.old.alphabet) e)) }
    {
        let _alphabet = self.presentation.alphabet();
        match self.presentation.add_identity(e) {
            Ok(()) => Ok(()),
            Err(AddFault::NoMemory) => Err(NoMemory),
            Err(_) => unreachable!(),
        }
    }

    // Puts the relations by which the letter is a zero behind the others.
    fn add_zero(&mut self, z: Letter) -> Result<(), NoMemory>
        requires within { z < length self.old.alphabet }
        requires few { length self.old.congruence.presentation.relations
            + length (zero_relations (length self.old.alphabet) z) ≤ most_relations }
        ensures { OnOk result (self.new
            ≡ add_relations self.old (zero_relations (length self.old.alphabet) z)) }
    {
        let _alphabet = self.presentation.alphabet();
        match self.presentation.add_zero(z) {
            Ok(()) => Ok(()),
            Err(AddFault::NoMemory) => Err(NoMemory),
            Err(_) => unreachable!(),
        }
    }

    // Puts the relations by which the letters are inverse behind the others.
    fn add_inverse(&mut self, x: Letter, y: Letter, e: Option<Letter>) -> Result<(), NoMemory>
        requires { AreInverses self.old x y e }
        ensures { OnOk result (self.new ≡ add_relations self.old (inverse_relations x y e)) }
    {
        let _alphabet = self.presentation.alphabet();
        match self.presentation.add_inverse(x, y, e) {
            Ok(()) => Ok(()),
            Err(AddFault::NoMemory) => Err(NoMemory),
            Err(_) => unreachable!(),
        }
    }

    // The letter that the tokens name, where its relations in a role are not too many.
    fn letter_for(&self, version: Version, tokens: &[&[u8]]) -> Result<Letter, LineFault>
        ensures ok { IfOk result (λ letter. letter_for version self.now (texts tokens.now)
            ≡ Ok letter) }
        ensures within { IfOk result (λ letter. letter < length self.now.alphabet) }
        ensures few { (word : ℕ → Letters) → IfOk result
            (λ letter. length self.now.congruence.presentation.relations
            + length (products_with letter word (length self.now.alphabet)) ≤ most_relations) }
        ensures err { IfErr result (IsLineFault
            (letter_for version self.now (texts tokens.now))) }
    {
        let token = one_token(tokens)?;
        if self.is_too_many(count_for(self.presentation.alphabet(), token)) {
            return Err(LineFault::refused(Cause::TooManyRelations));
        }
        Ok(self.letter(version, token)?)
    }

    // Puts the relations behind the others by which the letter that the tokens name is an identity.
    fn take_identity(&mut self, version: Version, tokens: &[&[u8]]) -> Result<(), LineFault>
        ensures ok { OnOk result (related self.old (added_of version
            (Problem.Presented self.old) (Form.OfRole Role.Identity) (texts tokens.now))
            ≡ Ok self.new) }
        ensures err { IfErr result (IsLineFault (related self.old (added_of version
            (Problem.Presented self.old) (Form.OfRole Role.Identity) (texts tokens.now)))) }
    {
        let letter = self.letter_for(version, tokens)?;
        self.add_identity(letter)?;
        Ok(())
    }

    // Puts the relations behind the others by which the letter that the tokens name is a zero.
    fn take_zero(&mut self, version: Version, tokens: &[&[u8]]) -> Result<(), LineFault>
        ensures ok { OnOk result (related self.old (added_of version
            (Problem.Presented self.old) (Form.OfRole Role.Zero) (texts tokens.now))
            ≡ Ok self.new) }
        ensures err { IfErr result (IsLineFault (related self.old (added_of version
            (Problem.Presented self.old) (Form.OfRole Role.Zero) (texts tokens.now)))) }
    {
        let letter = self.letter_for(version, tokens)?;
        self.add_zero(letter)?;
        Ok(())
    }

    // Two letters, where the relations that make them inverse are not too many.
    fn both_letters(&self, version: Version, x: &[u8], y: &[u8]) -> Result<(Letter, Letter), Cause>
        ensures ok { IfOk result (λ both. both_letters version self.now x.now y.now ≡ Ok both) }
        ensures left { IfOk result (λ both. both.0 < length self.now.alphabet) }
        ensures right { IfOk result (λ both. both.1 < length self.now.alphabet) }
        ensures few { (e : Option ℕ) → IfOk result
            (λ both. length self.now.congruence.presentation.relations
            + length (inverse_relations both.0 both.1 e) ≤ most_relations) }
        ensures err { IfErr result (λ cause. both_letters version self.now x.now y.now
            ≡ Err cause) }
    {
        if self.is_too_many(count_for_both(x, y)) {
            return Err(Cause::TooManyRelations);
        }
        let x = self.letter(version, x)?;
        let y = self.letter(version, y)?;
        Ok((x, y))
    }

    // The letters that the tokens name, where the relations that make them inverse are not too
    // many. In a semigroup the third one is the identity by which they are.
    fn inverse_letters(
        &self,
        version: Version,
        tokens: &[&[u8]],
    ) -> Result<(Letter, Letter, Option<Letter>), Cause>
        ensures ok { IfOk result (λ t. added_of version (Problem.Presented self.now)
            (Form.OfRole Role.Inverse) (texts tokens.now)
            ≡ Ok (inverse_relations t.0 t.1 t.2)) }
        ensures fit { IfOk result (λ t. AreInverses self.now t.0 t.1 t.2) }
        ensures err { IfErr result (λ cause. added_of version (Problem.Presented self.now)
            (Form.OfRole Role.Inverse) (texts tokens.now) ≡ Err cause) }
    {
        if self.presentation.is_monoid() {
            let (first, second) = two_tokens(tokens)?;
            let (x, y) = self.both_letters(version, first, second)?;
            return Ok((x, y, None));
        }
        match tokens {
            [x, y, e] => {
                let (x, y) = self.both_letters(version, x, y)?;
                let e = self.letter(version, e)?;
                Ok((x, y, Some(e)))
            }
            _ => Err(Cause::WrongNumberOfWords),
        }
    }

    // Puts the relations behind the others by which the letters that the tokens name are inverse.
    fn take_inverse(&mut self, version: Version, tokens: &[&[u8]]) -> Result<(), LineFault>
        ensures ok { OnOk result (related self.old (added_of version
            (Problem.Presented self.old) (Form.OfRole Role.Inverse) (texts tokens.now))
            ≡ Ok self.new) }
        ensures err { IfErr result (IsLineFault (related self.old (added_of version
            (Problem.Presented self.old) (Form.OfRole Role.Inverse) (texts tokens.now)))) }
    {
        let (x, y, e) = self.inverse_letters(version, tokens)?;
        self.add_inverse(x, y, e)?;
        Ok(())
    }

    /// Puts the relations behind the others by which letters have this role; the tokens name them.
    /// Refused with the cause of its line, or for want of memory.
    pub fn take_role(
        &mut self,
        version: Version,
        role: Role,
        tokens: &[&[u8]],
    ) -> Result<(), LineFault>
        ensures ok { OnOk result (related self.old (added_of version
            (Problem.Presented self.old) (Form.OfRole role) (texts tokens.now)) ≡ Ok self.new) }
        ensures err { IfErr result (IsLineFault (related self.old (added_of version
            (Problem.Presented self.old) (Form.OfRole role) (texts tokens.now)))) }
    {
        match role {
            Role::Identity => self.take_identity(version, tokens),
            Role::Zero => self.take_zero(version, tokens),
            Role::Inverse => self.take_inverse(version, tokens),
        }
    }

    /// What the presentation poses.
    pub fn problem(self, alloc: Global) -> Problem
        ensures problem { result ≡ Problem.Presented self }
        ensures pairable { IsPairable result }
    {
        let pairs = Pairs::new(alloc);
        Problem::Presented(Congruence::new(self.presentation, Kind::TwoSided, pairs))
    }
}
