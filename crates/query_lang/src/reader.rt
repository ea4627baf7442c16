// What the lines of a script say, one after another.
ghost use Rattle.std.specs.Prelude.{◌≡◌, ◌≤◌, ◌==◌, [], ◌∷◌, true, false, not, ◌&&◌, codes, length, map, IfOk, IfErr, OnOk, Some, None, Ok};
ghost use Rattle.problem.specs.Problem.{is_presented, pairs_of};
ghost use Rattle.line_parts.specs.Faults.{IsLineFault};
ghost use Rattle.line_parts.specs.Fields.{field_of};
ghost use Rattle.line_parts.specs.Texts.{texts};
ghost use Rattle.line_parts.specs.Token.{is_kept, is_word, tokens_of};
ghost use Rattle.line_parts.specs.Versions.{is_wide};
ghost use Rattle.query_lang.specs.Faults.{IsFaultFor};
ghost use Rattle.query_lang.specs.Forms.{has_form, has_query, section_of};
ghost use Rattle.query_lang.specs.Grammar.{HeaderReads, LineReads, Partial, Step, begin_with, is_empty, is_generator_line, lacks_generator, script_in, section_reached};
ghost use Rattle.query_lang.specs.Grammar as said;
ghost use Rattle.query_lang.specs.Header.{free_way, generators_named};
ghost use Rattle.query_lang.specs.LineCauses.{cause_at_end, cause_of_line, causes_after, first_line_causes, first_of, form_causes, generator_causes, header_causes, line_causes};
ghost use Rattle.query_lang.specs.Reading.{AreGenerators, added_to, come_to, headed, said_by};

use crate::draft::Draft;
use crate::form::{Form, QueryForm, form_named};
use crate::header::{header_of, outline_of};
use crate::outline::Outline;
use crate::pairing::Paired;
use crate::role::Role;
use crate::script::Script;
use line_parts::{Cause, LineFault, Version, is_kept, is_word, tokens_of, version_of};
use ports::NoMemory;
use presentation::Kind;
use problem::Problem;
use std::alloc::Global;
use std::marker::Model;

// What the lines so far pose and ask, by how far they have come.
#[derive(Drop)]
enum Stage {
    // Generators, before the first pair.
    Posing(Draft),
    // A presentation, before the first pair.
    Relating(Outline),
    // The numbers of the header, and a problem, from the first pair on.
    Pairing((u32, u32), Paired),
    // The numbers of the header, and a script, from the first query on.
    Asking((u32, u32), Script),
}

/// What the lines so far say, from the header on. Contracts see it as the grammar does.
#[derive(Drop)]
pub struct Reader {
    version: Version,
    stage: Stage,
}

impl Model for Reader {
    ghost use Rattle.std.specs.Prelude.{◌≡◌, ◌==◌, [], false, length};
    ghost use Rattle.problem.specs.Problem.{pairs_of};
    ghost use Rattle.problem.specs.declared.kinds.Problem.TheVariants as problem;
    ghost use Rattle.query_lang.specs.Grammar.{Partial, begin_with, is_empty};
    ghost use Rattle.query_lang.specs.Reading.{AreGenerators, come_to};
    ghost use Rattle.query_lang.specs.declared.reader.Stage.TheVariants as kept;

    ghost Value = { Partial };

    ghost view = { λ r. elim r.stage [
      | kept.Posing draft ↦ begin_with r.version draft.0 draft.1
      | kept.Relating outline ↦ begin_with r.version (0, 0) (problem.Presented outline)
      | kept.Pairing sizes paired ↦ begin_with r.version sizes paired
      | kept.Asking sizes script ↦ come_to r.version sizes script
    ] };

    ghost invariant = { λ r. elim r.stage [
      | kept.Posing draft ↦ AreGenerators draft.1
      | kept.Relating outline ↦ outline.congruence.pairs ≡ []
      | kept.Pairing sizes paired ↦ (length (pairs_of paired) == 0) ≡ false
      | kept.Asking sizes script ↦ is_empty script.queries ≡ false
    ] };
}

// Generators, before the first pair.
fn posing(version: Version, draft: Draft) -> Reader
    requires { AreGenerators draft.1 }
    ensures { result ≡ begin_with version draft.0 draft.1 }
{
    Reader {
        version,
        stage: Stage::Posing(draft),
    }
}

// A presentation, before the first pair.
fn relating(version: Version, outline: Outline) -> Reader
    requires { outline.congruence.pairs ≡ [] }
    ensures { result ≡ begin_with version (0, 0) (Problem.Presented outline) }
{
    Reader {
        version,
        stage: Stage::Relating(outline),
    }
}

// A problem, from the first pair on.
fn pairing(version: Version, sizes: (u32, u32), paired: Paired) -> Reader
    requires { (length (pairs_of paired) == 0) ≡ false }
    ensures { result ≡ begin_with version sizes paired }
{
    Reader {
        version,
        stage: Stage::Pairing(sizes, paired),
    }
}

// A script, from the first query on.
fn asking(version: Version, sizes: (u32, u32), script: Script) -> Reader
    requires { is_empty script.queries ≡ false }
    ensures { result ≡ come_to version sizes script }
{
    Reader {
        version,
        stage: Stage::Asking(sizes, script),
    }
}

// The problem of the presentation, and no pair.
fn outlined(alloc: Global, outline: Outline) -> Paired
    ensures { result ≡ Problem.Presented outline }
{
    Paired::new(outline.problem(alloc))
}

// The script with this problem, and no query.
fn unasked(alloc: Global, paired: Paired) -> Script
    ensures { result ≡ record { problem = paired; queries = [] } }
{
    Script::new(alloc, paired.problem())
}

impl Reader {
    // The version of the script.
    fn version(&self) -> Version
        ensures { result ≡ self.now.head.version }
    {
        self.version
    }

    // The numbers of the header, 0 in the place of one that it has not.
    fn sizes(&self) -> (u32, u32)
        ensures { result ≡ self.now.head.sizes }
    {
        match &self.stage {
            Stage::Posing(draft) => draft.sizes(),
            Stage::Relating(_) => (0, 0),
            Stage::Pairing(sizes, _) => *sizes,
            Stage::Asking(sizes, _) => *sizes,
        }
    }

    // Whether the script is a presentation.
    fn is_presentation(&self) -> bool
        ensures { result ≡ is_presented self.now.problem }
    {
        match &self.stage {
            Stage::Posing(_) => false,
            Stage::Relating(_) => true,
            Stage::Pairing(_, paired) => paired.is_presented(),
            Stage::Asking(_, script) => script.problem().is_presented(),
        }
    }

    // The section that the lines have reached.
    fn section(&self) -> u8
        ensures { result ≡ section_reached self.now }
    {
        match &self.stage {
            Stage::Posing(_) | Stage::Relating(_) => 2,
            Stage::Pairing(_, _) => 3,
            Stage::Asking(_, _) => 4,
        }
    }

    // Whether generators are to be given, and there is none yet.
    fn lacks_generator(&self) -> bool
        ensures { result ≡ lacks_generator self.now }
    {
        match &self.stage {
            Stage::Posing(draft) => draft.is_empty(),
            Stage::Relating(_) | Stage::Pairing(_, _) | Stage::Asking(_, _) => false,
        }
    }

    // The generators, before the first pair.
    fn into_draft(self) -> Draft
        requires generated { is_presented self.problem ≡ false }
        requires early { section_reached self ≤ 2 }
        ensures draft { self ≡ begin_with self.head.version result.0 result.1 }
        ensures generators { AreGenerators result.1 }
    {
        match self.stage {
            Stage::Posing(draft) => draft,
            Stage::Relating(_) | Stage::Pairing(_, _) | Stage::Asking(_, _) => unreachable!(),
        }
    }

    // The presentation, before the first pair.
    fn into_outline(self) -> Outline
        requires presented { is_presented self.problem ≡ true }
        requires early { section_reached self ≤ 2 }
        ensures outline { self ≡ begin_with self.head.version (0, 0) (Problem.Presented result) }
        ensures unpaired { result.congruence.pairs ≡ [] }
    {
        match self.stage {
            Stage::Relating(outline) => outline,
            Stage::Posing(_) | Stage::Pairing(_, _) | Stage::Asking(_, _) => unreachable!(),
        }
    }

    // The problem and its pairs, before the first query. Only want of memory refuses.
    fn into_paired(self, alloc: Global) -> Result<Paired, NoMemory>
        requires early { section_reached self ≤ 3 }
        requires some { lacks_generator self ≡ false }
        ensures { IfOk result (λ paired. self
            ≡ begin_with self.head.version self.head.sizes paired) }
    {
        match self.stage {
            Stage::Posing(draft) => Ok(Paired::new(draft.problem(alloc)?)),
            Stage::Relating(outline) => Ok(outlined(alloc, outline)),
            Stage::Pairing(_, paired) => Ok(paired),
            Stage::Asking(_, _) => unreachable!(),
        }
    }

    // The script so far. Only want of memory refuses.
    fn into_script(self, alloc: Global) -> Result<Script, NoMemory>
        requires { lacks_generator self ≡ false }
        ensures { IfOk result (λ script. script ≡ script_in self) }
    {
        match self.stage {
            Stage::Posing(draft) => Ok(unasked(alloc, Paired::new(draft.problem(alloc)?))),
            Stage::Relating(outline) => Ok(unasked(alloc, outlined(alloc, outline))),
            Stage::Pairing(_, paired) => Ok(unasked(alloc, paired)),
            Stage::Asking(_, script) => Ok(script),
        }
    }

    // A generator line `NAME = ENTRIES`.
    fn add_generator(
        self,
        alloc: Global,
        name: &[u8],
        entries: &[&[u8]],
    ) -> Result<Reader, LineFault>
        requires { is_presented self.problem ≡ false }
        ensures ok { IfOk result
            (LineReads self (name.now ∷ codes "=" ∷ texts entries.now)) }
        ensures err { IfErr result (IsFaultFor (first_of
            (generator_causes self name.now (map field_of (texts entries.now))))) }
    {
        if self.section() > 2 {
            return Err(LineFault::refused_after(self, Cause::LineOutOfOrder));
        }
        let version = self.version();
        let draft = self.into_draft();
        Ok(posing(
            version,
            draft.with_generator(alloc, version.is_wide(), name, entries)?,
        ))
    }

    fn add_relation(self, alloc: Global, tokens: &[&[u8]]) -> Result<Reader, LineFault>
        requires presented { is_presented self.problem ≡ true }
        requires early { section_reached self ≤ 2 }
        ensures ok { IfOk result (λ next. added_to self Form.Relation (texts tokens.now)
            ≡ Ok next) }
        ensures err { IfErr result (IsLineFault
            (added_to self Form.Relation (texts tokens.now))) }
    {
        let version = self.version();
        let mut outline = self.into_outline();
        match outline.take_relation(alloc, version, tokens) {
            Ok(()) => Ok(relating(version, outline)),
            Err(fault) => {
                drop(outline);
                Err(fault)
            }
        }
    }

    fn add_role(self, role: Role, tokens: &[&[u8]]) -> Result<Reader, LineFault>
        requires presented { is_presented self.problem ≡ true }
        requires early { section_reached self ≤ 2 }
        ensures ok { IfOk result (λ next. added_to self (Form.OfRole role) (texts tokens.now)
            ≡ Ok next) }
        ensures err { IfErr result (IsLineFault
            (added_to self (Form.OfRole role) (texts tokens.now))) }
    {
        let version = self.version();
        let mut outline = self.into_outline();
        match outline.take_role(version, role, tokens) {
            Ok(()) => Ok(relating(version, outline)),
            Err(fault) => {
                drop(outline);
                Err(fault)
            }
        }
    }

    // A pair of this kind.
    fn add_pair(self, alloc: Global, kind: Kind, tokens: &[&[u8]]) -> Result<Reader, LineFault>
        requires early { section_reached self ≤ 3 }
        requires some { lacks_generator self ≡ false }
        ensures ok { IfOk result (λ next. added_to self (Form.Pair kind) (texts tokens.now)
            ≡ Ok next) }
        ensures err { IfErr result (IsLineFault
            (added_to self (Form.Pair kind) (texts tokens.now))) }
    {
        let version = self.version();
        let sizes = self.sizes();
        let paired = self.into_paired(alloc)?;
        Ok(pairing(
            version,
            sizes,
            paired.with_pair(alloc, version, kind, tokens)?,
        ))
    }

    // A query of this form. Scripts of this kind have it.
    fn ask(self, alloc: Global, form: QueryForm, tokens: &[&[u8]]) -> Result<Reader, LineFault>
        requires there { has_query (is_presented self.problem) form ≡ true }
        requires some { lacks_generator self ≡ false }
        ensures ok { IfOk result (λ next. added_to self (Form.Asks form) (texts tokens.now)
            ≡ Ok next) }
        ensures err { IfErr result (IsLineFault
            (added_to self (Form.Asks form) (texts tokens.now))) }
    {
        let version = self.version();
        let sizes = self.sizes();
        let mut script = self.into_script(alloc)?;
        match script.add_query(alloc, version, form, tokens) {
            Ok(()) => Ok(asking(version, sizes, script)),
            Err(fault) => {
                drop(script);
                Err(fault)
            }
        }
    }

    // A line of this form, which may stand here. Scripts of this version and kind have it.
    fn with_form(self, alloc: Global, form: Form, tokens: &[&[u8]]) -> Result<Reader, LineFault>
        requires there { has_form self.head.version (is_presented self.problem) form ≡ true }
        requires early { section_reached self ≤ section_of form }
        requires some { lacks_generator self ≡ false }
        ensures ok { IfOk result (λ next. added_to self form (texts tokens.now) ≡ Ok next) }
        ensures err { IfErr result (IsLineFault (added_to self form (texts tokens.now))) }
    {
        match form {
            Form::Relation => self.add_relation(alloc, tokens),
            Form::OfRole(role) => self.add_role(role, tokens),
            Form::Pair(kind) => self.add_pair(alloc, kind, tokens),
            Form::Asks(query) => self.ask(alloc, query, tokens),
        }
    }

    // A line of this form. Scripts of this version and kind have it.
    fn add_form(self, alloc: Global, form: Form, tokens: &[&[u8]]) -> Result<Reader, LineFault>
        requires { has_form self.head.version (is_presented self.problem) form ≡ true }
        ensures early { OnOk result (section_reached self ≤ section_of form) }
        ensures some { OnOk result (lacks_generator self ≡ false) }
        ensures ok { IfOk result (λ next. added_to self form (texts tokens.now) ≡ Ok next) }
        ensures err { IfErr result (IsFaultFor (first_of
            (form_causes self form (texts tokens.now)))) }
    {
        if form.section() < self.section() {
            return Err(LineFault::refused_after(self, Cause::LineOutOfOrder));
        }
        if self.lacks_generator() {
            return Err(LineFault::refused_after(self, Cause::NoGenerator));
        }
        self.with_form(alloc, form, tokens)
    }

    // A line that begins with a name, and is no generator line.
    fn add_named(self, alloc: Global, first: &[u8], tokens: &[&[u8]]) -> Result<Reader, LineFault>
        requires { is_generator_line self (first.now ∷ texts tokens.now) ≡ false }
        ensures ok { IfOk result (LineReads self (first.now ∷ texts tokens.now)) }
        ensures err { IfErr result (IsFaultFor (first_of
            (line_causes self (first.now ∷ texts tokens.now)))) }
    {
        match form_named(self.version(), self.is_presentation(), first) {
            Some(form) => self.add_form(alloc, form, tokens),
            None => Err(LineFault::refused_after(self, Cause::UnknownLine)),
        }
    }

    // Whether the second token makes the line one of a generator.
    fn is_sign(&self, second: &[u8]) -> bool
        ensures { result ≡ (not (is_presented self.now.problem)
            && is_word (codes "=") second.now) }
    {
        !self.is_presentation() && is_word(b"=", second)
    }

    // A line behind the header.
    fn add_line(self, alloc: Global, line: &[&[u8]]) -> Result<Reader, LineFault>
        ensures ok { IfOk result (LineReads self (texts line.now)) }
        ensures err { IfErr result (IsFaultFor (first_of (line_causes self (texts line.now)))) }
    {
        match line {
            [name, second, entries @ ..] if self.is_sign(second) => {
                self.add_generator(alloc, name, entries)
            }
            [first, tokens @ ..] => self.add_named(alloc, first, tokens),
            [] => Err(LineFault::refused_after(self, Cause::UnknownLine)),
        }
    }

    // The script of all lines. Refused where every generator of a script that is no presentation is
    // missing, or for want of memory.
    fn whole(self, alloc: Global) -> Result<Script, LineFault>
        ensures some { OnOk result (cause_at_end (said.Begun self) ≡ None) }
        ensures ok { IfOk result (λ script. script_in self ≡ script) }
        ensures err { IfErr result (IsFaultFor (cause_at_end (said.Begun self))) }
    {
        if self.lacks_generator() {
            return Err(LineFault::refused_after(self, Cause::NoGenerator));
        }
        Ok(self.into_script(alloc)?)
    }
}

// The header of a monoid or a semigroup, by the tokens behind its name.
fn presented_header(
    alloc: Global,
    version: Version,
    monoid: bool,
    tokens: &[&[u8]],
) -> Result<Reader, LineFault>
    ensures ok { IfOk result (λ next. said_by version (Some (free_way (is_wide version) monoid))
        (texts tokens.now) ≡ Ok next) }
    ensures err { IfErr result (IsLineFault
        (said_by version (Some (free_way (is_wide version) monoid)) (texts tokens.now))) }
{
    let outline = outline_of(alloc, version.is_wide(), monoid, tokens)?;
    Ok(relating(version, outline))
}

// The header of generators, by its name and the tokens behind it.
fn generated_header(
    alloc: Global,
    version: Version,
    name: &[u8],
    tokens: &[&[u8]],
) -> Result<Reader, LineFault>
    ensures ok { IfOk result (λ next. said_by version (generators_named name.now)
        (texts tokens.now) ≡ Ok next) }
    ensures err { IfErr result (IsLineFault
        (said_by version (generators_named name.now) (texts tokens.now))) }
{
    Ok(posing(version, header_of(alloc, name, tokens)?))
}

// The header, by its name and the tokens behind it.
fn named_header(
    alloc: Global,
    version: Version,
    name: &[u8],
    tokens: &[&[u8]],
) -> Result<Reader, LineFault>
    ensures ok { IfOk result (λ next. headed version name.now (texts tokens.now) ≡ Ok next) }
    ensures err { IfErr result (IsLineFault (headed version name.now (texts tokens.now))) }
{
    if is_word(b"monoid", name) {
        presented_header(alloc, version, true, tokens)
    } else if is_word(b"semigroup", name) {
        presented_header(alloc, version, false, tokens)
    } else {
        generated_header(alloc, version, name, tokens)
    }
}

// The header, in a script of this version.
fn header_line(alloc: Global, version: Version, line: &[&[u8]]) -> Result<Reader, LineFault>
    ensures ok { IfOk result (HeaderReads version (texts line.now)) }
    ensures err { IfErr result (IsFaultFor (first_of
        (header_causes version (texts line.now)))) }
{
    match line {
        [name, tokens @ ..] => named_header(alloc, version, name, tokens),
        [] => Err(LineFault::refused(Cause::UnknownHeader)),
    }
}

// How far the lines so far have come.
#[derive(Drop)]
enum Begun {
    // Nothing yet.
    Nothing,
    // The version line alone.
    Versioned(Version),
    // The header, and what stands behind it.
    Reading(Reader),
}

/// What the lines so far say, from the first one on: nothing, the version of the script, or what
/// stands behind its header too.
#[derive(Drop)]
pub struct Progress {
    begun: Begun,
}

impl Model for Progress {
    ghost use Rattle.query_lang.specs.Grammar.{Said};
    ghost use Rattle.query_lang.specs.Grammar as said;
    ghost use Rattle.query_lang.specs.declared.reader.Begun.TheVariants as kept;

    ghost Value = { Said };

    ghost view = { λ p. elim p.begun [
      | kept.Nothing ↦ said.Nothing
      | kept.Versioned version ↦ said.OfVersion version
      | kept.Reading reader ↦ said.Begun reader
    ] };
}

// The version alone.
fn versioned(version: Version) -> Progress
    ensures { result ≡ said.OfVersion version }
{
    Progress {
        begun: Begun::Versioned(version),
    }
}

// What stands from the header on.
fn reading(reader: Reader) -> Progress
    ensures { result ≡ said.Begun reader }
{
    Progress {
        begun: Begun::Reading(reader),
    }
}

// The header behind the version.
fn headed(alloc: Global, version: Version, line: &[&[u8]]) -> Result<Progress, LineFault>
    requires { is_kept (texts line.now) ≡ true }
    ensures ok { IfOk result (Step (said.OfVersion version) (texts line.now)) }
    ensures err { IfErr result (IsFaultFor (first_of
        (header_causes version (texts line.now)))) }
{
    Ok(reading(header_line(alloc, version, line)?))
}

// A line behind the header.
fn followed(alloc: Global, reader: Reader, line: &[&[u8]]) -> Result<Progress, LineFault>
    requires { is_kept (texts line.now) ≡ true }
    ensures ok { IfOk result (Step (said.Begun reader) (texts line.now)) }
    ensures err { IfErr result (IsFaultFor (first_of (line_causes reader (texts line.now)))) }
{
    Ok(reading(reader.add_line(alloc, line)?))
}

// The version line, or else the header.
fn first_line(alloc: Global, line: &[&[u8]]) -> Result<Progress, LineFault>
    requires { is_kept (texts line.now) ≡ true }
    ensures ok { IfOk result (Step said.Nothing (texts line.now)) }
    ensures err { IfErr result (IsFaultFor (first_of (first_line_causes (texts line.now)))) }
{
    match line {
        [name, tokens @ ..] if is_word(b"version", name) => Ok(versioned(version_of(tokens)?)),
        _ => Ok(reading(header_line(alloc, Version::One, line)?)),
    }
}

impl Progress {
    /// No line yet.
    pub fn new() -> Progress
        ensures { result ≡ said.Nothing }
    {
        Progress {
            begun: Begun::Nothing,
        }
    }

    // A line that is not skipped.
    fn read_line(self, alloc: Global, line: &[&[u8]]) -> Result<Progress, LineFault>
        requires { is_kept (texts line.now) ≡ true }
        ensures ok { IfOk result (Step self (texts line.now)) }
        ensures err { IfErr result (IsFaultFor (first_of (causes_after self (texts line.now)))) }
    {
        match self.begun {
            Begun::Nothing => first_line(alloc, line),
            Begun::Versioned(version) => headed(alloc, version, line),
            Begun::Reading(reader) => followed(alloc, reader, line),
        }
    }

    // A line, which may be skipped.
    fn take_tokens(self, alloc: Global, line: &[&[u8]]) -> Result<Progress, LineFault>
        ensures ok { IfOk result (Step self (texts line.now)) }
        ensures err { IfErr result (IsFaultFor (cause_of_line self (texts line.now))) }
    {
        if is_kept(line) {
            self.read_line(alloc, line)
        } else {
            Ok(self)
        }
    }

    /// One line more: of the version, the header, a line after it, or one that is skipped. Refused
    /// with the cause of the line, or for want of memory.
    pub fn take_line(self, alloc: Global, line: &[u8]) -> Result<Progress, LineFault>
        ensures ok { IfOk result (Step self (tokens_of line.now)) }
        ensures err { IfErr result (IsFaultFor (cause_of_line self (tokens_of line.now))) }
    {
        match tokens_of(alloc, line) {
            Ok(tokens) => self.take_tokens(alloc, &tokens),
            Err(_) => {
                drop(self);
                Err(LineFault::no_memory())
            }
        }
    }

    /// The script of all lines. Refused where the header is missing, or every generator of a script
    /// that is no presentation, or for want of memory.
    pub fn whole(self, alloc: Global) -> Result<Script, LineFault>
        ensures some { OnOk result (cause_at_end self ≡ None) }
        ensures ok { IfOk result (λ script. (p : Partial) × (self ≡ said.Begun p)
            × (script_in p ≡ script)) }
        ensures err { IfErr result (IsFaultFor (cause_at_end self)) }
    {
        match self.begun {
            Begun::Nothing | Begun::Versioned(_) => {
                Err(LineFault::refused(Cause::HeaderMissing))
            }
            Begun::Reading(reader) => reader.whole(alloc),
        }
    }
}
