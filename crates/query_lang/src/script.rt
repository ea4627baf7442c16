// Scripts: a problem, and queries.
ghost use Rattle.std.specs.Prelude.{◌≡◌, [], true, IfOk, IfErr, Ok, All, OnOk};
ghost use Rattle.problem.specs.Problem.{IsPosable, is_presented};
ghost use Rattle.line_parts.specs.Faults.{IsLineFault};
ghost use Rattle.line_parts.specs.Texts.{texts};
ghost use Rattle.query_lang.specs.Asked.{asked};
ghost use Rattle.query_lang.specs.Faults.{IsScriptFault};
ghost use Rattle.query_lang.specs.Grammar.{lines_of};
ghost use Rattle.query_lang.specs.LineCauses.{AreScript};
ghost use Rattle.query_lang.specs.Query.{IsQueryOf};
ghost use Rattle.query_lang.specs.Forms.{has_query};
ghost use Rattle.query_lang.specs.Relations.{relations_of};
ghost use Rattle.query_lang.specs.Values.{added_of};

use crate::fault::ScriptFault;
use crate::form::{Form, QueryForm};
use crate::query_line::Scope;
use crate::reader::Progress;
use line_parts::{Cause, LineFault, Version};
use problem::Problem;
use std::alloc::Global;
use std::marker::Model;
use theory::Relation;
use word_graph::WordGraph;
use words::Word;

/// A query of a script. Its words are elements, over the letters of the script's problem, and its
/// tables are standard ones over these letters.
#[derive(Drop)]
pub enum Query {
    /// How many classes there are.
    Index,
    /// Whether the words lie in one class.
    Equal(Word, Word),
    /// The least word of the word's class.
    Normal(Word),
    /// The first `count` least words of classes, in short-lex order; where there is a word to come
    /// `after`, of those that are greater than it.
    Classes {
        count: usize,
        after: Option<Word>,
    },
    /// The reduced rewriting rules, where pairs are two-sided, or there are none.
    RuleList,
    /// The value of the word, where generators are given.
    ElementOf(Word),
    /// The Cayley graphs, where generators are given, and no pairs.
    Cayley,
    /// The least `count` standard tables of right congruences, or of two-sided ones alone, of at
    /// most so many `classes`; where there is a table to come `after`, which need not be one of
    /// them, of those that are greater than it (Sims 1994, 5.6; libsemigroups, `Sims1`, `Sims2`).
    /// Relations are given, and no pairs.
    LowIndex {
        two_sided: bool,
        classes: usize,
        count: usize,
        after: Option<WordGraph>,
    },
    /// The meet of two right congruences, by their tables. Relations are given, and no pairs; the
    /// relations hold at both tables.
    Meet(WordGraph, WordGraph),
    /// The join of two right congruences, by their tables. Relations are given, and no pairs; the
    /// relations hold at both tables.
    Join(WordGraph, WordGraph),
    /// A chain from the first word to the second one, each word of which is got from the one before
    /// by one relation or pair at one place (Book and Otto, *String-rewriting systems*, 1993, 2.1).
    /// Relations are given, and pairs are two-sided, or there are none.
    Chain(Word, Word),
    /// The classes of one of Green's relations, where generators are given, and no pairs.
    Green(Relation),
    /// The idempotents, where generators are given, and no pairs.
    Idempotents,
}

// The relations of a problem; generators have none.
fn relations_of(problem: &Problem) -> &[(Word, Word)]
    ensures { result.now ≡ relations_of problem.now }
{
    match problem {
        Problem::Presented(congruence) => congruence.presentation().relations().as_slice(),
        _ => &[],
    }
}

/// A script: what it poses, and the queries. Contracts see both. The problem is one that scripts
/// pose, and the queries are of it.
#[derive(Drop)]
pub struct Script {
    problem: Problem,
    queries: Vec<Query>,
}

impl Model for Script {
    ghost use Rattle.std.specs.Prelude.{All};
    ghost use Rattle.problem.specs.Problem.{IsPosable};
    ghost use Rattle.query_lang.specs.Query.{IsQueryOf};
    ghost use Rattle.query_lang.specs.Asked.{ScriptOf};

    ghost Value = { ScriptOf };

    ghost view = { λ s. record { problem = s.problem; queries = s.queries.items } };

    ghost invariant = { λ s. IsPosable s.problem × All (IsQueryOf s.problem) s.queries.items };
}

impl Script {
    // The script with this problem, and no query.
    pub(crate) fn new(alloc: Global, problem: Problem) -> Script
        requires { IsPosable problem }
        ensures problem { result.problem ≡ problem }
        ensures queries { result.queries ≡ [] }
    {
        Script {
            problem,
            queries: Vec::new(alloc),
        }
    }

    // The query of this form and these tokens, which may stand behind the others. Scripts of this
    // kind have it.
    fn query(
        &self,
        alloc: Global,
        version: Version,
        form: QueryForm,
        tokens: &[&[u8]],
    ) -> Result<Query, LineFault>
        requires { has_query (is_presented self.now.problem) form ≡ true }
        ensures ok { IfOk result (λ query. added_of version self.now.problem (Form.Asks form)
            (texts tokens.now) ≡ Ok query) }
        ensures own { IfOk result (IsQueryOf self.now.problem) }
        ensures err { IfErr result (IsLineFault
            (added_of version self.now.problem (Form.Asks form) (texts tokens.now))) }
    {
        if !form.takes(tokens) {
            return Err(LineFault::refused(Cause::WrongNumberOfWords));
        }
        if form.is_barred(&self.problem) {
            return Err(LineFault::refused(Cause::QueryNotAllowed));
        }
        let allow_empty = self.problem.has_empty_word();
        let relations = relations_of(&self.problem);
        let alphabet = self.problem.alphabet();
        let scope = Scope {
            version,
            alphabet,
            allow_empty,
            relations,
        };
        scope.query(alloc, form, tokens)
    }

    // Puts the query of this form and these tokens behind the others. Scripts of this kind have it.
    pub(crate) fn add_query(
        &mut self,
        alloc: Global,
        version: Version,
        form: QueryForm,
        tokens: &[&[u8]],
    ) -> Result<(), LineFault>
        requires { has_query (is_presented self.old.problem) form ≡ true }
        ensures ok { OnOk result
            (asked version self.old form (texts tokens.now) ≡ Ok self.new) }
        ensures err { IfErr result (IsLineFault
            (asked version self.old form (texts tokens.now))) }
    {
        let query = self.query(alloc, version, form, tokens)?;
        self.queries.push(query)?;
        Ok(())
    }

    /// Lets go of the script, all of it in one place.
    pub fn let_go(self) {
        drop(self);
    }

    /// What the script poses.
    pub fn problem(&self) -> &Problem
        ensures problem { result.now ≡ self.now.problem }
        ensures posable { IsPosable self.now.problem }
    {
        &self.problem
    }

    /// The queries, in their order.
    pub fn queries(&self) -> &[Query]
        ensures queries { result.now ≡ self.now.queries }
        ensures asked { All (IsQueryOf self.now.problem) self.now.queries }
    {
        self.queries.as_slice()
    }
}

/// The script that the bytes are. Refused with `Bad` exactly where a line has a cause of refusal,
/// at the first such line, or where the header is missing at the end, or every generator of a
/// script that is no presentation, at the last line; with `NoMemory` only where memory is wanting.
pub fn read_script(alloc: Global, bytes: &[u8]) -> Result<Script, ScriptFault>
    ensures ok { IfOk result (λ script. AreScript (lines_of bytes.now) script) }
    ensures err { IfErr result (IsScriptFault bytes.now) }
{
    let mut progress = Progress::new();
    let mut number = 0;
    for line in bytes.split(|byte| *byte == b'\n') {
        number += 1;
        progress = match progress.take_line(alloc, line) {
            Ok(next) => next,
            Err(fault) => return Err(ScriptFault::at_line(fault, number)),
        };
    }
    match progress.whole(alloc) {
        Ok(script) => Ok(script),
        Err(fault) => Err(ScriptFault::at_line(fault, number)),
    }
}
