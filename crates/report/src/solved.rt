// The answers where the problem is decided.
ghost use Rattle.std.specs.Prelude.{◌≡◌, ℕ, length, IfOk, OnOk};
ghost use Rattle.std.specs.Option.{option_copied};
ghost use Rattle.ports.specs.Writes.{Writes};
ghost use Rattle.theory.specs.Class.{IsLeast};
ghost use Rattle.theory.specs.ShortLex.{◌≺◌};
ghost use Rattle.problem.specs.Problem.{SameClassOf, count_of, letters_of};
ghost use Rattle.query_lang.specs.Query.{IsQueryOf};
ghost use Rattle.report_lines.specs.LineBytes.{AreBytesOf};
ghost use Rattle.report_lines.specs.Known.{AreKnownOf, KeepsKnown};
ghost use Rattle.report_lines.specs.Lines.{word_line};
ghost use Rattle.report_lines.specs.Pages.{ArePageLines};
ghost use Rattle.query_answers.specs.Answer.{AreLines, awaited_by};
ghost use Rattle.report.specs.Kept.{HasElements};

use congruence::Solved;
use congruence_classes::Index;
use ports::{NoMemory, Sink, WriteFault};
use problem::Problem;
use query_answers::Awaited;
use query_lang::Query;
use report_lines::{
    KnownElements, write_cayley, write_count, write_end, write_equal, write_green,
    write_idempotents, write_infinite, write_normal_form, write_over, write_rules, write_word,
};
use std::alloc::Global;
use std::mem::replace;
use words::{Alphabet, Word};

// The cursor in memory of its own.
fn copied(alloc: Global, cursor: Option<&Word>) -> Result<Option<Word>, NoMemory>
    ensures { IfOk result (λ copy. copy ≡ option_copied cursor.entry) }
{
    match cursor {
        Some(word) => Ok(Some(word.copy(alloc)?)),
        None => Ok(None),
    }
}

// Writes a page: at most so many least words after a cursor, each as it is found, and whether there
// are more. The cursor follows.
fn write_page<O: Sink>(
    alloc: Global,
    alphabet: &Alphabet,
    solved: &mut Solved,
    count: usize,
    cursor: &mut Option<Word>,
    sink: &mut O,
) -> Result<(), WriteFault>
    requires letters { letters_of solved.old.problem ≡ alphabet.now }
    requires one_each { count_of solved.old.problem ≡ length alphabet.now }
    ensures kept { solved.new ≡ solved.old }
    ensures written { Writes O.Sink (λ _. AreBytesOf (ArePageLines
        (IsLeast (SameClassOf solved.old.problem)) ◌≺◌ (word_line alphabet.now)
        cursor.old count)) sink.old sink.new result }
{
    for _ in 0..count {
        match solved.next_after(cursor.as_ref())? {
            Some(word) => {
                write_word(alloc, alphabet, &word, sink)?;
                drop(replace(cursor, Some(word)));
            }
            None => return write_end(false, sink),
        }
    }
    let next = solved.next_after(cursor.as_ref())?;
    write_end(next.is_some(), sink)
}

// Writes a page of classes after a cursor.
fn write_classes<O: Sink>(
    alloc: Global,
    alphabet: &Alphabet,
    solved: &mut Solved,
    count: usize,
    after: Option<&Word>,
    sink: &mut O,
) -> Result<(), WriteFault>
    requires letters { letters_of solved.old.problem ≡ alphabet.now }
    requires one_each { count_of solved.old.problem ≡ length alphabet.now }
    ensures kept { solved.new ≡ solved.old }
    ensures written { Writes O.Sink (λ _. AreBytesOf (ArePageLines
        (IsLeast (SameClassOf solved.old.problem)) ◌≺◌ (word_line alphabet.now)
        (option_copied after.entry) count)) sink.old sink.new result }
{
    let mut cursor = copied(alloc, after)?;
    let written = write_page(alloc, alphabet, solved, count, &mut cursor, sink);
    drop(cursor);
    written
}

// Writes the number of classes, that it is above the bound, or that there are infinitely many.
fn write_index<O: Sink>(
    alloc: Global,
    solved: &mut Solved,
    bound: usize,
    sink: &mut O,
) -> Result<(), WriteFault>
    ensures kept { solved.new ≡ solved.old }
    ensures written { Writes O.Sink (λ _. AreBytesOf
        (AreLines solved.old.problem bound Query.Index)) sink.old sink.new result }
{
    match solved.index(bound)? {
        Index::Finite(count) => write_count(alloc, count, sink),
        Index::Infinite => write_infinite(sink),
        Index::Over => write_over(alloc, bound, sink),
    }
}

// Writes whether two words are of one class.
fn write_same_class<O: Sink>(
    solved: &Solved,
    left: &Word,
    right: &Word,
    sink: &mut O,
) -> Result<(), WriteFault>
    requires one_each { count_of solved.now.problem ≡ length (letters_of solved.now.problem) }
    requires query { IsQueryOf solved.now.problem (Query.Equal left.now right.now) }
    ensures { (bound : ℕ) → Writes O.Sink (λ _. AreBytesOf
        (AreLines solved.now.problem bound (Query.Equal left.now right.now)))
        sink.old sink.new result }
{
    write_equal(solved.equal(left, right)?, sink)
}

// Writes the normal form of a word.
fn write_normal<O: Sink>(
    alloc: Global,
    alphabet: &Alphabet,
    solved: &Solved,
    word: &Word,
    sink: &mut O,
) -> Result<(), WriteFault>
    requires letters { letters_of solved.now.problem ≡ alphabet.now }
    requires one_each { count_of solved.now.problem ≡ length alphabet.now }
    requires query { IsQueryOf solved.now.problem (Query.Normal word.now) }
    ensures { (bound : ℕ) → Writes O.Sink (λ _. AreBytesOf
        (AreLines solved.now.problem bound (Query.Normal word.now))) sink.old sink.new result }
{
    let normal = solved.normal(word)?;
    write_normal_form(alloc, alphabet, &normal, sink)
}

// Writes the reduced rules.
fn write_rule_list<O: Sink>(
    alloc: Global,
    alphabet: &Alphabet,
    solved: &Solved,
    sink: &mut O,
) -> Result<(), WriteFault>
    requires letters { letters_of solved.now.problem ≡ alphabet.now }
    requires one_each { count_of solved.now.problem ≡ length alphabet.now }
    requires query { IsQueryOf solved.now.problem Query.RuleList }
    ensures { (bound : ℕ) → Writes O.Sink (λ _. AreBytesOf
        (AreLines solved.now.problem bound Query.RuleList)) sink.old sink.new result }
{
    let rules = solved.rules()?.into_vec();
    write_rules(alloc, alphabet, &rules, sink)
}

/// Writes the answer of a query that waits for the problem's decision, from what is known of it,
/// which stays the same, and of its elements, of which more may be known afterwards.
pub fn write_solved<O: Sink>(
    alloc: Global,
    problem: &Problem,
    solved: &mut Solved,
    elements: &mut KnownElements,
    query: &Query,
    bound: usize,
    sink: &mut O,
) -> Result<(), WriteFault>
    requires solved { solved.old.problem ≡ problem.now }
    requires known { AreKnownOf problem.now elements.old }
    requires query { IsQueryOf problem.now query.now }
    requires waits { awaited_by query.now ≡ Awaited.Decision }
    ensures kept { solved.new ≡ solved.old }
    ensures known { AreKnownOf problem.now elements.new }
    ensures keeps { KeepsKnown elements.old elements.new }
    ensures found { OnOk result (HasElements query.now elements.new) }
    ensures written { Writes O.Sink (λ _. AreBytesOf (AreLines problem.now bound query.now))
        sink.old sink.new result }
{
    let alphabet = problem.alphabet();
    match query {
        Query::Index => write_index(alloc, solved, bound, sink),
        Query::Equal(left, right) => write_same_class(solved, left, right, sink),
        Query::Normal(word) => write_normal(alloc, alphabet, solved, word, sink),
        Query::Classes { count, after } => {
            write_classes(alloc, alphabet, solved, *count, after.as_ref(), sink)
        }
        Query::RuleList => write_rule_list(alloc, alphabet, solved, sink),
        Query::Cayley => write_cayley(alloc, problem, solved.tables(), sink),
        Query::Green(relation) => {
            let tables = solved.tables();
            write_green(alloc, problem, tables, elements, *relation, sink)
        }
        Query::Idempotents => { write_idempotents(alloc, problem, solved.tables(), elements, sink) }
        Query::ElementOf(_)
        | Query::LowIndex { .. }
        | Query::Meet(..)
        | Query::Join(..)
        | Query::Chain(..) => unreachable!(),
    }
}
