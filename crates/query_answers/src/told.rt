// The answers of queries that wait for no decision.
ghost use Rattle.std.specs.Prelude.{◌≡◌, ℕ, ◌++◌, ◌<◌, codes, length, false};
ghost use Rattle.ports.specs.Writes.{Writes, WritesBytes};
ghost use Rattle.theory.specs.Lattice.{Meet, Join};
ghost use Rattle.theory.specs.Word.{IsElement};
ghost use Rattle.table_texts.specs.TableText.{table_text};
ghost use Rattle.lattice.specs.Tables.{AreTables, HaveOneWidth};
ghost use Rattle.problem.specs.Problem.{is_presented, letters_of, value_text};
ghost use Rattle.query_lang.specs.Query.{IsQueryOf};
ghost use Rattle.report_lines.specs.LineBytes.{AreBytesOf};
ghost use Rattle.report_lines.specs.Lines.{element_line, join_line, meet_line};
ghost use Rattle.query_answers.specs.Answer.{AreLines, IsTableAnswer, awaited_by};

use crate::awaited::Awaited;
use lattice::{join, meet};
use ports::{Gate, Sink, WriteFault};
use problem::Problem;
use query_lang::Query;
use report_lines::{Line, find_page, write_page};
use std::alloc::Global;
use std::thread::Threads;
use word_graph::WordGraph;
use words::Word;

// Writes the entries of a word's value, where generators are given.
fn write_element<O: Sink>(
    alloc: Global,
    problem: &Problem,
    word: &Word,
    sink: &mut O,
) -> Result<(), WriteFault>
    requires generated { is_presented problem.now ≡ false }
    requires word { IsElement false (length (letters_of problem.now)) word.now }
    ensures { WritesBytes O.Sink (element_line (value_text problem.now word.now))
        sink.old sink.new result }
{
    let entries = problem.value(alloc, word)?;
    let mut line = Line::starting(alloc, b"element ")?;
    line.text(entries.as_slice())?;
    line.write(sink)
}

// Writes a table behind a name.
fn write_named<O: Sink>(
    alloc: Global,
    name: &[u8],
    table: &WordGraph,
    sink: &mut O,
) -> Result<(), WriteFault>
    ensures { WritesBytes O.Sink (name.now ++ (table_text table.now ++ codes "\n"))
        sink.old sink.new result }
{
    let mut line = Line::starting(alloc, name)?;
    line.table(alloc, table)?;
    line.write(sink)
}

// Writes the table of the meet of two right congruences.
fn write_meet<O: Sink>(
    alloc: Global,
    s: &WordGraph,
    t: &WordGraph,
    sink: &mut O,
) -> Result<(), WriteFault>
    requires { HaveOneWidth s.now t.now }
    ensures { (k : ℕ) → AreTables k s.now t.now → Writes O.Sink (λ _. AreBytesOf
        (IsTableAnswer meet_line k (Meet s.now t.now))) sink.old sink.new result }
{
    let table = meet(alloc, s, t)?;
    write_named(alloc, b"meet ", &table, sink)
}

// Writes the table of the join of two right congruences.
fn write_join<O: Sink>(
    alloc: Global,
    s: &WordGraph,
    t: &WordGraph,
    sink: &mut O,
) -> Result<(), WriteFault>
    requires { HaveOneWidth s.now t.now }
    ensures { (k : ℕ) → AreTables k s.now t.now → Writes O.Sink (λ _. AreBytesOf
        (IsTableAnswer join_line k (Join k s.now t.now))) sink.old sink.new result }
{
    let table = join(alloc, s, t)?;
    write_named(alloc, b"join ", &table, sink)
}

/// Writes the answer of a query that waits for no decision: the value of a word, a page of tables
/// of low index, a meet or a join. Tables are searched for with so many workers, which change no
/// answer; with more than one each part of the search is behind the gate.
pub fn write_told<R: Threads + Sync, O: Sink, G: Gate + Sync>(
    rt: &R,
    alloc: Global,
    problem: &Problem,
    query: &Query,
    workers: usize,
    sink: &mut O,
    gate: &G,
) -> Result<(), WriteFault>
    requires query { IsQueryOf problem.now query.now }
    requires told { awaited_by query.now ≡ Awaited.Nothing }
    requires workers { 0 < workers }
    ensures { (bound : ℕ) → Writes O.Sink (λ _. AreBytesOf
        (AreLines problem.now bound query.now)) sink.old sink.new result }
{
    match query {
        Query::ElementOf(word) => write_element(alloc, problem, word, sink),
        Query::LowIndex {
            two_sided,
            classes,
            count,
            after,
        } => {
            let page = find_page(
                rt,
                alloc,
                problem,
                *two_sided,
                *classes,
                after.as_ref(),
                *count,
                workers,
                gate,
            )?;
            write_page(alloc, &page, sink)
        }
        Query::Meet(s, t) => write_meet(alloc, s, t, sink),
        Query::Join(s, t) => write_join(alloc, s, t, sink),
        Query::Index
        | Query::Equal(..)
        | Query::Normal(_)
        | Query::Classes { .. }
        | Query::RuleList
        | Query::Cayley
        | Query::Chain(..)
        | Query::Green(_)
        | Query::Idempotents => unreachable!(),
    }
}
