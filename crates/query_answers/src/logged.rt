// The answers of queries that wait for a completion that logs.
ghost use Rattle.std.specs.Prelude.{◌≡◌, ℕ, ◌<◌, ◌∷◌, length, All, IfOk, List};
ghost use Rattle.ports.specs.Writes.{Writes, WritesBytes};
ghost use Rattle.theory.specs.Word.{IsOver, Word as Letters};
ghost use Rattle.chains.specs.Chains.{IsStraight};
ghost use Rattle.problem.specs.Problem.{IsPosable, IsSolvable};
ghost use Rattle.query_lang.specs.Query.{IsQueryOf};
ghost use Rattle.report_lines.specs.LineBytes.{AreBytesOf, bytes_of};
ghost use Rattle.report_lines.specs.Lines.{chain_lines};
ghost use Rattle.query_answers.specs.Answer.{AreLines, awaited_by};
ghost use Rattle.query_answers.specs.Chains.{IsChain, LogsFor, with_its_pairs};

use crate::awaited::Awaited;
use crate::completing::with_its_pairs;
use chains::{ChainStep, words_of};
use knuth_bendix::Completion;
use ports::{NoMemory, Sink, WriteFault, write_all};
use presentation::Congruence;
use problem::Problem;
use query_lang::Query;
use race::Progress;
use report_lines::{Line, write_words};
use std::alloc::Global;
use words::{Alphabet, Word};

// The words of a chain, from its first one on. Refused only where memory is wanting.
fn words_on(
    alloc: Global,
    congruence: &Congruence,
    from: &Word,
    steps: &Vec<ChainStep>,
) -> Result<Vec<Word>, NoMemory>
    requires solvable { IsSolvable congruence.now }
    requires straight { (to : Letters)
        × IsStraight (with_its_pairs congruence.now.congruence) from.now steps.now.items to }
    ensures { (to : Letters)
        → IsStraight (with_its_pairs congruence.now.congruence) from.now steps.now.items to
        → IfOk result (λ words. (behind : List Letters) × (words.items ≡ from.now ∷ behind)
        × IsChain (with_its_pairs congruence.now.congruence) from.now to behind) }
{
    let relations = with_its_pairs(alloc, congruence)?;
    match words_of(alloc, &relations, from, steps)? {
        Some(words) => Ok(words),
        None => unreachable!(),
    }
}

// Writes how many steps a chain has, its words, and the end.
fn write_chain<O: Sink>(
    alloc: Global,
    alphabet: &Alphabet,
    words: &Vec<Word>,
    sink: &mut O,
) -> Result<(), WriteFault>
    requires some { 0 < length words.now.items }
    requires over { All (IsOver (length alphabet.now)) words.now.items }
    ensures { (from : Letters) (behind : List Letters) → words.now.items ≡ from ∷ behind
        → WritesBytes O.Sink (bytes_of (chain_lines alphabet.now from behind))
        sink.old sink.new result }
{
    let mut line = Line::starting(alloc, b"chain ")?;
    line.number(words.len() - 1)?;
    line.write(sink)?;
    write_words(alloc, alphabet, words, sink)
}

/// Writes the answer of a query that waits for a completion that logs, from one that has decided: a
/// chain, or that there is none.
pub fn write_logged<O: Sink>(
    alloc: Global,
    problem: &Problem,
    completion: &Completion,
    query: &Query,
    sink: &mut O,
) -> Result<(), WriteFault>
    requires query { IsQueryOf problem.now query.now }
    requires awaited { awaited_by query.now ≡ Awaited.Log }
    requires posable { IsPosable problem.now }
    requires logs { LogsFor problem.now completion.now }
    requires decided { completion.now.said ≡ Progress.Decided }
    ensures { (bound : ℕ) → Writes O.Sink (λ _. AreBytesOf
        (AreLines problem.now bound query.now)) sink.old sink.new result }
{
    let alphabet = problem.alphabet();
    let Query::Chain(from, to) = query else {
        unreachable!()
    };
    let Problem::Presented(congruence) = problem else {
        unreachable!()
    };
    match completion.chain(from, to)? {
        Some(steps) => {
            let words = words_on(alloc, congruence, from, &steps)?;
            write_chain(alloc, alphabet, &words, sink)
        }
        None => write_all(sink, b"chain no\n"),
    }
}
