// Pages of tables of low index.
ghost use Rattle.std.specs.Prelude.{◌≡◌, ◌<◌, ◌≤◌, length, true, IfOk, IfSome};
ghost use Rattle.std.specs.Option.{option_copied};
ghost use Rattle.ports.specs.Writes.{WritesBytes};
ghost use Rattle.word_graph.specs.Standard.{IsStandardGraph};
ghost use Rattle.problem.specs.Problem.{is_presented, letters_of};
ghost use Rattle.report_lines.specs.TableLines.{AreTableLines};
ghost use Rattle.report_lines.specs.LineBytes.{bytes_of};
ghost use Rattle.report_lines.specs.Lines.{graph_line, page_lines};

use crate::line::Line;
use crate::listings::write_end;
use ports::{Gate, NoMemory, Sink, WriteFault};
use problem::Problem;
use sims_one::{MOST_CLASSES, TablePage, page, page_two_sided};
use std::alloc::Global;
use std::thread::Threads;
use word_graph::WordGraph;

/// Finds a page: the first so many standard tables of right congruences of at most so many classes,
/// or of two-sided ones alone, after a table if there is one, and whether there are more (Sims
/// 1994, 5.6; libsemigroups, `Sims1`, `Sims2`). It is searched for with so many workers, at least
/// one, which change no answer; with several each part of the search is behind the gate. Refused
/// only where memory is wanting.
pub fn find_page<R: Threads + Sync, G: Gate + Sync>(
    rt: &R,
    alloc: Global,
    problem: &Problem,
    two_sided: bool,
    classes: usize,
    after: Option<&WordGraph>,
    count: usize,
    workers: usize,
    gate: &G,
) -> Result<TablePage, NoMemory>
    requires presented { is_presented problem.now ≡ true }
    requires some { 1 ≤ classes }
    requires classes { classes ≤ MOST_CLASSES }
    requires after { IfSome (option_copied after)
        (IsStandardGraph (length (letters_of problem.now))) }
    requires workers { 0 < workers }
    ensures { IfOk result (λ page. AreTableLines problem.now two_sided classes count
        (option_copied after.entry) (page_lines graph_line page.tables.items page.more)) }
{
    let _letters = problem.alphabet();
    let Problem::Presented(congruence) = problem else {
        unreachable!()
    };
    let presentation = congruence.presentation();
    if two_sided {
        page_two_sided(
            rt,
            alloc,
            presentation,
            classes,
            after,
            count,
            workers,
            gate,
        )
    } else {
        page(
            rt,
            alloc,
            presentation,
            classes,
            after,
            count,
            workers,
            gate,
        )
    }
}

// Writes the line of a table.
fn write_table<O: Sink>(alloc: Global, table: &WordGraph, sink: &mut O) -> Result<(), WriteFault>
    ensures { WritesBytes O.Sink (graph_line table.now) sink.old sink.new result }
{
    let line = Line::of_table(alloc, table)?;
    line.write(sink)
}

/// Writes a line for each table of a page, and whether there are more. Refusals are those of
/// `Line::write`; the sink has then gained a prefix of these lines.
pub fn write_page<O: Sink>(alloc: Global, page: &TablePage, sink: &mut O) -> Result<(), WriteFault>
    ensures { WritesBytes O.Sink (bytes_of
        (page_lines graph_line page.now.tables.items page.now.more)) sink.old sink.new result }
{
    for table in &page.tables {
        write_table(alloc, table, sink)?;
    }
    write_end(page.more, sink)
}
