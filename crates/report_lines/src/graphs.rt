// The Cayley graphs, as lines.
ghost use Rattle.std.specs.Prelude.{◌≡◌, ◌<◌, ◌++◌, ◌∷◌, [], length, slice_index_or, OnOk, IfOk, codes, decimal, false};
ghost use Rattle.ports.specs.Writes.{WritesBytes};
ghost use Rattle.words.specs.WordText.{text_of};
ghost use Rattle.cayley.specs.Tables.{edge};
ghost use Rattle.element_tables.specs.CayleyGraphs.{AreTablesFor};
ghost use Rattle.problem.specs.Problem.{count_of, letters_of};
ghost use Rattle.report_lines.specs.Lines.{cayley_line, cayley_lines, end_line, numbers_text};
ghost use Rattle.report_lines.specs.LineBytes.{bytes_of};

use crate::line::Line;
use crate::listings::write_end;
use froidure_pin::{CayleyTables, Rows};
use ports::{NoMemory, Sink, WriteFault};
use problem::Problem;
use std::alloc::Global;

// Puts the numbers of a row at the end of a line, each after a space.
fn put_row(rows: &Rows, row: usize, line: &mut Line) -> Result<(), NoMemory>
    requires { row < length rows.now }
    ensures { OnOk result (line.new ≡ line.old
        ++ numbers_text (length (slice_index_or rows.now row [])) (edge rows.now row)) }
{
    for letter in 0..rows.width() {
        line.text(b" ")?;
        line.number(rows.at(row, letter))?;
    }
    Ok(())
}

// Puts a name at the end of a line, and the numbers of a row, each after a space.
fn put_edges(name: &[u8], rows: &Rows, row: usize, line: &mut Line) -> Result<(), NoMemory>
    requires { row < length rows.now }
    ensures { OnOk result (line.new ≡ line.old ++ (name.now
        ++ numbers_text (length (slice_index_or rows.now row [])) (edge rows.now row))) }
{
    line.text(name)?;
    put_row(rows, row, line)
}

// Puts the number of an element and its least word at the end of a line.
fn put_element(
    alloc: Global,
    problem: &Problem,
    tables: &CayleyTables,
    number: usize,
    line: &mut Line,
) -> Result<(), NoMemory>
    requires tables { AreTablesFor problem.now tables.now }
    requires number { number < length tables.now.words }
    ensures { OnOk result (line.new ≡ line.old ++ (decimal number ++ (codes " "
        ++ text_of (letters_of problem.now) (slice_index_or tables.now.words number [])))) }
{
    line.number(number)?;
    line.text(b" ")?;
    line.word(alloc, problem.alphabet(), &tables.words.word(number)?)
}

// The line of an element, without its end.
fn row_of(
    alloc: Global,
    problem: &Problem,
    tables: &CayleyTables,
    number: usize,
) -> Result<Line, NoMemory>
    requires tables { AreTablesFor problem.now tables.now }
    requires number { number < length tables.now.words }
    ensures { IfOk result (λ line. line ++ codes "\n"
        ≡ cayley_line (letters_of problem.now) (count_of problem.now) number
        (slice_index_or tables.now.words number [])
        (edge tables.now.right number) (edge tables.now.left number)) }
{
    let mut line = Line::starting(alloc, b"")?;
    put_element(alloc, problem, tables, number, &mut line)?;
    put_edges(b" right", &tables.right, number, &mut line)?;
    put_edges(b" left", &tables.left, number, &mut line)?;
    Ok(line)
}

/// Writes a line for each element, and the end of the list: its number and its least word, and the
/// numbers of its products by each letter on the right and on the left. The tables are those of the
/// problem. Refusals are those of `Line::write`; the sink has then gained a prefix of these lines.
pub fn write_cayley<O: Sink>(
    alloc: Global,
    problem: &Problem,
    tables: &CayleyTables,
    sink: &mut O,
) -> Result<(), WriteFault>
    requires { AreTablesFor problem.now tables.now }
    ensures { WritesBytes O.Sink (bytes_of (cayley_lines (letters_of problem.now)
        (count_of problem.now) tables.now.words (edge tables.now.right) (edge tables.now.left)
        ++ end_line false ∷ [])) sink.old sink.new result }
{
    for number in 0..tables.words.len() {
        row_of(alloc, problem, tables, number)?.write(sink)?;
    }
    write_end(false, sink)
}
