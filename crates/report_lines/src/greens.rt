// Green's classes and idempotents, as lines.
ghost use Rattle.std.specs.Prelude.{◌≡◌, ◌<◌, ◌≤◌, ◌++◌, ◌∷◌, ℕ, List, [], length, map, slice_index_or, All, IfOk, OnOk, false};
ghost use Rattle.ports.specs.Writes.{Writes, WritesBytes};
ghost use Rattle.theory.specs.Green.{AreClasses};
ghost use Rattle.cayley.specs.Tables.{FitTogether};
ghost use Rattle.green.specs.Known.{AreNamesIn, HasNames, KeepsNames};
ghost use Rattle.green.specs.Related.{AreRelated, DoCommute};
ghost use Rattle.element_tables.specs.CayleyGraphs.{AreTablesFor};
ghost use Rattle.problem.specs.Problem.{HasOneShape, letters_of, pairs_of};
ghost use Rattle.report_lines.specs.Collected.{AreLinesOf, AreOfWords};
ghost use Rattle.report_lines.specs.LineBytes.{AreBytesOf, bytes_of};
ghost use Rattle.report_lines.specs.Greens.{AreGreenLines, AreIdempotentLines};
ghost use Rattle.report_lines.specs.Lines.{end_line, word_line};
ghost use Rattle.report_lines.specs.Known.{AreKnownOf, HasGreen, KeepsKnown};

use crate::class_lines::ClassLines;
use crate::known::KnownElements;
use crate::listings::{write_end, write_word};
use crate::texts::Texts;
use froidure_pin::CayleyTables;
use green::{ClassNames, Relation};
use ports::{NoMemory, Sink, WriteFault};
use problem::Problem;
use std::alloc::Global;

// Collects the classes of the elements under one of Green's relations, as lines of their texts.
fn class_lines<'a>(
    alloc: Global,
    tables: &CayleyTables,
    relation: Relation,
    names: &mut ClassNames,
    texts: &'a Texts,
) -> Result<ClassLines<'a>, NoMemory>
    requires fit { FitTogether tables.now }
    requires commute { DoCommute tables.now }
    requires known { AreNamesIn tables.now names.old }
    requires texts { AreOfWords texts.now }
    requires count { length tables.now.words ≤ texts.now.count }
    ensures known { AreNamesIn tables.now names.new }
    ensures kept { KeepsNames names.old names.new }
    ensures found { OnOk result (HasNames relation names.new) }
    ensures texts { IfOk result (λ c. c.texts ≡ texts.now) }
    ensures lines { IfOk result (λ c. (classes : List (List ℕ))
        × AreClasses (length tables.now.words) (AreRelated relation tables.now) classes
        × AreLinesOf c classes) }
{
    let mut lines = ClassLines::new(alloc, texts);
    names.collect(alloc, tables, relation, &mut lines)?;
    Ok(lines)
}

// Writes the words of these numbers, and the end of the list.
fn write_words<O: Sink>(
    alloc: Global,
    problem: &Problem,
    tables: &CayleyTables,
    numbers: &[usize],
    sink: &mut O,
) -> Result<(), WriteFault>
    requires tables { AreTablesFor problem.now tables.now }
    requires numbers { All (λ i. i < length tables.now.words) numbers.now }
    ensures { WritesBytes O.Sink (bytes_of (map (λ i.
        word_line (letters_of problem.now) (slice_index_or tables.now.words i [])) numbers.now
        ++ end_line false ∷ [])) sink.old sink.new result }
{
    for number in numbers {
        let word = tables.words.word(*number)?;
        write_word(alloc, problem.alphabet(), &word, sink)?;
    }
    write_end(false, sink)
}

/// Writes a line for each class of elements under one of Green's relations, by the least words of
/// its elements, and the end of the list. The tables are those of the problem, which has generators
/// and no pairs. What is found on the way is known afterwards. Refusals are those of `Line::write`;
/// the sink has then gained a prefix of these lines.
pub fn write_green<O: Sink>(
    alloc: Global,
    problem: &Problem,
    tables: &CayleyTables,
    elements: &mut KnownElements,
    relation: Relation,
    sink: &mut O,
) -> Result<(), WriteFault>
    requires tables { AreTablesFor problem.now tables.now }
    requires shape { HasOneShape problem.now }
    requires unpaired { pairs_of problem.now ≡ [] }
    requires known { AreKnownOf problem.now elements.old }
    ensures known { AreKnownOf problem.now elements.new }
    ensures kept { KeepsKnown elements.old elements.new }
    ensures found { OnOk result (HasGreen relation elements.new) }
    ensures written { Writes O.Sink (λ _. AreBytesOf (AreGreenLines relation problem.now))
        sink.old sink.new result }
{
    elements.find_texts(alloc, problem, tables)?;
    let texts = elements.texts.as_ref().unwrap();
    let mut lines = class_lines(alloc, tables, relation, &mut elements.names, texts)?;
    lines.write(sink)
}

/// Writes the least words of the idempotents, and the end of the list. The tables are those of the
/// problem, which has generators and no pairs. What is found on the way is known afterwards.
/// Refusals are those of `Line::write`; the sink has then gained a prefix of these lines.
pub fn write_idempotents<O: Sink>(
    alloc: Global,
    problem: &Problem,
    tables: &CayleyTables,
    elements: &mut KnownElements,
    sink: &mut O,
) -> Result<(), WriteFault>
    requires tables { AreTablesFor problem.now tables.now }
    requires shape { HasOneShape problem.now }
    requires unpaired { pairs_of problem.now ≡ [] }
    requires known { AreKnownOf problem.now elements.old }
    ensures known { AreKnownOf problem.now elements.new }
    ensures kept { KeepsKnown elements.old elements.new }
    ensures found { OnOk result (HasNames Relation.H elements.new.names) }
    ensures written { Writes O.Sink (λ _. AreBytesOf (AreIdempotentLines problem.now))
        sink.old sink.new result }
{
    let found = elements.idempotents(alloc, problem, tables)?;
    write_words(alloc, problem, tables, &found, sink)
}
