// Answers of one line.
ghost use Rattle.std.specs.Prelude.{length};
ghost use Rattle.ports.specs.Writes.{TellsRefusals, WritesBytes};
ghost use Rattle.theory.specs.Word.{IsOver};
ghost use Rattle.report_lines.specs.Lines.{count_line, over_line, infinite_line, equal_line, normal_line};

use crate::line::Line;
use ports::{Sink, WriteFault, write_all};
use std::alloc::Global;
use words::{Alphabet, Word};

/// Writes how many classes there are, in decimal. Refusals are those of `Line::write`.
pub fn write_count<O: Sink>(alloc: Global, count: usize, sink: &mut O) -> Result<(), WriteFault>
    ensures { WritesBytes O.Sink (count_line count) sink.old sink.new result }
{
    let mut line = Line::starting(alloc, b"index ")?;
    line.number(count)?;
    line.write(sink)
}

/// Writes that there are more classes than the bound, with the bound in decimal. Refusals are those
/// of `Line::write`.
pub fn write_over<O: Sink>(alloc: Global, bound: usize, sink: &mut O) -> Result<(), WriteFault>
    ensures { WritesBytes O.Sink (over_line bound) sink.old sink.new result }
{
    let mut line = Line::starting(alloc, b"index over ")?;
    line.number(bound)?;
    line.write(sink)
}

/// Writes that there are infinitely many classes. It asks for no memory; refusals are those of
/// `write_all`.
pub fn write_infinite<O: Sink>(sink: &mut O) -> Result<(), WriteFault>
    ensures bytes { WritesBytes O.Sink infinite_line sink.old sink.new result }
    ensures refusals { TellsRefusals O.Sink sink.old sink.new result }
{
    write_all(sink, b"index infinite\n")
}

/// Writes whether two words are related. It asks for no memory; refusals are those of `write_all`.
pub fn write_equal<O: Sink>(same: bool, sink: &mut O) -> Result<(), WriteFault>
    ensures bytes { WritesBytes O.Sink (equal_line same) sink.old sink.new result }
    ensures refusals { TellsRefusals O.Sink sink.old sink.new result }
{
    if same {
        write_all(sink, b"equal yes\n")
    } else {
        write_all(sink, b"equal no\n")
    }
}

/// Writes a normal form. Refusals are those of `Line::write`.
pub fn write_normal_form<O: Sink>(
    alloc: Global,
    alphabet: &Alphabet,
    normal: &Word,
    sink: &mut O,
) -> Result<(), WriteFault>
    requires { IsOver (length alphabet.now) normal.now }
    ensures { WritesBytes O.Sink (normal_line alphabet.now normal.now) sink.old sink.new result }
{
    let mut line = Line::starting(alloc, b"normal ")?;
    line.word(alloc, alphabet, normal)?;
    line.write(sink)
}
