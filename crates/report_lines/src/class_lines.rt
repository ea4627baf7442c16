// The lines of classes.
ghost use Rattle.std.specs.Prelude.{◌≡◌, ◌<◌, ◌++◌, ◌∷◌, [], false, length, map, slice_index_or, slice_set, codes, OnOk};
ghost use Rattle.std.specs.List.{flat_map};
ghost use Rattle.ports.specs.Writes.{WritesBytes};
ghost use Rattle.report_lines.specs.Collected.{AreOfWords};
ghost use Rattle.report_lines.specs.LineBytes.{bytes_of};
ghost use Rattle.report_lines.specs.Lines.{end_line};

use crate::line::Line;
use crate::listings::write_end;
use crate::texts::Texts;
use green::Collector;
use ports::{NoMemory, Sink, WriteFault};
use std::alloc::Global;
use std::marker::Model;

/// The lines of classes, which grow by the texts of their numbers. A text is sought near the last
/// one, so where numbers ascend, texts are read one after another.
#[derive(Drop)]
pub struct ClassLines<'a> {
    alloc: Global,
    texts: &'a Texts,
    block: usize,
    lines: Vec<Line>,
}

impl<'a> Model for ClassLines<'a> {
    ghost use Rattle.report_lines.specs.Texts.{MayBeginAt};
    ghost use Rattle.report_lines.specs.Collected.{AreOfWords, TextLines};

    ghost Value = { TextLines };

    ghost view = { λ c. record { texts = c.texts.now; lines = c.lines.items } };

    ghost invariant = { λ c. AreOfWords c.texts.now × MayBeginAt c.texts.now c.block };
}

// Puts a text at the end of the line at a place.
fn put(lines: &mut Vec<Line>, place: usize, text: &[u8]) -> Result<(), NoMemory>
    requires { place < length lines.old.items }
    ensures { OnOk result (lines.new.items
        ≡ slice_set lines.old.items place (slice_index_or lines.old.items place [] ++ text.now)) }
{
    lines[place].text(text)
}

// Writes the line at a place, which is empty afterwards.
fn write_line<O: Sink>(lines: &mut Vec<Line>, place: usize, sink: &mut O) -> Result<(), WriteFault>
    requires { place < length lines.old.items }
    ensures written { WritesBytes O.Sink (slice_index_or lines.old.items place [] ++ codes "\n")
        sink.old sink.new result }
    ensures empty { OnOk result (lines.new.items ≡ slice_set lines.old.items place []) }
{
    lines[place].write_out(sink)
}

// Writes each line.
fn write_lines<O: Sink>(lines: &mut Vec<Line>, sink: &mut O) -> Result<(), WriteFault>
    ensures { WritesBytes O.Sink (flat_map (λ line. line ++ codes "\n") lines.old.items)
        sink.old sink.new result }
{
    for place in 0..lines.len() {
        write_line(lines, place, sink)?;
    }
    Ok(())
}

impl<'a> ClassLines<'a> {
    /// No line yet. The texts are those of some words.
    pub fn new(alloc: Global, texts: &'a Texts) -> ClassLines<'a>
        requires { AreOfWords texts.now }
        ensures { result ≡ record { texts = texts.now; lines = [] } }
    {
        ClassLines {
            alloc,
            texts,
            block: 0,
            lines: Vec::new(alloc),
        }
    }

    /// Writes each line, and the end of the list. The lines are for this one time: what they are
    /// afterwards is not told.
    pub fn write<O: Sink>(&mut self, sink: &mut O) -> Result<(), WriteFault>
        ensures { WritesBytes O.Sink (bytes_of (map (λ line. line ++ codes "\n") self.old.lines
            ++ end_line false ∷ [])) sink.old sink.new result }
    {
        write_lines(&mut self.lines, sink)?;
        write_end(false, sink)
    }
}

impl<'a> Collector for ClassLines<'a> {
    ghost use Rattle.report_lines.specs.Collected.{AreLinesOf};
    ghost use Rattle.report_lines.specs.Texts.{JoinedTexts};

    ghost Source = { JoinedTexts };

    ghost source = { λ c. c.texts };

    ghost bound = { λ texts. texts.count };

    ghost holds = { AreLinesOf };

    // A line of its text, with room for three more, so that small classes do not grow often.
    fn begin(&mut self, number: usize) -> Result<(), NoMemory> {
        self.block = self.texts.block_of(self.block, number);
        let text = self.texts.text(self.block, number);
        let room = text.len().saturating_mul(4);
        self.lines.push(Line::with_room(self.alloc, text, room)?)?;
        Ok(())
    }

    // Its text, behind a space.
    fn add(&mut self, place: usize, number: usize) -> Result<(), NoMemory> {
        self.block = self.texts.block_of(self.block, number);
        let text = self.texts.behind_space(self.block, number);
        put(&mut self.lines, place, text)
    }
}
