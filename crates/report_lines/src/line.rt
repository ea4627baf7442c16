// Lines that are put together.
ghost use Rattle.std.specs.Prelude.{◌≡◌, ◌++◌, [], length, decimal, codes, OnOk, IfOk};
ghost use Rattle.theory.specs.Word.{IsOver};
ghost use Rattle.words.specs.WordText.{text_of};
ghost use Rattle.table_texts.specs.TableText.{table_text};
ghost use Rattle.ports.specs.Writes.{WritesBytes};

use itoa::Buffer;
use ports::{NoMemory, Sink, WriteFault, write_all};
use std::alloc::Global;
use std::marker::Model;
use table_texts::print_table;
use word_graph::WordGraph;
use words::{Alphabet, Word};

/// A line that is put together, and then written as one piece. Contracts see its bytes.
#[derive(Drop)]
pub struct Line {
    bytes: Vec<u8>,
}

impl Model for Line {
    ghost use Rattle.std.specs.Prelude.{List, ℕ};

    ghost Value = { List ℕ };

    ghost view = { λ l. l.bytes.items };
}

impl Line {
    /// A line that begins with a text. Only want of memory refuses it.
    pub fn starting(alloc: Global, text: &[u8]) -> Result<Line, NoMemory>
        ensures { IfOk result (λ line. line ≡ text.now) }
    {
        let bytes = Vec::from_slice(alloc, text)?;
        Ok(Line { bytes })
    }

    /// A line that begins with a text, with room for so many bytes at least. Only want of memory
    /// refuses it.
    pub(crate) fn with_room(alloc: Global, text: &[u8], room: usize) -> Result<Line, NoMemory>
        ensures { IfOk result (λ line. line ≡ text.now) }
    {
        let mut bytes = Vec::with_capacity(alloc, room)?;
        bytes.extend_from_slice(text)?;
        Ok(Line { bytes })
    }

    /// A line that begins with a word. Only want of memory refuses it.
    pub(crate) fn of_word(alloc: Global, alphabet: &Alphabet, word: &Word) -> Result<Line, NoMemory>
        requires { IsOver (length alphabet.now) word.now }
        ensures { IfOk result (λ line. line ≡ text_of alphabet.now word.now) }
    {
        let bytes = alphabet.print_word(alloc, word)?;
        Ok(Line { bytes })
    }

    /// A line that begins with a table. Only want of memory refuses it.
    pub(crate) fn of_table(alloc: Global, table: &WordGraph) -> Result<Line, NoMemory>
        ensures { IfOk result (λ line. line ≡ table_text table.now) }
    {
        let bytes = print_table(table, alloc)?;
        Ok(Line { bytes })
    }

    /// Puts a text at the end. Only want of memory refuses it.
    pub fn text(&mut self, text: &[u8]) -> Result<(), NoMemory>
        ensures { OnOk result (self.new ≡ self.old ++ text.now) }
    {
        self.bytes.extend_from_slice(text)?;
        Ok(())
    }

    /// Puts a number in decimal at the end. Only want of memory refuses it.
    pub fn number(&mut self, number: usize) -> Result<(), NoMemory>
        ensures { OnOk result (self.new ≡ self.old ++ decimal number) }
    {
        let mut buffer = Buffer::new();
        self.text(buffer.format(number).as_bytes())
    }

    /// Puts a word at the end. Only want of memory refuses it.
    pub(crate) fn word(
        &mut self,
        alloc: Global,
        alphabet: &Alphabet,
        word: &Word,
    ) -> Result<(), NoMemory>
        requires { IsOver (length alphabet.now) word.now }
        ensures { OnOk result (self.new ≡ self.old ++ text_of alphabet.now word.now) }
    {
        self.text(alphabet.print_word(alloc, word)?.as_slice())
    }

    /// Puts a table at the end. Only want of memory refuses it.
    pub fn table(&mut self, alloc: Global, table: &WordGraph) -> Result<(), NoMemory>
        ensures { OnOk result (self.new ≡ self.old ++ table_text table.now) }
    {
        self.text(print_table(table, alloc)?.as_slice())
    }

    /// Ends the line with a line feed, writes it, and leaves it empty for the next one, with its
    /// memory. `Failed` comes only where the sink failed; after a refusal the sink has gained a
    /// prefix of the line.
    pub(crate) fn write_out<O: Sink>(&mut self, sink: &mut O) -> Result<(), WriteFault>
        ensures written { WritesBytes O.Sink (self.old ++ codes "\n") sink.old sink.new result }
        ensures empty { OnOk result (self.new ≡ []) }
    {
        self.text(b"\n")?;
        write_all(sink, self.bytes.as_slice())?;
        self.bytes.clear();
        Ok(())
    }

    /// Ends the line with a line feed, and writes it for the last time. `Failed` comes only where
    /// the sink failed, and `NoMemory` for want of memory; the sink has then gained a prefix of the
    /// line.
    pub fn write<O: Sink>(mut self, sink: &mut O) -> Result<(), WriteFault>
        ensures { WritesBytes O.Sink (self ++ codes "\n") sink.old sink.new result }
    {
        self.write_out(sink)
    }
}
