// Answers of many lines.
ghost use Rattle.std.specs.Prelude.{◌++◌, ◌∷◌, [], map, length, false, All};
ghost use Rattle.ports.specs.Writes.{TellsRefusals, WritesBytes};
ghost use Rattle.theory.specs.Word.{IsOver};
ghost use Rattle.report_lines.specs.LineBytes.{bytes_of};
ghost use Rattle.report_lines.specs.Lines.{end_line, rule_line, word_line};

use crate::line::Line;
use ports::{Sink, WriteFault, write_all};
use std::alloc::Global;
use words::{Alphabet, Word};

/// Writes the line of a word. Refusals are those of `Line::write`.
pub fn write_word<O: Sink>(
    alloc: Global,
    alphabet: &Alphabet,
    word: &Word,
    sink: &mut O,
) -> Result<(), WriteFault>
    requires { IsOver (length alphabet.now) word.now }
    ensures { WritesBytes O.Sink (word_line alphabet.now word.now) sink.old sink.new result }
{
    let line = Line::of_word(alloc, alphabet, word)?;
    line.write(sink)
}

/// Writes the line that ends a listing, which tells whether there is more than was listed. It asks
/// for no memory; refusals are those of `write_all`.
pub fn write_end<O: Sink>(more: bool, sink: &mut O) -> Result<(), WriteFault>
    ensures bytes { WritesBytes O.Sink (end_line more) sink.old sink.new result }
    ensures refusals { TellsRefusals O.Sink sink.old sink.new result }
{
    if more {
        write_all(sink, b"more\n")
    } else {
        write_all(sink, b"end\n")
    }
}

/// Writes the lines of words, and the end of the list. Refusals are those of `Line::write`; the
/// sink has then gained a prefix of these lines.
pub fn write_words<O: Sink>(
    alloc: Global,
    alphabet: &Alphabet,
    words: &Vec<Word>,
    sink: &mut O,
) -> Result<(), WriteFault>
    requires { All (IsOver (length alphabet.now)) words.now.items }
    ensures { WritesBytes O.Sink (bytes_of (map (word_line alphabet.now) words.now.items
        ++ end_line false ∷ [])) sink.old sink.new result }
{
    for word in words {
        write_word(alloc, alphabet, word, sink)?;
    }
    write_end(false, sink)
}

// Writes the line of a rule.
fn write_rule<O: Sink>(
    alloc: Global,
    alphabet: &Alphabet,
    rule: &(Word, Word),
    sink: &mut O,
) -> Result<(), WriteFault>
    requires left { IsOver (length alphabet.now) rule.now.0 }
    requires right { IsOver (length alphabet.now) rule.now.1 }
    ensures { WritesBytes O.Sink (rule_line alphabet.now rule.now) sink.old sink.new result }
{
    let mut line = Line::of_word(alloc, alphabet, &rule.0)?;
    line.text(b" ")?;
    line.word(alloc, alphabet, &rule.1)?;
    line.write(sink)
}

/// Writes rules, the left side of each before the right one, and the end of the list. Refusals are
/// those of `Line::write`; the sink has then gained a prefix of these lines.
pub fn write_rules<O: Sink>(
    alloc: Global,
    alphabet: &Alphabet,
    rules: &Vec<(Word, Word)>,
    sink: &mut O,
) -> Result<(), WriteFault>
    requires { All (λ rule. IsOver (length alphabet.now) rule.0
        × IsOver (length alphabet.now) rule.1) rules.now.items }
    ensures { WritesBytes O.Sink (bytes_of (map (rule_line alphabet.now) rules.now.items
        ++ end_line false ∷ [])) sink.old sink.new result }
{
    for rule in rules {
        write_rule(alloc, alphabet, rule, sink)?;
    }
    write_end(false, sink)
}
