// The texts of the words of elements.
ghost use Rattle.std.specs.Prelude.{◌≡◌, ◌<◌, ◌≤◌, ◌++◌, ◌+◌, ◌^◌, ℕ, List, [], length, slice_index_or, codes, OnOk, IfOk, IfSome, MatchOption};
ghost use Rattle.std.specs.List.{slice_range};
ghost use Rattle.theory.specs.Word.{Word as Letters, IsOver};
ghost use Rattle.words.specs.WordText.{bytes_of, text_of};
ghost use Rattle.froidure_pin.specs.Found.{word_or_none};
ghost use Rattle.report_lines.specs.Blocks.{block_at, place_in};
ghost use Rattle.report_lines.specs.Texts.{AreTexts, IsInBlock, MayBeginAt};

use crate::blocks::{Block, begin_block, block_of};
use froidure_pin::Words;
use ports::NoMemory;
use std::alloc::Global;
use std::marker::Model;
use std::ops::Range;
use words::Alphabet;

/// The texts of the words of elements, each behind a space. In short-lex order of the words, few
/// blocks tell where the texts stand.
#[derive(Drop)]
pub struct Texts {
    bytes: Vec<u8>,
    blocks: Vec<Block>,
    count: usize,
}

impl Model for Texts {
    ghost use Rattle.report_lines.specs.Texts.{JoinedTexts};

    ghost Value = { JoinedTexts };

    ghost view = { λ t. record {
      bytes = t.bytes.items;
      blocks = t.blocks.items;
      count = t.count;
    } };
}

impl Texts {
    /// The texts of all the words, which are words over the alphabet. Only want of memory refuses
    /// it.
    pub fn new(alloc: Global, alphabet: &Alphabet, words: &Words) -> Result<Texts, NoMemory>
        requires { (i : ℕ) → i < length words.now
            → IsOver (length alphabet.now) (slice_index_or words.now i []) }
        ensures count { IfOk result (λ t. t.count ≡ length words.now) }
        ensures texts { IfOk result (AreTexts alphabet.now words.now) }
    {
        let mut texts = Texts {
            bytes: Vec::new(alloc),
            blocks: Vec::new(alloc),
            count: 0,
        };
        let mut block = 0;
        for _ in 0..words.len() {
            block = texts.add(alphabet, words, block)?;
        }
        Ok(texts)
    }

    // Adds the text of the next word: that of the word without its last letter, whose block is
    // sought from one on that is near it and then returned, and this letter.
    fn add(&mut self, alphabet: &Alphabet, words: &Words, near: usize) -> Result<usize, NoMemory>
        requires fits { length words.now < 2 ^ 64 }
        requires more { self.old.count < length words.now }
        requires over { IsOver (length alphabet.now) (slice_index_or words.now self.old.count []) }
        requires texts { AreTexts alphabet.now words.now self.old }
        requires near { MayBeginAt self.old near }
        ensures count { OnOk result (self.new.count ≡ self.old.count + 1) }
        ensures texts { OnOk result (AreTexts alphabet.now words.now self.new) }
        ensures near { IfOk result (MayBeginAt self.new) }
    {
        let (prefix, last) = words.factors(self.count);
        let before = self.block_before(near, prefix);
        let letters = self.letters(before, prefix);
        let place = self.bytes.len();
        self.bytes.push(b' ')?;
        self.bytes.extend_from_within(letters)?;
        self.bytes.push(alphabet.byte(last))?;
        let block = Block {
            first: self.count,
            place,
            width: self.bytes.len() - place,
        };
        begin_block(&mut self.blocks, block)?;
        self.count += 1;
        Ok(before)
    }

    // The block of a number, sought from one that is near it, or the first one where there is no
    // number.
    fn block_before(&self, near: usize, number: Option<usize>) -> usize
        requires near { MayBeginAt self.now near }
        requires number { IfSome number (λ i. i < self.now.count) }
        requires texts { (alphabet : List ℕ) × (words : List Letters)
            × AreTexts alphabet words self.now }
        ensures { MatchOption number (result ≡ 0) (IsInBlock self.now result) }
    {
        match number {
            Some(number) => self.block_of(near, number),
            None => 0,
        }
    }

    // Where the letters of the word of a number of this block stand, or nothing where there is no
    // number.
    fn letters(&self, block: usize, number: Option<usize>) -> Range<usize>
        requires number { IfSome number (IsInBlock self.now block) }
        requires texts { (alphabet : List ℕ) × (words : List Letters)
            × AreTexts alphabet words self.now }
        ensures order { result.start ≤ result.end }
        ensures within { result.end ≤ length self.now.bytes }
        ensures letters { (alphabet : List ℕ) (words : List Letters)
            → AreTexts alphabet words self.now
            → slice_range self.now.bytes result.start result.end
            ≡ bytes_of alphabet (word_or_none words number) }
    {
        match number {
            Some(number) => {
                let place = self.place(block, number);
                place.start + 1..place.end
            }
            None => 0..0,
        }
    }

    // Where the text of a number of this block stands, with the space before it.
    fn place(&self, block: usize, number: usize) -> Range<usize>
        requires block { IsInBlock self.now block number }
        requires texts { (alphabet : List ℕ) × (words : List Letters)
            × AreTexts alphabet words self.now }
        ensures start { result.start ≡ place_in (block_at self.now.blocks block) number }
        ensures end { result.end ≡ result.start + (block_at self.now.blocks block).width }
    {
        let block = self.blocks[block];
        let start = block.place_of(number);
        start..start + block.width
    }

    /// The block of a number, sought from one that is near it.
    pub fn block_of(&self, near: usize, number: usize) -> usize
        requires near { MayBeginAt self.now near }
        requires number { number < self.now.count }
        requires texts { (alphabet : List ℕ) × (words : List Letters)
            × AreTexts alphabet words self.now }
        ensures { IsInBlock self.now result number }
    {
        block_of(&self.blocks, near, number)
    }

    /// The text of the word of a number of this block.
    pub fn text(&self, block: usize, number: usize) -> &[u8]
        requires block { IsInBlock self.now block number }
        requires texts { (alphabet : List ℕ) × (words : List Letters)
            × AreTexts alphabet words self.now }
        ensures { (alphabet : List ℕ) (words : List Letters)
            → AreTexts alphabet words self.now
            → result.now ≡ text_of alphabet (slice_index_or words number []) }
    {
        &self.behind_space(block, number)[1..]
    }

    /// The text of the word of a number of this block, behind a space.
    pub fn behind_space(&self, block: usize, number: usize) -> &[u8]
        requires block { IsInBlock self.now block number }
        requires texts { (alphabet : List ℕ) × (words : List Letters)
            × AreTexts alphabet words self.now }
        ensures { (alphabet : List ℕ) (words : List Letters)
            → AreTexts alphabet words self.now
            → result.now ≡ codes " " ++ text_of alphabet (slice_index_or words number []) }
    {
        &self.bytes[self.place(block, number)]
    }
}
