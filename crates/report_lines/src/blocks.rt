// Blocks of texts of one width.
ghost use Rattle.std.specs.Prelude.{◌≡◌, ◌+◌, ◌<◌, ◌≤◌, ◌^◌, length, true, OnOk};
ghost use Rattle.report_lines.specs.Blocks.{AreInOrder, IsBlockOf, block_at, last_width, place_in, with_block};

use ports::NoMemory;

/// Texts of one width that stand one behind the other, each behind a space.
#[derive(Clone, Copy)]
pub struct Block {
    /// The number of the first text.
    pub first: usize,

    /// Where the space before the first text stands.
    pub place: usize,

    /// How many bytes each text has with its space.
    pub width: usize,
}

impl Block {
    /// Where the space before the text of a number of the block stands.
    pub fn place_of(&self, number: usize) -> usize
        requires from { self.now.first ≤ number }
        requires fits { place_in self.now number < 2 ^ 64 }
        ensures { result ≡ place_in self.now number }
    {
        self.place + (number - self.first) * self.width
    }
}

// Whether a number stands in the block at a place of the list.
fn is_block_of(blocks: &[Block], block: usize, number: usize) -> bool
    requires { block < length blocks.now }
    ensures { result ≡ true → IsBlockOf blocks.now block number }
{
    blocks[block].first <= number && (block + 1 == blocks.len() || number < blocks[block + 1].first)
}

/// The block of a number: one that is near it, or else found by halving. So where words are long
/// and few have one length, many blocks cost little, too.
pub fn block_of(blocks: &[Block], near: usize, number: usize) -> usize
    requires near { near < length blocks.now }
    requires order { AreInOrder blocks.now }
    requires first { (block_at blocks.now 0).first ≤ number }
    ensures { IsBlockOf blocks.now result number }
{
    if is_block_of(blocks, near, number) {
        return near;
    }
    blocks.partition_point(|block| block.first <= number) - 1
}

// The width of the texts of the last block, or 0 where there is none.
fn last_width(blocks: &[Block]) -> usize
    ensures { result ≡ last_width blocks.now }
{
    match blocks.last() {
        Some(block) => block.width,
        None => 0,
    }
}

/// Begins a block, unless the texts of the last one have its width. Only want of memory refuses it.
pub fn begin_block(blocks: &mut Vec<Block>, block: Block) -> Result<(), NoMemory>
    ensures { OnOk result (blocks.new.items ≡ with_block blocks.old.items block) }
{
    if last_width(blocks) != block.width {
        blocks.push(block)?;
    }
    Ok(())
}
