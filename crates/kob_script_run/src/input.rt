//! A script as it is read, in blocks of whole lines.

ghost use Rattle.std.specs.List.{concat};
ghost use Rattle.std.specs.Prelude.{◌≡◌, ◌⊎◌, ◌-◌, ◌≤◌, ◌++◌, [], slice_index, length};
ghost use Rattle.std.specs.Prelude.{vec_capacity, IfOk, OnOk};
ghost use Rattle.kob_script.specs.Script.{AreWholeLines};
ghost use Rattle.kob_script_run.specs.Output.{EndLines, bytes_in, block_size};

use crate::limits::BLOCK_SIZE;
use kob_names::Bytes;
use std::alloc::{AllocError, Global};
use std::mem;

/// Blocks of whole lines, and the block that is read into, whose last line may be cut.
#[derive(Drop)]
pub struct Input {
    blocks: Vec<Bytes>,
    last: Vec<u8>,
}

impl Input {
    /// No bytes, and capacity for 65,536.
    pub fn new(alloc: Global) -> Result<Input, AllocError>
        ensures bytes { IfOk result (λ input. bytes_in input ≡ []) }
        ensures room { IfOk result (λ input. block_size ≤ vec_capacity input.last) }
        ensures lines { IfOk result (λ input. EndLines input.blocks.items) }
    {
        let last = Vec::with_capacity(alloc, BLOCK_SIZE)?;
        Ok(Input {
            blocks: Vec::new(alloc),
            last,
        })
    }

    /// Appends bytes. If the last block has no room for them, its whole lines remain a block, and
    /// its cut line is moved to a new one. A line that is longer than a block makes its block
    /// larger.
    pub fn push(&mut self, alloc: Global, piece: &[u8]) -> Result<(), AllocError>
        ensures bytes { OnOk result (bytes_in self.new ≡ bytes_in self.old ++ piece.now) }
        ensures lines { OnOk result (EndLines self.old.blocks.items
            → EndLines self.new.blocks.items) }
    {
        if self.last.capacity() - self.last.len() < piece.len() {
            self.begin_block(alloc)?;
        }
        self.last.extend_from_slice(piece)
    }

    // Begins a block with the cut line, unless there are no lines before it.
    fn begin_block(&mut self, alloc: Global) -> Result<(), AllocError>
        ensures bytes { OnOk result (bytes_in self.new ≡ bytes_in self.old) }
        ensures lines { OnOk result (EndLines self.old.blocks.items
            → EndLines self.new.blocks.items) }
    {
        let end = size_of_lines(&self.last);
        if end == 0 {
            return Ok(());
        }
        let cut = &self.last[end..];
        let mut next = Vec::with_capacity(alloc, BLOCK_SIZE.max(cut.len()))?;
        next.extend_from_slice(cut)?;
        let mut lines = mem::replace(&mut self.last, next);
        lines.truncate(end);
        self.blocks.push(Bytes::from_vec(lines))?;
        Ok(())
    }

    /// The bytes in blocks, of which each but the last ends with a line.
    pub fn into_blocks(self) -> Result<Vec<Bytes>, AllocError>
        ensures bytes { IfOk result (λ blocks. concat blocks.items ≡ bytes_in self) }
        ensures lines { IfOk result (λ blocks. EndLines self.blocks.items
            → AreWholeLines blocks.items) }
    {
        let Input { mut blocks, last } = self;
        blocks.push(Bytes::from_vec(last))?;
        Ok(blocks)
    }
}

// How many bytes the whole lines at the front have.
fn size_of_lines(bytes: &[u8]) -> usize
    ensures within { result ≤ length bytes.now }
    ensures line { (result ≡ 0) ⊎ (slice_index bytes.now (result - 1) ≡ 10) }
{
    match bytes.iter().rposition(|byte| *byte == b'\n') {
        Some(at) => at + 1,
        None => 0,
    }
}
