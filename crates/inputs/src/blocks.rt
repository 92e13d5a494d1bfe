//! A writer with a place of its own.
ghost use Rattle.std.specs.Prelude.{◌≡◌, ◌+◌, [], length, IfOk, OnOk};
ghost use Rattle.std.specs.Io.KnownBytes.{Keeps, append_known};

use arrayvec::ArrayVec;
use std::io;
use std::io::Write;

/// Hands on what is written block by block, and takes nothing of the heap. What the last block holds is handed on by `flush` alone, which
/// does not try again where a write is interrupted.
#[derive(Drop)]
pub struct BlockWriter<W> {
    to: W,
    block: ArrayVec<u8, 8192>,
}

impl<W: Write> BlockWriter<W> {
    pub fn new(to: W) -> BlockWriter<W>
        ensures to { result.to ≡ to }
        ensures empty { result.block.items ≡ [] }
    {
        BlockWriter {
            to,
            block: ArrayVec::new(),
        }
    }

    /// Hands on the front of the block, and gives how much of it.
    fn hand_on(&mut self) -> io::Result<usize>
        ensures bytes { Keeps (append_known (W.contents self.old.to) self.old.block.items) (append_known (W.contents self.new.to) self.new.block.items) }
        ensures rest { IfOk result (λ handed. length self.new.block.items + handed ≡ length self.old.block.items) }
    {
        let handed = self.to.write(self.block.as_slice())?;
        let mut rest = ArrayVec::new();
        let Ok(()) = rest.try_extend_from_slice(&self.block.as_slice()[handed..]) else {
            unreachable!()
        };
        self.block = rest;
        Ok(handed)
    }
}

impl<W: Write> Write for BlockWriter<W> {
    ghost contents = { λ writer. append_known (W.contents writer.to) writer.block.items };

    fn write(&mut self, buf: &[u8]) -> io::Result<usize> {
        if self.block.is_full() {
            self.hand_on()?;
        }
        self.block.write(buf)
    }

    fn flush(&mut self) -> io::Result<()>
        ensures bytes { Keeps (append_known (W.contents self.old.to) self.old.block.items) (append_known (W.contents self.new.to) self.new.block.items) }
        ensures passed { OnOk result (self.new.block.items ≡ []) }
    {
        while !self.block.is_empty() {
            if self.hand_on()? == 0 {
                return Err(io::Error::from(io::ErrorKind::WriteZero));
            }
        }
        self.to.flush()
    }
}
