//! What a program writes of its input, or says of a refusal.
ghost use Rattle.std.specs.Prelude.{string_bytes, OnOk};
ghost use Rattle.std.specs.Io.KnownBytes.{Appends};

use std::io;
use std::io::Write;

/// What goes to standard output, and what to standard error. Of the two one is empty.
#[derive(Debug, Drop)]
pub struct Reply {
    pub output: Vec<u8>,
    pub line: String,
}

impl Reply {
    pub fn write<W: Write, E: Write>(&self, to: &mut W, errors: &mut E) -> io::Result<()>
        ensures output { OnOk result (Appends (W.contents to.old) (W.contents to.new) self.now.output.items) }
        ensures line { OnOk result (Appends (E.contents errors.old) (E.contents errors.new) (string_bytes self.now.line)) }
    {
        let lent = LentReply {
            output: &self.output,
            line: self.line.as_str(),
        };
        lent.write(to, errors)
    }
}

/// A reply whose texts are lent, so that it needs no memory of its own.
#[derive(Clone, Copy, Debug)]
pub struct LentReply<'a> {
    pub output: &'a [u8],
    pub line: &'a str,
}

impl LentReply<'_> {
    pub fn write<W: Write, E: Write>(&self, to: &mut W, errors: &mut E) -> io::Result<()>
        ensures output { OnOk result (Appends (W.contents to.old) (W.contents to.new) self.now.output.now) }
        ensures line { OnOk result (Appends (E.contents errors.old) (E.contents errors.new) self.now.line.now) }
    {
        to.write_all(self.output)?;
        errors.write_all(self.line.as_bytes())
    }
}
