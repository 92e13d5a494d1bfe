//! What the programs have in common: each reads its whole input, and then writes a reply to it.
ghost use Rattle.std.specs.Prelude.{◌≡◌, List, ℕ, take, string_bytes, IfOk, IfSome, OnOk};
ghost use Rattle.std.specs.Io.KnownBytes.{Appends};

use crate::read_input;
use crate::reply::Reply;
use std::alloc::{AllocError, Global};
use std::io;
use std::io::{Read, Write};

/// A program, by its replies, which it makes in memory that it asks for.
pub trait Program {
    /// What goes to standard output of an input.
    ghost output: { List ℕ → List ℕ };

    /// What goes to standard error of an input.
    ghost line: { List ℕ → List ℕ };

    /// No more bytes than these count.
    ghost MOST_READ: { ℕ };

    ghost output_enough: { (input : List ℕ) → output (take MOST_READ input) ≡ output input };

    ghost line_enough: { (input : List ℕ) → line (take MOST_READ input) ≡ line input };

    /// One byte more than an input may have, so that a longer one is seen.
    const MOST_READ: usize;

    /// The reply to an input.
    fn reply(alloc: Global, input: &[u8]) -> Result<Reply, AllocError>
        ensures output { IfOk result (λ reply. reply.output.items ≡ output input.now) }
        ensures line { IfOk result (λ reply. string_bytes reply.line ≡ line input.now) };
}

/// From all that is read to all that is written.
pub fn run<P: Program, R: Read + Drop, W: Write, E: Write>(
    alloc: Global,
    from: R,
    to: &mut W,
    errors: &mut E,
) -> io::Result<()>
    ensures output { OnOk result (IfSome (R.remaining from) (λ input. Appends (W.contents to.old) (W.contents to.new) (P.output input))) }
    ensures line { OnOk result (IfSome (R.remaining from) (λ input. Appends (E.contents errors.old) (E.contents errors.new) (P.line input))) }
{
    let most = P::MOST_READ;
    let input = read_input(alloc, from, most)?;
    let reply = P::reply(alloc, &input)?;
    reply.write(to, errors)
}

/// A program that writes its replies itself, and so asks for the memory of its input alone.
pub trait WritingProgram {
    /// What goes to standard output of an input.
    ghost output: { List ℕ → List ℕ };

    /// What goes to standard error of an input.
    ghost line: { List ℕ → List ℕ };

    /// No more bytes than these count.
    ghost MOST_READ: { ℕ };

    ghost output_enough: { (input : List ℕ) → output (take MOST_READ input) ≡ output input };

    ghost line_enough: { (input : List ℕ) → line (take MOST_READ input) ≡ line input };

    /// One byte more than an input may have, so that a longer one is seen.
    const MOST_READ: usize;

    /// Writes the reply to an input.
    fn reply<W: Write, E: Write>(input: &[u8], to: &mut W, errors: &mut E) -> io::Result<()>
        ensures output { OnOk result (Appends (W.contents to.old) (W.contents to.new) (output input.now)) }
        ensures line { OnOk result (Appends (E.contents errors.old) (E.contents errors.new) (line input.now)) };
}

/// From all that is read to all that is written, where the program writes.
pub fn run_writing<P: WritingProgram, R: Read + Drop, W: Write, E: Write>(
    alloc: Global,
    from: R,
    to: &mut W,
    errors: &mut E,
) -> io::Result<()>
    ensures output { OnOk result (IfSome (R.remaining from) (λ input. Appends (W.contents to.old) (W.contents to.new) (P.output input))) }
    ensures line { OnOk result (IfSome (R.remaining from) (λ input. Appends (E.contents errors.old) (E.contents errors.new) (P.line input))) }
{
    let input = read_input(alloc, from, P::MOST_READ)?;
    P::reply(&input, to, errors)
}
