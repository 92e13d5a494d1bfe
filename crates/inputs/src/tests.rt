//! Calls of what no program of this repository calls.
ghost use Rattle.std.specs.Prelude.{codes, refl, take};
ghost use Rattle.std.proofs.Common.{lit≤};
ghost use Rattle.std.proofs.lemmas.List.{take-take};

use crate::program::{Program, run};
use crate::reply::Reply;
use std::alloc::{AllocError, Global};
use std::test::Fail;

/// Gives back the first eight bytes, and says of every input that it was read.
struct FirstEight;

impl Program for FirstEight {
    ghost output = { λ input. take 8 input };

    ghost line = { λ input. codes "read\n" };

    ghost MOST_READ = { 8 };

    ghost output_enough = { λ input. take-take 8 8 input (lit≤ tt) };

    ghost line_enough = { λ input. refl };

    const MOST_READ: usize = 8;

    fn reply(alloc: Global, input: &[u8]) -> Result<Reply, AllocError> {
        Ok(Reply {
            output: input[..input.len().min(8)].to_vec(alloc)?,
            line: "read\n".to_string(alloc)?,
        })
    }
}

#[test]
fn run_writes_the_reply(rt: HostRuntime) -> Result<(), Fail> {
    let mut output = Vec::new(rt.alloc());
    let mut errors = Vec::new(rt.alloc());
    run::<FirstEight, _, _, _>(
        rt.alloc(),
        b"twelve bytes".as_slice(),
        &mut output,
        &mut errors,
    )?;
    assert_eq!(rt; output.as_slice(), b"twelve b".as_slice());
    assert_eq!(rt; errors.as_slice(), b"read\n".as_slice());
    Ok(())
}

#[test]
fn a_reply_goes_to_both_writers(rt: HostRuntime) -> Result<(), Fail> {
    let reply = Reply {
        output: b"to the one".to_vec(rt.alloc())?,
        line: "to the other".to_string(rt.alloc())?,
    };
    let mut output = Vec::new(rt.alloc());
    let mut errors = Vec::new(rt.alloc());
    reply.write(&mut output, &mut errors)?;
    assert_eq!(rt; output.as_slice(), b"to the one".as_slice());
    assert_eq!(rt; errors.as_slice(), b"to the other".as_slice());
    Ok(())
}
