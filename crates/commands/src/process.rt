//! The words of a process.

ghost use Rattle.std.specs.Prelude.{IfErr};
ghost use Rattle.commands.specs.Fault.{IsOwnWordsFault};

use crate::fault::WordsFault;
use std::alloc::{Alloc, Global};
use std::env;
use std::env::Env;

/// The words after the program's name. The faults are those of [`WordsFault::unreadable`], and
/// [`WordsFault::Memory`] if memory runs out for the words.
pub fn words_behind<R: Env + Alloc<A = Global>>(rt: &R) -> Result<Vec<String>, WordsFault>
    ensures { IfErr result IsOwnWordsFault }
{
    match env::args(rt) {
        Ok(args) => Ok(args.skip(1).collect(rt.alloc())?),
        Err(error) => Err(WordsFault::unreadable(&error)),
    }
}
