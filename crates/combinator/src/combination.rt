ghost use Rattle.std.specs.Prelude.{◌≡◌, ◌<◌, Ok, IfErr, IfOk, OnOk};
ghost use Rattle.policy_expr.specs.Options.{WeighedRules};
ghost use Rattle.refusal.specs.Refusal.{Fails};
ghost use Rattle.combinator.specs.Candidate.{AreSpelled};
ghost use Rattle.combinator.specs.Answer.{AnswersWith, question_under};
ghost use Rattle.combinator.specs.Fault.{ends_at};

use crate::choice::paths_with;
use crate::fault::{CombineError, CombineFault};
use crate::path::PathList;
use isd_as::IsdAs;
use path_server::SegmentSet;
use policy_expr::PolicyOption;
use refusal::OrMemory;
use std::alloc::{Allocator, Global};

/// The result of [`paths_with`] as a list that owns its paths. If both ends are the same AS, it is
/// [`CombineFault::SameAs`]. Memory can run out only if they are not.
///
/// It takes the time of [`paths_with`], and time and memory for the segments of the paths that are
/// returned.
pub fn combine<A: Allocator + Clone>(
    alloc: Global,
    set: &SegmentSet,
    src: IsdAs,
    dst: IsdAs,
    options: &[PolicyOption<A>],
    limit: usize,
) -> Result<PathList, CombineError>
    requires { 0 < limit }
    // A list that is returned answers the request.
    ensures found { IfOk result (λ list.
        AnswersWith set.entry.now src dst options.entry.now limit list.used list.paths) }
    // Under each option, the header of each path that may be sent is one of the grammar.
    ensures spelled { OnOk result ((option : WeighedRules)
        → AreSpelled (question_under set.entry.now src dst option)) }
    // A list is returned only if the ends are two ASes.
    ensures ends { OnOk result (ends_at src dst ≡ Ok tt) }
    // The exact refusal, if memory does not run out.
    ensures refused { IfErr result (λ error. Fails error (ends_at src dst)) }
{
    if src == dst {
        return Err(OrMemory::Refused(CombineFault::SameAs));
    }
    let choice = paths_with(alloc, set, src, dst, options, limit)?;
    Ok(PathList::of(alloc, &choice)?)
}
