//! Requests for paths.

ghost use Rattle.std.specs.Prelude.{◌≡◌, ◌<◌, slice_get, Ok, IfOk, OnOk};
ghost use Rattle.std.specs.Arc.{arc_value};
ghost use Rattle.std.specs.Option.{ok_or};
ghost use Rattle.refusal.specs.Refusal.{Answers, Gives};
ghost use Rattle.policy_expr.specs.Options.{options_at};
ghost use Rattle.combinator.specs.Fault.{ends_at};
ghost use Rattle.network_core.specs.declared.fault.EventFault.TheVariants as faults;
ghost use Rattle.network_core.specs.inner.Doing.{AnswersTo, DoesAsk, KeepsAnswer};
ghost use Rattle.network_core.specs.Step.{options_asked, rules_used};

use crate::answer::Answer;
use crate::fault::EventFault;
use crate::limits::MAX_OBJECTS;
use crate::net::{EventError, Net};
use crate::reply::Reply;
use combinator::{CombineFault, combine, is_limit};
use isd_as::IsdAs;
use policy_expr::{OptionText, Policy, PolicyOption};
use refusal::OrMemory;
use std::alloc::{AllocError, Global};
use std::sync::Arc;

impl Net {
    /// Answers a request for paths, and keeps the answer.
    pub(crate) fn ask(
        &mut self,
        alloc: Global,
        src: IsdAs,
        dst: IsdAs,
        texts: &[OptionText<'_>],
        limit: u32,
    ) -> Result<Reply, EventError>
        ensures { DoesAsk (options_asked self.old src dst (options_at texts.now) limit) src dst
            limit self.old self.new result }
    {
        let options = self.options_asked(alloc, src, dst, texts, limit)?;
        let answer = self.answer_to(alloc, src, dst, &options, limit)?;
        self.keep_answer(answer)
    }

    /// The options of a request, or the first refusal. Memory can run out only if the request is
    /// not refused.
    fn options_asked(
        &self,
        alloc: Global,
        src: IsdAs,
        dst: IsdAs,
        texts: &[OptionText<'_>],
        limit: u32,
    ) -> Result<Vec<PolicyOption<Global>>, EventError>
        ensures read { Answers (λ options. options.items) result
            (options_asked self.now src dst (options_at texts.now) limit) }
        ensures some { OnOk result (0 < limit) }
        ensures ends { OnOk result (ends_at src dst ≡ Ok tt) }
    {
        if !is_limit(limit as usize) {
            return Err(OrMemory::Refused(EventFault::BadLimit));
        }
        let options = PolicyOption::parse_all(alloc, texts);
        if let Err(OrMemory::Refused(fault)) = options {
            return Err(OrMemory::Refused(EventFault::Policy(fault)));
        }
        if src == dst {
            return Err(OrMemory::Refused(EventFault::Combination(CombineFault::SameAs)));
        }
        if self.answers.len() >= MAX_OBJECTS {
            return Err(OrMemory::Refused(EventFault::TooMany));
        }
        match options {
            Ok(options) => Ok(options),
            Err(_) => Err(OrMemory::Memory),
        }
    }

    /// The answer to a request between two ASes, unless memory runs out.
    fn answer_to(
        &self,
        alloc: Global,
        src: IsdAs,
        dst: IsdAs,
        options: &[PolicyOption<Global>],
        limit: u32,
    ) -> Result<Arc<Answer>, EventError>
        requires some { 0 < limit }
        requires ends { ends_at src dst ≡ Ok tt }
        ensures { AnswersTo (λ one. arc_value one) self.now src dst options.now limit result }
    {
        let set = self.store.segments_for(alloc, src, dst, self.moment)?;
        let paths = match combine(alloc, &set, src, dst, options, limit as usize) {
            Ok(paths) => paths,
            Err(OrMemory::Memory) => return Err(OrMemory::Memory),
            Err(OrMemory::Refused(fault)) => {
                return Err(OrMemory::Refused(EventFault::Combination(fault)));
            }
        };
        let policy = policy_used(alloc, options, paths.option())?;
        let answer = Answer {
            source: src,
            destination: dst,
            paths,
            policy,
        };
        Ok(Arc::new(alloc, answer)?)
    }

    /// Adds an answer to those that are kept.
    fn keep_answer(&mut self, answer: Arc<Answer>) -> Result<Reply, EventError>
        ensures { KeepsAnswer (arc_value answer) self.old self.new result }
    {
        let number = self.answers.len();
        self.answers.push(answer)?;
        Ok(Reply::Answered(number))
    }

    /// The answer of this number.
    pub(crate) fn answer_numbered(&self, number: u32) -> Result<&Arc<Answer>, EventFault>
        ensures { Gives (λ one. arc_value one.now) result
            (ok_or (slice_get self.now.answers number) faults.NoAnswer) }
    {
        match self.answers.get(number as usize) {
            Some(answer) => Ok(answer),
            None => Err(EventFault::NoAnswer),
        }
    }
}

/// The policy of the used option, or the policy that allows every walk if no option was used;
/// unless memory runs out.
fn policy_used(
    alloc: Global,
    options: &[PolicyOption<Global>],
    used: Option<usize>,
) -> Result<Policy<Global>, AllocError>
    ensures { IfOk result (λ policy. policy ≡ rules_used options.now used) }
{
    match used {
        None => Ok(Policy::any()),
        Some(place) => match options.get(place) {
            None => Ok(Policy::any()),
            Some(option) => option.policy.clone_in(alloc),
        },
    }
}
