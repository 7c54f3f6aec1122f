ghost use Rattle.std.specs.Prelude.{◌≡◌, ◌⊎◌, ◌<◌, [], length, None, Some, slice_get, IfOk, IfSome, OnOk};
ghost use Rattle.policy_expr.specs.Options.{WeighedRules};
ghost use Rattle.combinator.specs.Candidate.{AreSpelled};
ghost use Rattle.combinator.specs.Answer.{AnswersWith, question_under};
ghost use Rattle.combinator.specs.inner.Choice.{HaveNone, IsChoiceOf, LeavesPath, MayChoose};

use crate::answer::{Paths, answer};
use crate::groups::Groups;
use crate::options::used_option;
use crate::request::ChoiceRequest;
use crate::usable_pieces::usable_pieces_of;
use isd_as::IsdAs;
use path_server::SegmentSet;
use policy_expr::PolicyOption;
use std::alloc::{AllocError, Allocator, Global};
use std::marker::Model;

/// The policy option that is used, and the paths under it.
#[derive(Drop)]
pub struct Choice<'s, 'p, A: Allocator + Clone> {
    option: Option<usize>,
    weight: u32,
    paths: Paths<'s, 'p, A>,
}

impl<'s, 'p, A: Allocator + Clone> Model for Choice<'s, 'p, A> {
    ghost use Rattle.combinator.specs.Choice.{ChosenValue};

    ghost Value = { ChosenValue };

    ghost view = { λ c. record { used = c.option; weight = c.weight; paths = c.paths } };
}

impl<'s, 'p, A: Allocator + Clone> Choice<'s, 'p, A> {
    /// The choice where no option leaves a path.
    fn none(alloc: Global) -> Choice<'s, 'p, A>
        ensures used { result.used ≡ None }
        ensures paths { result.paths ≡ [] }
    {
        Choice {
            option: None,
            weight: 0,
            paths: Paths::none(alloc),
        }
    }

    /// The place in the list of the option that is used, or `None` if no option leaves a path.
    pub fn option(&self) -> Option<usize>
        ensures { result ≡ self.now.used }
    {
        self.option
    }

    /// The paths that the option leaves; there are none if no option leaves one.
    pub fn paths(&self) -> &Paths<'s, 'p, A>
        ensures { result.now ≡ self.now.paths }
    {
        &self.paths
    }
}

/// Chooses the option with the largest weight among those that leave a path, and of equal weights
/// the first; returns it with its paths of [`crate::paths_between`].
///
/// What it costs: where there are several options, one pass over the lists of usable pieces that
/// meet finds the option. It asks the options about each walk, until the first of them is found to
/// leave a path. Then one search finds the paths of that option, as that of
/// [`crate::paths_between`].
///
/// [`AllocError`] if memory runs out.
pub fn paths_with<'s, 'p, A: Allocator + Clone>(
    alloc: Global,
    set: &'s SegmentSet,
    src: IsdAs,
    dst: IsdAs,
    options: &'p [PolicyOption<A>],
    limit: usize,
) -> Result<Choice<'s, 'p, A>, AllocError>
    requires { 0 < limit }
    ensures answers { IfOk result (λ choice.
        AnswersWith set.entry.now src dst options.entry.now limit choice.used choice.paths) }
    // The weight is that of the used option.
    ensures weight { IfOk result (λ choice. IfSome choice.used (λ used.
        IfSome (slice_get options.entry.now used) (λ option. choice.weight ≡ option.weight))) }
    // Under each option, the header of each path that may be sent is one of the grammar.
    ensures spelled { OnOk result ((option : WeighedRules)
        → AreSpelled (question_under set.entry.now src dst option)) }
{
    let request = ChoiceRequest {
        set,
        src,
        dst,
        options,
        limit,
    };
    choice_of(alloc, &request)
}

/// The choice that answers a request.
fn choice_of<'s, 'p, A: Allocator + Clone>(
    alloc: Global,
    request: &ChoiceRequest<'s, 'p, A>,
) -> Result<Choice<'s, 'p, A>, AllocError>
    requires { 0 < request.now.limit }
    ensures answers { IfOk result (λ choice. AnswersWith request.now.set.now request.now.src
        request.now.dst request.now.options.now request.now.limit choice.used choice.paths) }
    ensures weight { IfOk result (λ choice. IfSome choice.used (λ used.
        IfSome (slice_get request.now.options.now used)
        (λ option. choice.weight ≡ option.weight))) }
    ensures spelled { let ask = request.now in OnOk result ((option : WeighedRules)
        → AreSpelled (question_under ask.set.now ask.src ask.dst option)) }
{
    let pieces = usable_pieces_of(alloc, request.set, request.src, request.dst)?;
    let groups = Groups::of(alloc, &pieces)?;
    match option_to_try(&*request, &groups) {
        Some(place) => choice_under(alloc, request, &groups, place),
        None => Ok(Choice::none(alloc)),
    }
}

/// The place of the option that is used if it leaves a path. It leaves one if there are others.
fn option_to_try<'g, 'a, 's, 'p, A: Allocator + Clone>(
    request: &'g ChoiceRequest<'s, 'p, A>,
    groups: &'g Groups<'a, 's>,
) -> Option<usize>
    requires { MayChoose request.now.set.now request.now.src request.now.dst groups.now }
    ensures within { IfSome result (λ place. place < length request.entry.now.options.now) }
    ensures leaves { let ask = request.entry.now in IfSome result (λ place.
        (length ask.options.now ≡ 1)
        ⊎ LeavesPath (question_under ask.set.now ask.src ask.dst) ask.options.now place) }
    ensures none { let ask = request.entry.now in
        HaveNone (question_under ask.set.now ask.src ask.dst) ask.options.now result }
{
    match request.options.len() {
        0 => None,
        1 => Some(0),
        _ => used_option(request, groups),
    }
}

/// The choice of the option at this place, if it leaves a path; else of none.
fn choice_under<'a, 's, 'p, A: Allocator + Clone>(
    alloc: Global,
    request: &ChoiceRequest<'s, 'p, A>,
    groups: &Groups<'a, 's>,
    place: usize,
) -> Result<Choice<'s, 'p, A>, AllocError>
    requires some { 0 < request.now.limit }
    requires search { MayChoose request.now.set.now request.now.src request.now.dst groups.now }
    requires within { place < length request.now.options.now }
    ensures { let ask = request.now in IfOk result (λ choice. (option : WeighedRules)
        → slice_get ask.options.now place ≡ Some option
        → IsChoiceOf (question_under ask.set.now ask.src ask.dst option) ask.limit place
        option.weight choice) }
{
    let options = request.options;
    let option = &options[place];
    let paths = answer(alloc, &request.under(option), groups, request.limit)?;
    if paths.is_empty() {
        return Ok(Choice::none(alloc));
    }
    Ok(Choice {
        option: Some(place),
        weight: option.weight,
        paths,
    })
}
