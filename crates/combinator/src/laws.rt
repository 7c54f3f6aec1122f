//! Laws of answers: each is the contract of a function that does nothing.

ghost use Rattle.std.specs.Prelude.{◌≡◌, ◌↔◌, ℕ, List, map, Option};
ghost use Rattle.path_server.specs.Lookup.{Selection};
ghost use Rattle.policy_expr.specs.Policy.{Rules};
ghost use Rattle.policy_expr.specs.Options.{WeighedRules};
ghost use Rattle.combinator.specs.Candidate.{AreSpelled, Question, question_of, PathValue};
ghost use Rattle.combinator.specs.Order.{header_and_walk};
ghost use Rattle.combinator.specs.Answer.{IsAnswer, AnswersWith, question_under};
ghost use Rattle.combinator.specs.Lasting.{IsSameSet, AreAllLive};

/// Two answers to one question have the same headers and walks, in the same order; under several
/// options they also use the same option. The law needs headers of the grammar, which all
/// candidates have: so say [`crate::paths_between`], [`crate::paths_with`] and [`crate::combine`].
pub fn answers_agree()
    ensures paths { (question : Question) (limit : ℕ) (paths others : List PathValue)
        → AreSpelled question
        → IsAnswer question limit paths → IsAnswer question limit others
        → map header_and_walk paths ≡ map header_and_walk others }
    ensures options { (set : Selection) (src dst : ℕ) (options : List WeighedRules) (limit : ℕ)
        (used also : Option ℕ) (paths others : List PathValue)
        → ((option : WeighedRules) → AreSpelled (question_under set src dst option))
        → AnswersWith set src dst options limit used paths
        → AnswersWith set src dst options limit also others
        → (used ≡ also) × (map header_and_walk paths ≡ map header_and_walk others) }
{}

/// If two sets have the same segments, all live at the seconds of both, an answer over one set is
/// an answer over the other, also under several options.
pub fn answers_outlast_moments()
    ensures paths { (set other : Selection) (src dst : ℕ) (rules : Rules) (limit : ℕ)
        (paths : List PathValue) → IsSameSet set other → AreAllLive set set.moment
        → AreAllLive other other.moment
        → IsAnswer (question_of set src dst rules) limit paths
        ↔ IsAnswer (question_of other src dst rules) limit paths }
    ensures options { (set other : Selection) (src dst : ℕ) (options : List WeighedRules)
        (limit : ℕ) (used : Option ℕ) (paths : List PathValue) → IsSameSet set other
        → AreAllLive set set.moment → AreAllLive other other.moment
        → AnswersWith set src dst options limit used paths
        ↔ AnswersWith other src dst options limit used paths }
{}
