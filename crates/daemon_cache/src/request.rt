#![tactic(auto, unfolding(crate::specs::Request::lawful_at))]

ghost use Rattle.std.specs.Prelude.{◌≡◌, Err, IfErr, IfOk, Ok, OnOk};
ghost use Rattle.daemon_cache.specs.Request.{lawful_at, request_value};

use crate::fault::AskFault;
use combinator::is_limit;
use isd_as::IsdAs;
use policy_expr::{LawfulOptions, OptionText};
use std::hash::{DefaultHasher, Hash, Hasher};
use std::marker::Model;

/// A request for paths that was judged, and is lawful.
#[derive(Drop)]
pub(crate) struct Request<'a, 't> {
    pub(crate) src: IsdAs,
    pub(crate) dst: IsdAs,
    pub(crate) options: LawfulOptions<'a, 't>,
    pub(crate) limit: usize,
}

impl<'a, 't> Model for Request<'a, 't> {
    ghost use Rattle.std.specs.Prelude.{◌≡◌, Ok};
    ghost use Rattle.daemon_cache.specs.Request.{RequestValue, lawful_at, request_value};

    ghost Value = { RequestValue };

    ghost view = { λ r. request_value r.src r.dst r.options r.limit };

    ghost invariant = { λ r. lawful_at (request_value r.src r.dst r.options r.limit) ≡ Ok tt };
}

impl<'a, 't> Request<'a, 't> {
    /// The request, or its first refusal. Takes no memory, and time in proportion to the texts.
    pub(crate) fn check(
        src: IsdAs,
        dst: IsdAs,
        options: &'a [OptionText<'t>],
        limit: usize,
    ) -> Result<Request<'a, 't>, AskFault>
        ensures ok { IfOk result (λ request.
            request ≡ request_value src dst options.now limit) }
        ensures lawful { OnOk result
            (lawful_at (request_value src dst options.now limit) ≡ Ok tt) }
        ensures fault { IfErr result (λ fault.
            lawful_at (request_value src dst options.now limit) ≡ Err fault) }
    {
        if !is_limit(limit) {
            return Err(AskFault::BadLimit);
        }
        let options = match LawfulOptions::check(options) {
            Ok(options) => options,
            Err(fault) => return Err(AskFault::Options(fault)),
        };
        if src == dst {
            return Err(AskFault::SameAs);
        }
        Ok(Request {
            src,
            dst,
            options,
            limit,
        })
    }

    /// The number under which the cache keeps the answer. An answer replaces another one with the
    /// same number.
    pub(crate) fn key(&self) -> u64 {
        let mut hasher = DefaultHasher::new();
        self.src.number().hash(&mut hasher);
        self.dst.number().hash(&mut hasher);
        self.limit.hash(&mut hasher);
        for option in self.options.texts() {
            option.weight.hash(&mut hasher);
            if let Some(acl) = option.text.acl {
                for text in acl.texts() {
                    text.as_str().hash(&mut hasher);
                }
            }
            if let Some(sequence) = option.text.sequence {
                sequence.hash(&mut hasher);
            }
        }
        hasher.finish()
    }
}
