ghost use Rattle.std.specs.Prelude.{◌≡◌, ◌↔◌, IfOk, IsTrue};

use crate::request::Request;
use isd_as::IsdAs;
use policy_expr::{OptionText, OwnedOptionText};
use std::alloc::{AllocError, Global};
use std::marker::Model;

/// Copies of the options' texts, in their order.
fn own_texts(alloc: Global, texts: &[OptionText<'_>]) -> Result<Vec<OwnedOptionText>, AllocError>
    ensures { IfOk result (λ own. own.items ≡ texts.now) }
{
    let mut own = Vec::new(alloc);
    for text in texts {
        own.push(OwnedOptionText::of(alloc, text)?)?;
    }
    Ok(own)
}

/// Whether the options have these texts, in their order.
fn are_texts_of(own: &[OwnedOptionText], texts: &[OptionText<'_>]) -> bool
    ensures { IsTrue result ↔ (own.now ≡ texts.now) }
{
    if own.len() != texts.len() {
        return false;
    }
    for i in 0..own.len() {
        if !own[i].is_of(&texts[i]) {
            return false;
        }
    }
    true
}

/// A stored request.
#[derive(Drop)]
pub(crate) struct KeptRequest {
    src: IsdAs,
    dst: IsdAs,
    texts: Vec<OwnedOptionText>,
    limit: usize,
}

impl Model for KeptRequest {
    ghost use Rattle.daemon_cache.specs.Request.{RequestValue, request_value};

    ghost Value = { RequestValue };

    ghost view = { λ r. request_value r.src r.dst r.texts.items r.limit };
}

impl KeptRequest {
    /// A copy of a request.
    pub(crate) fn of(alloc: Global, request: &Request<'_, '_>) -> Result<KeptRequest, AllocError>
        ensures { IfOk result (λ kept. kept ≡ request.now) }
    {
        Ok(KeptRequest {
            src: request.src,
            dst: request.dst,
            texts: own_texts(alloc, request.options.texts())?,
            limit: request.limit,
        })
    }

    /// Whether the request is this one.
    pub(crate) fn is_of(&self, request: &Request<'_, '_>) -> bool
        ensures { IsTrue result ↔ (self.now ≡ request.now) }
    {
        self.src == request.src
            && self.dst == request.dst
            && self.limit == request.limit
            && are_texts_of(&self.texts, request.options.texts())
    }
}
