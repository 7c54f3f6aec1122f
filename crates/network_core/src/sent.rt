//! Shipments.

ghost use Rattle.std.specs.Prelude.{◌≡◌, ◌≤◌, ℕ, IfOk, IsSome, length, slice_get};
ghost use Rattle.std.specs.Arc.{arc_value};
ghost use Rattle.path_verifier.specs.Accepted.{IsAccepted};
ghost use Rattle.path_verifier.specs.Walk.{walk_of};
ghost use Rattle.forwarding.specs.Journey.{first_out};
ghost use Rattle.network_core.specs.Event.{way_of};
ghost use Rattle.network_core.specs.Sent.{way_numbered};
ghost use Rattle.network_core.specs.Value.{asked_at};

use crate::answer::Answer;
use crate::event::Given;
use combinator::{Path, PathList};
use forwarding::first_out;
use isd_as::{IfId, IsdAs};
use path_header::Header;
use path_verifier::{OwnedPiece, VerifiedPath};
use policy_expr::Policy;
use std::alloc::{AllocError, Global};
use std::marker::Model;
use std::sync::Arc;

/// A shipment: a path with its ends, its header and its policy, and a payload.
///
/// The path is one of an answer, which the shipment shares with the network. A given path has an
/// answer of its own, in which it is alone. Invariants of the type: the answer has a path of this
/// number, the verifier's rules accepted it at some second, and the payload has at most 1,024
/// bytes.
#[derive(Drop)]
pub struct Sent {
    answer: Arc<Answer>,
    path: usize,
    payload: Vec<u8>,
}

impl Model for Sent {
    ghost use Rattle.std.specs.Prelude.{ℕ, ◌≤◌, IsSome, length, slice_get};
    ghost use Rattle.std.specs.Arc.{arc_value};
    ghost use Rattle.policy_expr.specs.Code.{policy_codes};
    ghost use Rattle.path_verifier.specs.Accepted.{IsAccepted};
    ghost use Rattle.network_core.specs.Value.{Shipment, asked_at};
    ghost use Rattle.network_core.specs.Sent.{way_numbered};

    ghost Value = { Shipment };

    ghost coded = { Prim.hlevel policy_codes };

    ghost view = { λ s. record {
      way = way_numbered (arc_value s.answer) s.path;
      payload = s.payload.items;
    } };

    ghost invariant = { λ s. ((moment : ℕ)
        × IsAccepted (asked_at moment (way_numbered (arc_value s.answer) s.path)))
        × (length s.payload.items ≤ 1024)
        × IsSome (slice_get (arc_value s.answer).answer.paths s.path) };
}

impl Sent {
    /// A shipment by the path of this number of an answer, unless memory runs out.
    pub(crate) fn by_answer(
        alloc: Global,
        answer: &Arc<Answer>,
        path: usize,
        payload: &[u8],
    ) -> Result<Sent, AllocError>
        requires there { IsSome (slice_get (arc_value answer.now).answer.paths path) }
        requires accepted { (moment : ℕ)
            × IsAccepted (asked_at moment (way_numbered (arc_value answer.now) path)) }
        requires few { length payload.now ≤ 1024 }
        ensures { IfOk result (λ sent. sent ≡ record {
          way = way_numbered (arc_value answer.now) path;
          payload = payload.now;
        }) }
    {
        Ok(Sent {
            answer: Arc::try_clone(answer)?,
            path,
            payload: Vec::from_slice(alloc, payload)?,
        })
    }

    /// A shipment by a copy of a given way, which is this path, unless memory runs out.
    pub(crate) fn by_given(
        alloc: Global,
        way: &Given<'_>,
        path: &VerifiedPath<'_, '_, Global>,
        payload: &[u8],
    ) -> Result<Sent, AllocError>
        requires same { (moment : ℕ) × (path.now ≡ asked_at moment (way_of way.now)) }
        requires few { length payload.now ≤ 1024 }
        ensures { IfOk result (λ sent. sent
            ≡ record { way = way_of way.now; payload = payload.now }) }
    {
        path.known();
        let mut paths = Vec::with_capacity(alloc, 1)?;
        paths.push(Path::new(alloc, way.pieces, way.header, path.walk())?)?;
        let answer = Answer {
            source: way.source,
            destination: way.destination,
            paths: PathList::new(None, paths),
            policy: way.policy.clone_in(alloc)?,
        };
        Ok(Sent {
            answer: Arc::new(alloc, answer)?,
            path: 0,
            payload: Vec::from_slice(alloc, payload)?,
        })
    }

    /// The source AS.
    pub fn source(&self) -> IsdAs
        ensures { result ≡ self.now.way.source }
    {
        self.answer.source
    }

    /// The destination AS.
    pub fn destination(&self) -> IsdAs
        ensures { result ≡ self.now.way.destination }
    {
        self.answer.destination
    }

    /// Its path in the answer.
    fn path(&self) -> &Path
        ensures pieces { result.now.pieces ≡ self.now.way.pieces }
        ensures header { result.now.header ≡ self.now.way.header }
    {
        self.answer.paths.get(self.path).unwrap()
    }

    /// The pieces of its path, in order of travel.
    pub fn pieces(&self) -> &[OwnedPiece]
        ensures { result.now ≡ self.now.way.pieces }
    {
        self.path().pieces()
    }

    /// The header with which it was sent.
    pub fn header(&self) -> &Header
        ensures { result.now ≡ self.now.way.header }
    {
        self.path().header()
    }

    /// The policy under which it was sent.
    pub fn policy(&self) -> &Policy<Global>
        ensures { result.now ≡ self.now.way.rules }
    {
        &self.answer.policy
    }

    /// Its payload.
    pub fn payload(&self) -> &[u8]
        ensures value { result.now ≡ self.now.payload }
        ensures few { length result.now ≤ 1024 }
    {
        &self.payload
    }

    /// The interface by which it leaves the source AS.
    pub fn way_out(&self) -> IfId
        ensures { result ≡ first_out (walk_of self.now.way.pieces) }
    {
        self.known();
        first_out(self.pieces())
    }

    /// Does nothing; its contract tells the caller that the path was accepted at some second.
    pub fn known(&self)
        ensures { (moment : ℕ) × IsAccepted (asked_at moment self.now.way) }
    {
        // Reading a field makes the type's invariants known here.
        let _ = &self.answer;
    }
}
