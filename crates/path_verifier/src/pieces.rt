ghost use Rattle.std.specs.Prelude.{◌≡◌, ◌==◌, ℕ, ◌<◌, ◌≤◌, ◌↔◌, [], ◌∷◌, ◌++◌, length, slice_get, option_map, IfErr, IfSome, IsOk, IsSome, IsTrue, OnErr, OnOk};
ghost use Rattle.std.specs.List.{AllByRecursion};
ghost use Rattle.path_header.specs.Value.{HeaderValue};
ghost use Rattle.policy_expr.specs.Policy.{Rules};
ghost use Rattle.path_verifier.specs.declared.fault.VerifyFault.{VerifyFault};
ghost use Rattle.path_verifier.specs.Fault.{code_of};
ghost use Rattle.path_verifier.specs.Accepted.{IsRefused, Keeps, request_of};
ghost use Rattle.path_verifier.specs.Piece.{HasRange};
ghost use Rattle.path_verifier.specs.Header.{total_hops};
ghost use Rattle.path_verifier.specs.PieceSlots.{pieces_in};
ghost use Rattle.path_verifier.specs.Turned.{turned_pieces};

use crate::fault::VerifyFault;
use crate::piece::Piece;
use crate::shape::{check_shape, total_hops};
use isd_as::IsdAs;
use std::marker::Model;

/// The pieces of a path in order of travel, at most three.
#[derive(Debug, Drop)]
pub struct Pieces<'s> {
    pub(crate) held: PieceSlots<'s>,
}

/// The pieces, one variant for each number of them.
#[derive(Debug, Drop)]
pub(crate) enum PieceSlots<'s> {
    Zero,
    One(Piece<'s>),
    Two(Piece<'s>, Piece<'s>),
    Three(Piece<'s>, Piece<'s>, Piece<'s>),
}

impl<'s> Model for Pieces<'s> {
    ghost use Rattle.std.specs.Prelude.{List};
    ghost use Rattle.path_verifier.specs.PieceSlots.{pieces_in};
    ghost use Rattle.path_verifier.specs.Piece.{PieceValue};

    ghost Value = { List PieceValue };

    ghost view = { λ p. pieces_in p.held };
}

impl<'s> Pieces<'s> {
    /// No pieces.
    pub fn new() -> Pieces<'s>
        ensures { result ≡ [] }
    {
        Pieces {
            held: PieceSlots::Zero,
        }
    }

    /// One piece.
    pub fn one(first: Piece<'s>) -> Pieces<'s>
        ensures { result ≡ first.entry ∷ [] }
    {
        Pieces {
            held: PieceSlots::One(first),
        }
    }

    /// Two pieces.
    pub fn two(first: Piece<'s>, second: Piece<'s>) -> Pieces<'s>
        ensures { result ≡ first.entry ∷ second.entry ∷ [] }
    {
        Pieces {
            held: PieceSlots::Two(first, second),
        }
    }

    /// Three pieces.
    pub fn three(first: Piece<'s>, second: Piece<'s>, third: Piece<'s>) -> Pieces<'s>
        ensures { result ≡ first.entry ∷ second.entry ∷ third.entry ∷ [] }
    {
        Pieces {
            held: PieceSlots::Three(first, second, third),
        }
    }

    /// Adds a piece at the end. If there are three already, that is [`VerifyFault::PieceCount`],
    /// and the pieces stay as they are.
    pub fn push(&mut self, piece: Piece<'s>) -> Result<(), VerifyFault>
        ensures room { IsOk result ↔ (length self.old < 3) }
        ensures ok { OnOk result (self.new ≡ self.old ++ piece.entry ∷ []) }
        ensures fault { IfErr result (λ fault. fault ≡ VerifyFault.PieceCount) }
        ensures err { OnErr result (self.new ≡ self.old) }
    {
        match self.with_piece(piece) {
            Some(longer) => {
                *self = longer;
                Ok(())
            }
            None => Err(VerifyFault::PieceCount),
        }
    }

    /// These pieces and one more behind them, or `None` if there are three already. It takes no
    /// memory.
    pub fn with_piece(&self, piece: Piece<'s>) -> Option<Pieces<'s>>
        ensures room { IsSome result ↔ (length self.now < 3) }
        ensures more { IfSome result (λ longer. longer ≡ self.now ++ piece.entry ∷ []) }
    {
        let held = match &self.held {
            PieceSlots::Zero => PieceSlots::One(piece),
            PieceSlots::One(first) => PieceSlots::Two(first.again(), piece),
            PieceSlots::Two(first, second) => {
                PieceSlots::Three(first.again(), second.again(), piece)
            }
            PieceSlots::Three(_, _, _) => return None,
        };
        Some(Pieces { held })
    }

    /// The number of pieces.
    pub fn len(&self) -> usize
        ensures { result ≡ length self.now }
    {
        match &self.held {
            PieceSlots::Zero => 0,
            PieceSlots::One(_) => 1,
            PieceSlots::Two(_, _) => 2,
            PieceSlots::Three(_, _, _) => 3,
        }
    }

    /// Whether there is no piece.
    pub fn is_empty(&self) -> bool
        ensures { IsTrue result ↔ (self.now ≡ []) }
    {
        self.held.is_empty()
    }

    /// The number of hop fields of all pieces together.
    pub fn hop_count(&self) -> usize
        requires { AllByRecursion HasRange self.now }
        ensures value { result ≡ total_hops self.now }
        ensures few { result ≤ 189 }
    {
        total_hops(&self.held)
    }

    /// Whether the pieces keep each rule from the first to the one on the number of hop fields, as
    /// those of a path from `src` to `dst`; else the fault of the first that they break.
    pub fn check_shape(&self, src: IsdAs, dst: IsdAs) -> Result<(), VerifyFault>
        ensures kept { OnOk result ((header : HeaderValue) (now : ℕ) (rules : Rules)
            (fault : VerifyFault) → code_of fault < 78
            → Keeps (request_of self.now header src dst now rules) fault) }
        ensures fault { IfErr result (λ fault. (header : HeaderValue) (now : ℕ) (rules : Rules)
            → IsRefused (request_of self.now header src dst now rules) fault) }
        ensures early { IfErr result (λ fault. code_of fault < 78) }
    {
        check_shape(&self.held, src, dst)
    }

    /// The piece at this place in order of travel, from 0.
    pub fn get(&self, place: usize) -> Option<&Piece<'s>>
        ensures { option_map (λ p. p.now) result ≡ slice_get self.now place }
    {
        match (&self.held, place) {
            (PieceSlots::One(piece), 0) => Some(piece),
            (PieceSlots::Two(piece, _), 0) => Some(piece),
            (PieceSlots::Two(_, piece), 1) => Some(piece),
            (PieceSlots::Three(piece, _, _), 0) => Some(piece),
            (PieceSlots::Three(_, piece, _), 1) => Some(piece),
            (PieceSlots::Three(_, _, piece), 2) => Some(piece),
            _ => None,
        }
    }

    /// The pieces of the way back: the same pieces in reverse order, each in the other direction.
    /// It takes no memory.
    pub fn turned(&self) -> Pieces<'s>
        ensures { result ≡ turned_pieces self.now }
    {
        Pieces {
            held: self.held.turned(),
        }
    }

    /// Copies of these pieces.
    pub(crate) fn again(&self) -> Pieces<'s>
        ensures { result ≡ self.now }
    {
        Pieces {
            held: self.held.again(),
        }
    }
}

impl<'s> PieceSlots<'s> {
    /// Whether there is no piece.
    pub(crate) fn is_empty(&self) -> bool
        ensures { result ≡ (length (pieces_in self.now) == 0) }
    {
        match self {
            PieceSlots::Zero => true,
            _ => false,
        }
    }

    /// The pieces of the way back.
    fn turned(&self) -> PieceSlots<'s>
        ensures { pieces_in result ≡ turned_pieces (pieces_in self.now) }
    {
        match self {
            PieceSlots::Zero => PieceSlots::Zero,
            PieceSlots::One(first) => PieceSlots::One(first.turned()),
            PieceSlots::Two(first, second) => PieceSlots::Two(second.turned(), first.turned()),
            PieceSlots::Three(first, second, third) => {
                PieceSlots::Three(third.turned(), second.turned(), first.turned())
            }
        }
    }

    /// Copies of these pieces.
    fn again(&self) -> PieceSlots<'s>
        ensures { pieces_in result ≡ pieces_in self.now }
    {
        match self {
            PieceSlots::Zero => PieceSlots::Zero,
            PieceSlots::One(first) => PieceSlots::One(first.again()),
            PieceSlots::Two(first, second) => PieceSlots::Two(first.again(), second.again()),
            PieceSlots::Three(first, second, third) => {
                PieceSlots::Three(first.again(), second.again(), third.again())
            }
        }
    }
}
