ghost use Rattle.std.specs.Prelude.{◌≡◌, ◌↔◌, IfOk, IfErr, IsOk, Ok};
ghost use Rattle.refusal.specs.Refusal.{Answers};
ghost use Rattle.policy_expr.specs.Acl.{AllowsWalk, IsAcl, IsDenial, acl_at, is_bare};

use crate::acl_rules::denial_of;
use crate::acl_text::AclText;
use crate::entry::{check_acl, read_entries};
use crate::fault::{PolicyError, PolicyFault};
use crate::hop::{HopPred, WalkHop};
use std::alloc::{AllocError, Allocator};
use std::marker::Model;

/// An entry of an access control list.
#[derive(Clone, Copy, Debug, PartialEq, Eq)]
pub struct AclEntry {
    /// Whether the hops that it decides about are allowed (`+`) or denied (`-`).
    pub allows: bool,
    /// Which hops it matches; without a predicate it matches every hop.
    pub pred: Option<HopPred>,
}

impl AclEntry {
    /// Whether it has no predicate.
    pub(crate) fn is_bare(&self) -> bool
        ensures { result ≡ is_bare self.now }
    {
        self.pred.is_none()
    }
}

/// The first denied hop of a walk, and the entry that denies it, each by its place.
#[derive(Clone, Copy, Debug, PartialEq, Eq)]
pub struct Denied {
    /// The place of the hop in the walk, from 0.
    pub hop: usize,
    /// The place of the entry in the list, from 0.
    pub entry: usize,
}

/// An access control list: the first entry that matches a hop decides about it.
///
/// Its type keeps the rules: at most 256 entries; the last has no predicate, and every other has
/// one.
#[derive(Drop)]
pub struct Acl<A: Allocator + Clone> {
    entries: Vec<AclEntry, A>,
}

impl<A: Allocator + Clone> Model for Acl<A> {
    ghost use Rattle.std.specs.Prelude.{List};
    ghost use Rattle.policy_expr.specs.declared.acl.AclEntry.{AclEntry};

    ghost Value = { List AclEntry };

    ghost use Rattle.policy_expr.specs.Acl.{IsAcl};

    ghost view = { λ acl. acl.entries.items };

    ghost invariant = { λ acl. IsAcl acl.entries.items };
}

impl<A: Allocator + Clone> Acl<A> {
    /// The list of these texts. Each is `+` or `-`, and then a predicate or nothing; blanks around
    /// both are ignored. A predicate of wildcards alone counts as no predicate.
    ///
    /// The first of these refusals is returned: [`PolicyFault::BadPredicate`] for an entry that
    /// can't be read, [`PolicyFault::TooLarge`] for more than 256 entries,
    /// [`PolicyFault::NoDefault`] if there is no entry or the last has a predicate,
    /// [`PolicyFault::AfterDefault`] if another one has none. Memory can run out only if none of
    /// them is due.
    pub fn parse(alloc: A, text: &AclText) -> Result<Acl<A>, PolicyError>
        ensures { Answers (λ acl. acl) result (acl_at text.now) }
    {
        check_acl(text)?;
        Ok(Acl::read_lawful(alloc, text)?)
    }

    /// The list of texts that were judged, and have no refusal.
    pub(crate) fn read_lawful(alloc: A, text: &AclText) -> Result<Acl<A>, AllocError>
        requires { IsOk (acl_at text.now) }
        ensures { IfOk result (λ acl. acl_at text.now ≡ Ok acl) }
    {
        let entries = read_entries(alloc, text.texts())?;
        Ok(Acl { entries })
    }

    /// A copy of this list in another allocator, unless memory runs out.
    pub fn clone_in<B: Allocator + Clone>(&self, alloc: B) -> Result<Acl<B>, AllocError>
        ensures { IfOk result (λ acl. acl ≡ self.now) }
    {
        let entries = clone_entries(alloc, &self.entries)?;
        Ok(Acl { entries })
    }

    /// Its entries, in order.
    pub fn entries(&self) -> &[AclEntry]
        ensures value { result.now ≡ self.now }
        ensures kept { IsAcl self.now }
    {
        &self.entries
    }

    /// Succeeds if each hop of the walk is allowed; else returns the first denied hop and the entry
    /// that denies it. Takes no memory.
    pub fn verdict(&self, walk: &[WalkHop]) -> Result<(), Denied>
        ensures ok { IsOk result ↔ AllowsWalk self.now walk.now }
        ensures denied { IfErr result (λ denied. IsDenial self.now walk.now denied) }
    {
        match denial_of(&self.entries, walk) {
            None => Ok(()),
            Some(denied) => Err(denied),
        }
    }
}

/// Copies of these entries.
fn clone_entries<A: Allocator>(
    alloc: A,
    entries: &[AclEntry],
) -> Result<Vec<AclEntry, A>, AllocError>
    ensures { IfOk result (λ copy. copy.items ≡ entries.now) }
{
    let mut copy = Vec::with_capacity(alloc, entries.len())?;
    copy.extend_from_slice(entries)?;
    Ok(copy)
}
