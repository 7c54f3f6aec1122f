ghost use Rattle.std.specs.Prelude.{◌↔◌, ◌<◌, IsTrue, MatchOption, length};
ghost use Rattle.policy_expr.specs.declared.acl.AclEntry.{AclEntry};
ghost use Rattle.policy_expr.specs.Acl.{AllowsWalk, Decides, IsAcl, IsDenial, MatchesBy};

use crate::acl::{AclEntry, Denied};
use crate::hop::WalkHop;

/// The first denied hop of the walk, and the entry that denies it.
pub(crate) fn denial_of(entries: &[AclEntry], walk: &[WalkHop]) -> Option<Denied>
    requires { IsAcl entries.now }
    ensures { MatchOption result (AllowsWalk entries.now walk.now)
        (λ denied. IsDenial entries.now walk.now denied) }
{
    for (place, hop) in walk.iter().enumerate() {
        let entry = decider_of(entries, hop);
        if !entries[entry].allows {
            return Some(Denied { hop: place, entry });
        }
    }
    None
}

/// The place of the first entry that matches the hop.
fn decider_of(entries: &[AclEntry], hop: &WalkHop) -> usize
    requires { IsAcl entries.now }
    ensures decides { (entry : AclEntry) × Decides entries.now hop.now result entry }
    ensures within { result < length entries.now }
{
    // The last entry matches every hop.
    let decider = entries.iter().position(|entry| does_match(entry, hop));
    decider.unwrap()
}

/// Whether the entry matches the hop; an entry without a predicate matches every hop.
fn does_match(entry: &AclEntry, hop: &WalkHop) -> bool
    ensures { IsTrue result ↔ MatchesBy entry.now.pred hop.now }
{
    match &entry.pred {
        None => true,
        Some(pred) => pred.matches(hop),
    }
}
