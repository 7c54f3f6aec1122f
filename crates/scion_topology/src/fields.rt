ghost use Rattle.std.specs.Prelude.{◌≡◌, ℕ, ◌<◌, true, false, IsTrue, IfSome};
ghost use Rattle.std.specs.Str.{bytes_eq};
ghost use Rattle.json_fields.specs.Documents.{node_data};
ghost use Rattle.scion_topology.specs.Keys.{is_key};
ghost use Rattle.scion_topology.specs.Network.{is_wildcard};
ghost use Rattle.scion_topology.specs.inner.Causes.{is_as, is_link};
ghost use Rattle.scion_topology.specs.Reading.{address_in, key_at, as_entry_at, class_at, end_at, link_at};

use crate::keys::{Key, Keys, MAX_KEY_LEN};
use crate::network::{AsEntry, End, Link, LinkClass};
use isd_as::{IfId, IsdAs};
use json_fields::Node;

/// A member whose value is an address without a wildcard.
#[tactic(auto, unfolding(crate::specs::Reading::address_in))]
fn address(object: &Node<'_, '_>, name: &str) -> Option<IsdAs>
    ensures value { result ≡ address_in name.now (node_data object.now) }
    ensures plain { IfSome result (λ ia. is_wildcard ia ≡ false) }
{
    let text = object.text(name)?;
    match IsdAs::parse(text) {
        Ok(ia) if !ia.is_wildcard() => Some(ia),
        _ => None,
    }
}

/// A member whose value is a key in hexadecimal.
#[tactic(auto, unfolding(crate::specs::Reading::key_at))]
fn key(object: &Node<'_, '_>, name: &str) -> Option<Key>
    ensures value { result ≡ key_at name.now (node_data object.now) }
    ensures fits { IfSome result (λ key. is_key key ≡ true) }
{
    let text = object.text(name)?;
    if text.len() < 2 || text.len() > 2 * MAX_KEY_LEN {
        return None;
    }
    let mut room = [0; MAX_KEY_LEN];
    let key = &mut room[..text.len() / 2];
    match hex::decode_to_slice(text.as_bytes(), key) {
        Ok(()) => Key::new(key).ok(),
        Err(_) => None,
    }
}

/// The AS of a JSON object.
#[tactic(auto, unfolding(crate::specs::Reading::as_entry_at))]
pub(crate) fn as_of(object: &Node<'_, '_>) -> Option<AsEntry>
    ensures value { result ≡ as_entry_at (node_data object.now) }
    ensures fits { IfSome result (λ one. IsTrue (is_as one)) }
{
    let ia = address(object, "ia")?;
    let core = object.truth("core")?;
    let exp_time = object.whole("exp", 0, 255)?;
    let key = key(object, "key")?;
    let routers = object.whole("routers", 1, 64)?;
    Some(AsEntry {
        ia,
        core,
        exp_time: exp_time as u8,
        keys: Keys::first(key),
        routers: routers as u8,
    })
}

/// A member whose value is the class of a link.
#[tactic(auto, unfolding(crate::specs::Reading::class_at))]
fn class(object: &Node<'_, '_>, name: &str) -> Option<LinkClass>
    ensures { result ≡ class_at name.now (node_data object.now) }
{
    let text = object.text(name)?;
    match text {
        "core" => Some(LinkClass::Core),
        "child" => Some(LinkClass::Child),
        _ => None,
    }
}

/// A member whose value is an end of a link.
#[tactic(auto, unfolding(crate::specs::Reading::end_at))]
fn end(object: &Node<'_, '_>, name: &str) -> Option<End>
    ensures value { result ≡ end_at name.now (node_data object.now) }
    ensures some { IfSome result (λ end. 0 < end.number) }
{
    let end = object.member(name)?;
    let ia = address(&end, "ia")?;
    let number = end.whole("if", 1, 65535)?;
    let router = end.whole("router", 0, 63)?;
    Some(End {
        ia,
        number: IfId(number as u16),
        router: router as u8,
    })
}

/// The link of a JSON object; a link that is read is up.
#[tactic(auto, unfolding(crate::specs::Reading::link_at))]
pub(crate) fn link_of(object: &Node<'_, '_>) -> Option<Link>
    ensures value { result ≡ link_at (node_data object.now) }
    ensures fits { IfSome result (λ link. IsTrue (is_link link)) }
{
    let class = class(object, "kind")?;
    let a = end(object, "a")?;
    let b = end(object, "b")?;
    Some(Link {
        class,
        a,
        b,
        up: true,
    })
}
