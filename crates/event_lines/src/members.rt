//! The members of lines and of a topology's objects, with the forms of their values.
//!
//! A line is read exactly if it has its members, and with `ask` a policy; so is an object of a
//! topology ([`laws`](crate::laws)). Who says why a line was not read looks here for the member.

ghost use Rattle.std.specs.Prelude.{◌≡◌, ◌↔◌, ◌&&◌, ◌∷◌, [], codes, true, Some, is_ok, length, map, nat_le, option_and_then, option_map, IsTrue, All};
ghost use Rattle.hex.specs.Hex.{decode_of, is_hex_digit};
ghost use Rattle.isd_as.specs.Reading.{address_at};
ghost use Rattle.serde_json.specs.Data.{Data};
ghost use Rattle.serde_json.specs.Find.{as_array, as_number, as_str, as_u64};
ghost use Rattle.serde_json.specs.View.{view};
ghost use Rattle.event_lines.specs.declared.members.MemberForm.TheVariants.{Text};
ghost use Rattle.event_lines.specs.Members.{are_texts, as_members, end_members, first_misfit, form_text, has_form, has_member, is_plain, link_members, member_value, named, number_within, option_members, policy_members, topology_members};

pub use crate::line::{line_words, members_of};
use crate::policy_misfit::first_no_text;
pub use crate::policy_misfit::{PolicyMisfit, policy_misfit};
use isd_as::IsdAs;
use scion_topology::MAX_KEY_LEN;
use serde_json::Value;
use std::fmt;

/// The form of a member's value.
#[derive(Clone, Copy, Debug, PartialEq, Eq)]
pub enum MemberForm {
    /// An address.
    Address,
    /// An address whose ISD and AS number are not 0.
    AsAddress,
    /// A list.
    Items,
    /// An object.
    Object,
    /// True or false.
    Truth,
    /// A whole number from the first to the second, both included.
    Whole(u64, u64),
    /// A number of 32 bits that is a limit of paths.
    Limit,
    /// A key: 1 to 64 bytes in hexadecimal.
    Key,
    /// Bytes in hexadecimal.
    Bytes,
    /// The kind of a link.
    LinkKind,
    /// A text.
    Text,
    /// A list of texts.
    Texts,
    /// None: the member is to be absent.
    Absent,
}

/// A member that an object is to have: its name, and the form of its value.
#[derive(Clone, Copy, Debug)]
pub struct Member(pub &'static str, pub MemberForm);

/// A number of 8 bits.
pub(crate) const BYTE: MemberForm = MemberForm::Whole(0, 255);

/// A number of 16 bits.
pub(crate) const SHORT: MemberForm = MemberForm::Whole(0, 65_535);

/// A number of 32 bits.
pub(crate) const LONG: MemberForm = MemberForm::Whole(0, 4_294_967_295);

/// The word of a line.
static WORD: [Member; 1] = [Member("do", MemberForm::Text)];

/// The word of a request, and the members with its policy, which may be absent.
static POLICY: [Member; 4] = [
    Member("do", MemberForm::Text),
    Member("acl", MemberForm::Texts),
    Member("sequence", MemberForm::Text),
    Member("options", MemberForm::Items),
];

/// The members of a policy option.
static OPTION: [Member; 3] = [
    Member("weight", LONG),
    Member("acl", MemberForm::Texts),
    Member("sequence", MemberForm::Text),
];

static TOPOLOGY: [Member; 2] = [
    Member("ases", MemberForm::Items),
    Member("links", MemberForm::Items),
];

/// The members of an AS; docs/lines.md has what is said of each.
static AS: [Member; 5] = [
    // its address; neither the ISD nor the AS number is 0
    Member("ia", MemberForm::AsAddress),
    // `true` for a core AS, `false` for any other
    Member("core", MemberForm::Truth),
    // 0 to 255: its hops live for (`exp` + 1) times 337.5 seconds
    Member("exp", BYTE),
    // its key for authenticators, 1 to 64 bytes
    Member("key", MemberForm::Key),
    // the number of its routers, 1 to 64; they are numbered from 0
    Member("routers", MemberForm::Whole(1, 64)),
];

static LINK: [Member; 3] = [
    Member("kind", MemberForm::LinkKind),
    Member("a", MemberForm::Object),
    Member("b", MemberForm::Object),
];

static END: [Member; 3] = [
    Member("ia", MemberForm::AsAddress),
    Member("if", MemberForm::Whole(1, 65_535)),
    Member("router", MemberForm::Whole(0, 63)),
];

/// The member with the word of a line.
pub fn word_member() -> &'static [Member]
    ensures { map member_value result.now ≡ named (codes "do") Text ∷ [] }
{
    &WORD
}

/// The member with the word of a request, and those with its policy, each of which may be absent.
pub fn policy_members() -> &'static [Member]
    ensures { map member_value result.now ≡ policy_members }
{
    &POLICY
}

/// The members of a policy option; `acl` and `sequence` may be absent.
pub fn option_members() -> &'static [Member]
    ensures { map member_value result.now ≡ option_members }
{
    &OPTION
}

/// The members of a topology.
pub fn topology_members() -> &'static [Member]
    ensures { map member_value result.now ≡ topology_members }
{
    &TOPOLOGY
}

/// The members of an AS.
pub fn as_members() -> &'static [Member]
    ensures { map member_value result.now ≡ as_members }
{
    &AS
}

/// The members of a link, whose ends are the objects `a` and `b`.
pub fn link_members() -> &'static [Member]
    ensures { map member_value result.now ≡ link_members }
{
    &LINK
}

/// The members of an end of a link.
pub fn end_members() -> &'static [Member]
    ensures { map member_value result.now ≡ end_members }
{
    &END
}

impl MemberForm {
    /// Whether a value has this form.
    pub fn fits(self, value: &Value) -> bool
        ensures { result ≡ has_form self (view value.now) }
    {
        match self {
            MemberForm::Items => value.is_array(),
            MemberForm::Object => value.is_object(),
            MemberForm::Truth => value.is_boolean(),
            MemberForm::Whole(low, high) => is_whole(value, low, high),
            MemberForm::Limit => is_whole(value, 0, 4_294_967_295),
            MemberForm::Text => value.is_string(),
            MemberForm::Texts => are_texts(value),
            MemberForm::Absent => false,
            MemberForm::Address
            | MemberForm::AsAddress
            | MemberForm::Key
            | MemberForm::Bytes
            | MemberForm::LinkKind => match value.as_str() {
                Some(text) => self.fits_text(text),
                None => false,
            },
        }
    }

    /// Whether a text has this form.
    fn fits_text(self, text: &str) -> bool
        ensures { (d : Data) → as_str d ≡ Some text.now → result ≡ has_form self d }
    {
        match self {
            MemberForm::Address => IsdAs::parse(text).is_ok(),
            MemberForm::AsAddress => is_as_address(text),
            MemberForm::Key => is_key(text.as_bytes()),
            MemberForm::Bytes => is_hexadecimal(text.as_bytes()),
            MemberForm::LinkKind => text == "core" || text == "child",
            MemberForm::Text => true,
            _ => false,
        }
    }
}

/// Whether a value is a whole number from `low` to `high`.
fn is_whole(value: &Value, low: u64, high: u64) -> bool
    ensures { result ≡ number_within low high
        (option_and_then as_u64 (as_number (view value.now))) }
{
    match value.as_u64() {
        Some(number) => low <= number && number <= high,
        None => false,
    }
}

/// Whether a value is a list of texts.
fn are_texts(value: &Value) -> bool
    ensures { result ≡ are_texts (as_array (view value.now)) }
{
    match value.as_array() {
        Some(entries) => first_no_text(entries).is_none(),
        None => false,
    }
}

/// Whether a text is an address of an AS.
fn is_as_address(text: &str) -> bool
    ensures { result ≡ is_plain (address_at text.now) }
{
    match IsdAs::parse(text) {
        Ok(ia) => !ia.is_wildcard(),
        Err(_) => false,
    }
}

/// Whether a text is a key.
fn is_key(text: &[u8]) -> bool
    ensures { result ≡ (nat_le 2 (length text.now)
        && (nat_le (length text.now) 128 && is_ok (decode_of text.now))) }
{
    2 <= text.len() && text.len() <= 2 * MAX_KEY_LEN && is_hexadecimal(text)
}

/// Whether a text is bytes in hexadecimal.
#[tactic(auto, using(crate::proofs::Formed::even_digits, crate::proofs::Formed::odd_length))]
fn is_hexadecimal(text: &[u8]) -> bool
    ensures { result ≡ is_ok (decode_of text.now) }
{
    text.len() % 2 == 0 && are_digits(text)
}

/// Whether each byte is a hexadecimal digit.
fn are_digits(text: &[u8]) -> bool
    ensures { IsTrue result ↔ All (λ byte. is_hex_digit byte ≡ true) text.now }
{
    text.iter().all(|byte| is_digit(*byte))
}

/// Whether a byte is a hexadecimal digit.
fn is_digit(byte: u8) -> bool
    ensures { result ≡ is_hex_digit byte }
{
    byte.is_ascii_hexdigit()
}

impl Member {
    /// Whether an object has this member in its form.
    pub fn is_in(&self, object: &Value) -> bool
        ensures { result ≡ has_member (member_value self.now) (view object.now) }
    {
        match object.get(self.0) {
            Some(value) => self.1.fits(value),
            None => false,
        }
    }
}

/// The first of these members that an object does not have in its form.
#[tactic(auto, using(crate::proofs::Formed::goes_past, crate::proofs::Formed::stops_at))]
pub fn first_misfit<'m>(object: &Value, members: &'m [Member]) -> Option<&'m Member>
    ensures { option_map (λ member. member_value member.now) result
        ≡ first_misfit (map member_value members.now) (view object.now) }
{
    let mut rest = members;
    while let Some((first, later)) = rest.split_first() {
        if !first.is_in(object) {
            return Some(first);
        }
        rest = later;
    }
    None
}

impl fmt::Display for MemberForm {
    ghost output = { λ form. Some (form_text form) };

    fn fmt<W: fmt::Write>(&self, f: &mut fmt::Formatter<W>) -> fmt::Result {
        match self {
            MemberForm::Address => {
                f.write_str("an address such as \"1-ff00:0:110\" or \"1-64512\"")
            }
            MemberForm::AsAddress => f.write_str(
                "an address such as \"1-ff00:0:110\", without a 0 for ISD or AS",
            ),
            MemberForm::Items => f.write_str("a list"),
            MemberForm::Object => f.write_str("an object"),
            MemberForm::Truth => f.write_str("true or false"),
            MemberForm::Whole(low, high) => write!(f, "a whole number from {low} to {high}"),
            MemberForm::Limit => f.write_str("a whole number from 1 to 64"),
            MemberForm::Key => {
                f.write_str("an even number of hexadecimal digits for 1 to 64 bytes")
            }
            MemberForm::Bytes => f.write_str("an even number of hexadecimal digits"),
            MemberForm::LinkKind => f.write_str("\"core\" or \"child\""),
            MemberForm::Text => f.write_str("a text"),
            MemberForm::Texts => f.write_str("a list of texts"),
            MemberForm::Absent => f.write_str("none beside options"),
        }
    }
}
