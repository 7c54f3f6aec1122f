#![tactic(auto, unfolding(crate::specs::Text::entry_data, crate::specs::Text::segment_data))]

ghost use Rattle.std.specs.Prelude.{◌≡◌, Ok, Some, IfOk, string_bytes, map, length};
ghost use Rattle.hex.specs.Hex.{encode_lower, decode_sized};
ghost use Rattle.isd_as.specs.Address.{canonical};
ghost use Rattle.isd_as.specs.Reading.{address_at};
ghost use Rattle.serde_json.specs.Data.{array};
ghost use Rattle.serde_json.specs.View.{view, items_of};
ghost use Rattle.json_fields.specs.Fields.{items_at};
ghost use Rattle.path_segment.specs.Reading.{entry_in, chain_at, chain_or_fault, segment_in};
ghost use Rattle.path_segment.specs.Text.{entry_data, kind_name, segment_data, segment_text};

use crate::entry::Entry;
use crate::kind::SegKind;
use crate::segment::Segment;
use isd_as::IsdAs;
use isd_as::laws::printed_is_read;
use serde_json::{Value, json};
use std::alloc::{AllocError, Global};

impl Segment {
    /// The segment as JSON without white space, in one line, with the names in ascending order.
    ///
    /// [`Segment::from_json`] gives the segment back. [`AllocError`] if memory runs out.
    pub fn to_json(&self, alloc: Global) -> Result<String, AllocError>
        ensures text { IfOk result (λ text. string_bytes text ≡ segment_text self.now) }
        ensures back { IfOk result (λ text. segment_in (string_bytes text) ≡ Ok self.now) }
    {
        let value = value_of(alloc, self)?;
        let text = value.to_string(alloc)?;
        Ok(text)
    }
}

/// The name of a kind.
fn name_of(kind: SegKind) -> &'static str
    ensures { result.now ≡ kind_name kind }
{
    match kind {
        SegKind::Core => "core",
        SegKind::Intra => "intra",
    }
}

/// The canonical text of an address; reading it gives the address back.
fn address_text(alloc: Global, ia: &IsdAs) -> Result<String, AllocError>
    ensures text { IfOk result (λ text. string_bytes text ≡ canonical ia.now) }
    ensures again { IfOk result (λ _. address_at (canonical ia.now) ≡ Ok ia.now) }
{
    printed_is_read();
    let number = ia.number();
    let text = format!(in alloc; "{}", IsdAs::from_number(number))?;
    Ok(text)
}

/// An authenticator in lower-case hexadecimal; reading it gives the authenticator back.
fn mac_text(alloc: Global, mac: &[u8]) -> Result<String, AllocError>
    requires { length mac.now ≡ 6 }
    ensures text { IfOk result (λ text. string_bytes text ≡ encode_lower mac.now) }
    ensures again { IfOk result (λ _. decode_sized (encode_lower mac.now) 6 ≡ Ok mac.now) }
{
    let text = hex::encode(alloc, mac)?;
    Ok(text)
}

/// An entry as a JSON value; reading it gives the entry back.
fn entry_value(alloc: Global, entry: &Entry) -> Result<Value, AllocError>
    ensures value { IfOk result (λ v. view v ≡ entry_data entry.now) }
    ensures again { IfOk result (λ _. entry_in (entry_data entry.now) ≡ Some entry.now) }
{
    let ia = address_text(alloc, &entry.ia)?;
    let mac = mac_text(alloc, entry.mac.as_slice())?;
    let ingress = entry.cons_ingress.number();
    let egress = entry.cons_egress.number();
    let exp = entry.exp_time;
    let value = json!(in alloc;
        {"egress": egress, "exp": exp, "ia": &ia, "ingress": ingress, "mac": &mac}
    )?;
    Ok(value)
}

/// The entries as a list of JSON values; reading it gives the entries back.
fn entries_value(alloc: Global, entries: &[Entry]) -> Result<Value, AllocError>
    ensures value { IfOk result (λ v. view v ≡ array (items_of (map entry_data entries.now))) }
    ensures again { IfOk result
        (λ _. items_at entry_in (items_of (map entry_data entries.now)) ≡ Some entries.now) }
{
    let mut values = Vec::with_capacity(alloc, entries.len())?;
    for entry in entries {
        let value = entry_value(alloc, entry)?;
        values.push(value)?;
    }
    Ok(Value::Array(values))
}

/// A segment as a JSON value; reading it gives the segment back.
fn value_of(alloc: Global, segment: &Segment) -> Result<Value, AllocError>
    ensures value { IfOk result (λ v. view v ≡ segment_data segment.now) }
    ensures again { IfOk result
        (λ _. chain_or_fault (chain_at (segment_data segment.now)) ≡ Ok segment.now) }
{
    let kind = name_of(segment.kind());
    let timestamp = segment.timestamp();
    let beta0 = segment.beta0();
    let entries = entries_value(alloc, segment.entries())?;
    let value = json!(in alloc;
        {"beta0": beta0, "entries": entries, "kind": kind, "timestamp": timestamp}
    )?;
    Ok(value)
}
