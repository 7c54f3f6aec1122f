ghost use Rattle.std.specs.Prelude.{◌≡◌, ◌==◌, ◌<◌, IsTrue, is_some, length, slice_index, true, false, option_and_then};
ghost use Rattle.std.specs.Char.{is_ascii_digit};
ghost use Rattle.std.specs.List.{list_all};
ghost use Rattle.json.specs.Value.{value_view, items_view, members_view};
ghost use Rattle.serde_json.specs.Find.{as_u64};
ghost use Rattle.serde_json.specs.Read.{number_of, number_from};
ghost use Rattle.json_fields.specs.inner.Numbers.{readable, items_readable, members_readable, is_short_digits};

use fast_float::Numeral;
use json::Value;

/// Is each number of the value within the range of a float?
#[cycle(numbers)]
pub(crate) fn are_numbers_in_range(value: &Value<'_>) -> bool
    ensures { result ≡ readable (value_view value.now) }
{
    match value {
        Value::Null | Value::Bool(_) | Value::String(_) => true,
        Value::Number(text) => is_in_range(text),
        Value::Array(items) => are_items_in_range(items),
        Value::Object(members) => are_members_in_range(members),
    }
}

#[cycle(numbers)]
fn are_items_in_range(items: &Vec<Value<'_>>) -> bool
    ensures { result ≡ items_readable (items_view items.now.items) }
{
    for item in items {
        if !are_numbers_in_range(item) {
            return false;
        }
    }
    true
}

#[cycle(numbers)]
fn are_members_in_range(members: &Vec<(&str, Value<'_>)>) -> bool
    ensures { result ≡ members_readable (members_view members.now.items) }
{
    for member in members {
        if !are_numbers_in_range(&member.1) {
            return false;
        }
    }
    true
}

/// Is the number that a text writes within the range of a float?
fn is_in_range(text: &str) -> bool
    ensures { result ≡ is_some (number_of text.now) }
{
    let bytes = text.as_bytes();
    if is_short_digits(bytes) {
        true
    } else if has_minus(bytes) {
        is_negative_in_range(&Numeral::scan(&bytes[1..]))
    } else {
        is_positive_in_range(&Numeral::scan(bytes))
    }
}

/// Are the bytes 1 to 19 digits? Such a number fits 64 bits, so that it need not be scanned; most
/// numbers are of this kind.
fn is_short_digits(bytes: &[u8]) -> bool
    ensures { result ≡ is_short_digits bytes.now }
{
    !bytes.is_empty() && bytes.len() < 20 && is_all_digits(bytes)
}

/// Is each byte a decimal digit?
fn is_all_digits(bytes: &[u8]) -> bool
    ensures { result ≡ list_all is_ascii_digit bytes.now }
{
    bytes.iter().all(|b| b.is_ascii_digit())
}

/// Is the first byte a minus?
fn has_minus(bytes: &[u8]) -> bool
    ensures value { result ≡ (slice_index bytes.now 0 == 45) }
    ensures len { IsTrue result → 0 < length bytes.now }
{
    !bytes.is_empty() && bytes[0] == b'-'
}

/// Is the number of a numeral without a minus within the range of a float?
fn is_positive_in_range(numeral: &Numeral<'_>) -> bool
    ensures { result ≡ is_some (number_from false numeral.now) }
{
    numeral.to_u64().is_some() || numeral.to_float::<f64>(false).is_finite()
}

/// Is the number of a numeral behind a minus within the range of a float?
fn is_negative_in_range(numeral: &Numeral<'_>) -> bool
    ensures { result ≡ is_some (number_from true numeral.now) }
{
    if let Some(number) = numeral.to_i64(true) {
        if number < 0 {
            return true;
        }
    }
    numeral.to_float::<f64>(true).is_finite()
}

/// The whole number that a number's text writes: `None` if it has a minus, a fraction or an
/// exponent, or does not fit.
pub(crate) fn whole_number(text: &str) -> Option<u64>
    ensures { result ≡ option_and_then as_u64 (number_of text.now) }
{
    let bytes = text.as_bytes();
    if has_minus(bytes) {
        None
    } else {
        Numeral::scan(bytes).to_u64()
    }
}
