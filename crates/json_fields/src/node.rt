#![tactic(auto, unfolding(crate::specs::Fields::list_at, crate::specs::Fields::text_at, crate::specs::Fields::truth_at, crate::specs::Fields::whole_at,))]

ghost use Rattle.std.specs.Prelude.{◌≡◌, ℕ, ◌≤◌, IfSome, is_some, option_map, option_and_then};
ghost use Rattle.json.specs.Value.{value_view};
ghost use Rattle.serde_json.specs.Find.{get, as_str, as_array, as_bool, as_number, as_u64};
ghost use Rattle.json_fields.specs.Fields.{text_at, truth_at, whole_at, list_at};
ghost use Rattle.json_fields.specs.Data.{data_of};
ghost use Rattle.json_fields.specs.Documents.{node_data, list_items};

use crate::node_list::NodeList;
use crate::numbers::whole_number;
use json::Value;

/// A value in a document.
#[derive(Clone, Copy)]
pub struct Node<'v, 'a> {
    value: &'v Value<'a>,
}

impl<'v, 'a> Node<'v, 'a> {
    pub(crate) fn new(value: &'v Value<'a>) -> Node<'v, 'a>
        ensures { node_data result ≡ data_of (value_view value.now) }
    {
        Node { value }
    }

    /// The member of this name: `None` if there is none or the value is no object.
    pub fn member(&self, name: &str) -> Option<Node<'v, 'a>>
        ensures { option_map (λ n. node_data n) result ≡ get name.now (node_data self.now) }
    {
        match self.value.get(name) {
            Some(value) => Some(Node { value }),
            None => None,
        }
    }

    /// Whether there is a member of this name.
    pub fn has(&self, name: &str) -> bool
        ensures { result ≡ is_some (get name.now (node_data self.now)) }
    {
        self.member(name).is_some()
    }

    /// The text that the value is: `None` if it is no text.
    pub fn as_text(&self) -> Option<&'a str>
        ensures { option_map (λ t. t.now) result ≡ as_str (node_data self.now) }
    {
        self.value.as_str()
    }

    /// Whether the value is true: `None` if it is neither true nor false.
    fn as_truth(&self) -> Option<bool>
        ensures { result ≡ as_bool (node_data self.now) }
    {
        self.value.as_bool()
    }

    /// The whole number that the value is.
    fn as_whole(&self) -> Option<u64>
        ensures { result ≡ option_and_then as_u64 (as_number (node_data self.now)) }
    {
        whole_number(self.value.as_number()?)
    }

    /// The values of the list that the value is.
    fn as_list(&self) -> Option<NodeList<'v, 'a>>
        ensures { option_map (λ l. list_items l) result ≡ as_array (node_data self.now) }
    {
        if let Value::Array(values) = self.value {
            Some(NodeList::new(values))
        } else {
            None
        }
    }

    /// The text at this name: `None` if there is no such member or it is no text.
    pub fn text(&self, name: &str) -> Option<&'a str>
        ensures { option_map (λ t. t.now) result ≡ text_at name.now (node_data self.now) }
    {
        self.member(name)?.as_text()
    }

    /// The Boolean at this name: `None` if there is no such member or it is neither true nor false.
    pub fn truth(&self, name: &str) -> Option<bool>
        ensures { result ≡ truth_at name.now (node_data self.now) }
    {
        self.member(name)?.as_truth()
    }

    /// The whole number at this name: `None` if there is no such member, or it is not written as a
    /// whole number from `low` to `high`, both included.
    pub fn whole(&self, name: &str, low: u64, high: u64) -> Option<u64>
        ensures value { result ≡ whole_at low high name.now (node_data self.now) }
        ensures low { IfSome result (λ n. low ≤ n) }
        ensures high { IfSome result (λ n. n ≤ high) }
    {
        let number = self.member(name)?.as_whole()?;
        if low <= number && number <= high {
            Some(number)
        } else {
            None
        }
    }

    /// The values of the list at this name: `None` if there is no such member or it is no list.
    pub fn list(&self, name: &str) -> Option<NodeList<'v, 'a>>
        ensures { option_map (λ l. list_items l) result ≡ list_at name.now (node_data self.now) }
    {
        self.member(name)?.as_list()
    }
}
