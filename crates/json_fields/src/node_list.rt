ghost use Rattle.std.specs.Prelude.{◌≡◌, MatchOption};
ghost use Rattle.json.specs.Value.{items_view};
ghost use Rattle.serde_json.specs.Data.{no_items, item};
ghost use Rattle.json_fields.specs.Data.{items_of};
ghost use Rattle.json_fields.specs.Documents.{node_data, list_items};

use crate::node::Node;
use json::Value;

/// The values of a list in a document.
#[derive(Clone, Copy)]
pub struct NodeList<'v, 'a> {
    values: &'v [Value<'a>],
}

impl<'v, 'a> NodeList<'v, 'a> {
    pub(crate) fn new(values: &'v [Value<'a>]) -> NodeList<'v, 'a>
        ensures { list_items result ≡ items_of (items_view values.now) }
    {
        NodeList { values }
    }

    /// The first value and those after it: `None` if there is none.
    pub fn split_first(&self) -> Option<(Node<'v, 'a>, NodeList<'v, 'a>)>
        ensures { MatchOption result (list_items self.now ≡ no_items)
            (λ found. list_items self.now ≡ item (node_data found.0) (list_items found.1)) }
    {
        let (first, later) = self.values.split_first()?;
        Some((Node::new(first), NodeList::new(later)))
    }
}
