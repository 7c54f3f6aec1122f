ghost use Rattle.std.specs.Prelude.{◌≡◌, ◌<◌, IfOk, IfSome, IsTrue, OnErr, Bool, Option, option_map};
ghost use Rattle.std.specs.List.{list_all};
ghost use Rattle.serde_json.specs.Data.{Data};
ghost use Rattle.serde_json.specs.Events.{items_len};
ghost use Rattle.json_fields.specs.Documents.{list_items};
ghost use Rattle.json_fields.specs.Fields.{items_at};
ghost use Rattle.json_fields.specs.Readers.{IsReader, GivesPassing};

use crate::node::Node;
use crate::node_list::NodeList;
use std::alloc::{AllocError, Global};

/// The values of a list, each as `one` reads it: `None` if `one` returns `None` for any of them.
///
/// [`AllocError`] if memory ran out, which it can only if the list has a value.
pub fn items<T: Drop, F: Fn(&Node<'_, '_>) -> Option<T>>(
    alloc: Global,
    list: NodeList<'_, '_>,
    one: F,
) -> Result<Option<Vec<T>>, AllocError>
    requires { F.IsAlwaysCallable one }
    ensures value { (reader : Data → Option T) → IsReader F.Fn one reader → IfOk result
        (λ found. option_map (λ v. v.items) found ≡ items_at reader (list_items list.entry)) }
    ensures pass { (test : T → Bool) → GivesPassing F.Fn one test → IfOk result
        (λ found. IfSome found (λ v. IsTrue (list_all test v.items))) }
    ensures wanted { OnErr result (0 < items_len (list_items list.entry)) }
{
    let mut items = Vec::new(alloc);
    let mut left = list;
    while let Some((value, later)) = left.split_first() {
        let Some(item) = one(&value) else {
            return Ok(None);
        };
        items.push(item)?;
        left = later;
    }
    Ok(Some(items))
}
