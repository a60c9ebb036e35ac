//! A list of an answer, made one item after another.

ghost use Rattle.std.specs.Prelude.{◌≡◌, ◌++◌, ◌∷◌, [], IfOk, List, map};
ghost use Rattle.dap_messages.specs.SeenAnswers.{SeenItem, item_view};

use crate::item::Item;
use std::alloc::{AllocError, Global};

/// Returns a list with an item behind it. The only error is that memory ran out, before or here.
fn with_item(
    built: Result<Vec<Item>, AllocError>,
    item: Result<Item, AllocError>,
) -> Result<Vec<Item>, AllocError>
    ensures { (ds : List SeenItem) (d : SeenItem)
        → IfOk built (λ items. map item_view items.items ≡ ds)
        → IfOk item (λ v. item_view v ≡ d)
        → IfOk result (λ items. map item_view items.items ≡ ds ++ d ∷ []) }
{
    let mut items = built?;
    items.push(item?)?;
    Ok(items)
}

/// A list, or that memory ran out on the way.
#[derive(Drop)]
pub struct ItemList {
    built: Result<Vec<Item>, AllocError>,
}

impl ItemList {
    ghost use Rattle.std.specs.Prelude.{◌++◌, ◌∷◌, [], List};
    ghost use Rattle.dap_messages.specs.ItemLists.{HasItems};
    ghost use Rattle.dap_messages.specs.SeenAnswers.{SeenItem, item_view};

    /// Begins with no item.
    pub fn new(alloc: Global) -> ItemList
        ensures { HasItems [] result }
    {
        ItemList {
            built: Ok(Vec::new(alloc)),
        }
    }

    /// Puts an item behind the others. If memory ran out for either, there is no list.
    pub fn with(self, item: Result<Item, AllocError>) -> ItemList
        ensures { (ds : List SeenItem) (d : SeenItem) → HasItems ds self
            → IfOk item (λ v. item_view v ≡ d) → HasItems (ds ++ d ∷ []) result }
    {
        ItemList {
            built: with_item(self.built, item),
        }
    }

    /// Returns the list. The only error is that memory ran out.
    pub fn build(self) -> Result<Vec<Item>, AllocError>
        ensures { (ds : List SeenItem) → HasItems ds self
            → IfOk result (λ items. map item_view items.items ≡ ds) }
    {
        self.built
    }
}
