//! A page of a list.

ghost use Rattle.std.specs.Prelude.{◌≡◌};
ghost use Rattle.dap_views.specs.Pages.{limit};

use dap_messages::{Item, ItemList, Page};
use std::alloc::{AllocError, Global};

/// Returns how many items a page takes at most, if it does not take all.
fn limit(count: u64) -> Option<u64>
    ensures { result ≡ limit count }
{
    if count == 0 { None } else { Some(count) }
}

/// A page of a list whose items are made one after another.
#[derive(Drop)]
pub struct Paged {
    list: ItemList,
    /// How many items are still to be left out in front of the page.
    skip: u64,
    /// How many more it takes at most, if it does not take all.
    left: Option<u64>,
}

impl Paged {
    ghost use Rattle.std.specs.Prelude.{◌++◌, ◌∷◌, [], IfOk, List, map as each};
    ghost use Rattle.dap_messages.specs.declared.request.Page.{Page};
    ghost use Rattle.dap_views.specs.Pages.{IsPage, page_of};
    ghost use Rattle.dap_messages.specs.SeenAnswers.{SeenItem, item_view};

    /// Begins with no item of the list.
    pub fn new(alloc: Global, asked: Page) -> Paged
        ensures { IsPage asked [] result }
    {
        Paged {
            list: ItemList::new(alloc),
            skip: asked.first,
            left: limit(asked.count),
        }
    }

    /// Takes the next item of the list, if it is on the page. If memory ran out for one that is,
    /// there is no page.
    #[tactic(auto, using(crate::proofs::Paging::passed_by, crate::proofs::Paging::taken, crate::proofs::Paging::left_out, crate::proofs::Paging::taken_last))]
    pub fn with(self, item: Result<Item, AllocError>) -> Paged
        ensures { (asked : Page) (ds : List SeenItem) (d : SeenItem) → IsPage asked ds self
            → IfOk item (λ v. item_view v ≡ d) → IsPage asked (ds ++ d ∷ []) result }
    {
        if self.skip > 0 {
            return Paged {
                list: self.list,
                skip: self.skip - 1,
                left: self.left,
            };
        }
        match self.left {
            None => Paged {
                list: self.list.with(item),
                skip: 0,
                left: None,
            },
            Some(0) => Paged {
                list: self.list,
                skip: 0,
                left: Some(0),
            },
            Some(left) => Paged {
                list: self.list.with(item),
                skip: 0,
                left: Some(left - 1),
            },
        }
    }

    /// Returns the page. The only error is that memory ran out.
    pub fn build(self) -> Result<Vec<Item>, AllocError>
        ensures { (asked : Page) (ds : List SeenItem) → IsPage asked ds self
            → IfOk result (λ items. each item_view items.items ≡ page_of asked ds) }
    {
        self.list.build()
    }
}
