//! The viewer of a page.

ghost use Rattle.page_writer.specs.Viewer.{IsViewer};

use crate::page::Template;
use crate::pieces::{BEFORE_END, BEFORE_RUN, BEFORE_SOURCE, HEAD, TAIL};

/// Returns the viewer, between whose parts a page has what it shows.
pub fn viewer() -> Template<'static>
    ensures { IsViewer result }
{
    Template {
        head: HEAD,
        before_source: BEFORE_SOURCE,
        before_run: BEFORE_RUN,
        before_end: BEFORE_END,
        tail: TAIL,
    }
}
