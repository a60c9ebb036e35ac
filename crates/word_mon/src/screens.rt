//! Whether a screen is drawn, and of which size.

ghost use Rattle.arguments_play.specs.Mon.{mon_view};
ghost use Rattle.word_mon.specs.Done.{StartsView};
ghost use Rattle.word_mon.specs.Views.{IsSizeFor};

use arguments_play::MonWords;
use commands::digits;
use mon_screen::{Size, View, first_stretch};
use mon_session::MonState;
use std::io::IsTerminal;
use std::rt::Env;

/// Returns the number of at most seven digits that a variable of the environment has, if any.
fn number_of<H: Env>(rt: &H, name: &str) -> Option<u32> {
    let mut value = [0u8; 7];
    match rt.var(name, &mut value) {
        Ok(length) => digits(&value[..length]),
        Err(_) => None,
    }
}

/// Returns the size of a screen: that which is asked for, otherwise what `COLUMNS` and `LINES` say,
/// and 80 columns and 24 rows where they say nothing.
fn size_for<H: Env>(rt: &H, asked: Option<(u8, u8)>) -> Size
    ensures { IsSizeFor asked result }
{
    match asked {
        Some((columns, rows)) => Size::within(columns as u32, rows as u32),
        None => {
            let columns = number_of(rt, "COLUMNS").unwrap_or(80);
            let rows = number_of(rt, "LINES").unwrap_or(24);
            Size::within(columns, rows)
        }
    }
}

/// Returns whether the input is typed: it is a terminal, or the environment says that another
/// program hands on what is typed at one.
pub fn is_typed<H: Env, R: IsTerminal>(rt: &H, input: &R) -> bool {
    let mut value = [0u8; 1];
    input.is_terminal() || rt.var("MOS65_TYPED", &mut value).is_ok()
}

/// Returns what a screen shows first, if one is asked for and the input is typed.
pub fn first_view<H: Env, R: IsTerminal>(
    rt: &H,
    words: &MonWords<'_>,
    input: &R,
    mon: &MonState,
) -> Option<View>
    ensures { StartsView (mon_view words.now) mon.now result }
{
    if words.has_screen && is_typed(rt, input) {
        Some(View {
            size: size_for(rt, words.size),
            stretch: first_stretch(&mon.session, &mon.places),
            regs: mon.session.regs(),
            cycles: None,
            skipped: 0,
        })
    } else {
        None
    }
}
