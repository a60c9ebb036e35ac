//! A screen.

ghost use Rattle.std.specs.Prelude.{◌≡◌, ◌≤◌, ◌+◌, ◌++◌, OnOk, length};
ghost use Rattle.std.specs.List.{All};
ghost use Rattle.mon_screen.specs.Cells.{behind_lines, block, written};
ghost use Rattle.mon_screen.specs.View.{answer_block, answer_rows, answer_title, console_block};
ghost use Rattle.mon_screen.specs.View.{cycles_before, has_more, more_title, next_skipped, share_text, turned};
ghost use Rattle.mon_screen.specs.View.{memory_block, middle_block, middle_rows, part_rows};
ghost use Rattle.mon_screen.specs.View.{marks_row, registers_block, stack_columns, state_row};
ghost use Rattle.mon_screen.specs.View.{stretch_block, view_rows, view_text};

use crate::around::push_around;
use crate::cells::{behind_lines, line_count, push_beside, push_block, push_titled};
use crate::marks::push_marks;
use crate::size::Size;
use crate::wording::{ANSWER, CLEAR, CONSOLE, OF, SHOWN, TURN};
use debugger::Session;
use formatting::{push_count, push_text};
use model::Regs;
use mon_lines::Stretch;
use mon_texts::{push_memory, push_screen, push_stack, push_state};
use source_map::Places;
use std::alloc::{AllocError, Global};

/// What a screen shows besides the session's state.
#[derive(Clone, Copy)]
pub struct View {
    /// How many cells it has.
    pub size: Size,
    /// The memory that was asked for last.
    pub stretch: Stretch,
    /// The registers before the last line.
    pub regs: Regs,
    /// The cycles before the last line, if there was one.
    pub cycles: Option<u64>,
    /// How many lines of the answer stand on the pages before.
    pub skipped: u32,
}

/// Returns how many rows the program and the stack have.
fn middle_rows(size: Size) -> u8
    ensures { result ≡ middle_rows size.rows }
{
    8 + (size.rows - 24) / 2
}

/// Returns how wide the stack is: half of a screen, but no more than its rows need.
fn stack_columns(size: Size) -> u8
    ensures value { result ≡ stack_columns size.columns }
    ensures within { result ≤ size.columns }
{
    (size.columns / 2).min(50)
}

/// Returns how many rows each part of memory has, and the console's output.
fn part_rows(size: Size) -> u8
    ensures { result ≡ part_rows size.rows }
{
    2 + (size.rows - 24) / 8
}

/// Returns how many rows the answer has.
fn answer_rows(size: Size) -> u8
    ensures { result ≡ answer_rows size.rows }
{
    size.rows - 5 - middle_rows(size) - 3 * part_rows(size)
}

/// Returns the cycles before the last line, unless they are more than now: then the line went back.
fn cycles_before(before: Option<u64>, now: u64) -> Option<u64>
    ensures { result ≡ cycles_before before now }
{
    let before = before?;
    if now < before { None } else { Some(before) }
}

/// Appends the row of the registers.
fn push_state_row(
    text: &mut Vec<u8>,
    alloc: Global,
    view: View,
    session: &Session,
    places: &Places,
) -> Result<(), AllocError>
    ensures { OnOk result (text.new.items ≡ text.old.items
        ++ written (state_row view session.now.current places.now)) }
{
    let before = cycles_before(view.cycles, session.cycles());
    let mut state = Vec::new(alloc);
    push_state(&mut state, session, places, before)?;
    push_block(text, 1, view.size.columns, state.as_slice())
}

/// Appends the row of marks below the registers.
fn push_marks_row(
    text: &mut Vec<u8>,
    alloc: Global,
    view: View,
    now: Regs,
) -> Result<(), AllocError>
    ensures { OnOk result (text.new.items ≡ text.old.items ++ written (marks_row view now)) }
{
    let mut marks = Vec::new(alloc);
    push_marks(&mut marks, view.regs, now)?;
    push_block(text, 1, view.size.columns, marks.as_slice())
}

/// Appends the rows of the registers.
fn push_registers(
    text: &mut Vec<u8>,
    alloc: Global,
    view: View,
    session: &Session,
    places: &Places,
) -> Result<(), AllocError>
    ensures { OnOk result (text.new.items ≡ text.old.items
        ++ written (registers_block view session.now.current places.now)) }
{
    push_state_row(text, alloc, view, session, places)?;
    push_marks_row(text, alloc, view, session.regs())?;
    Ok(())
}

/// Appends the rows of the program and the stack.
fn push_middle(
    text: &mut Vec<u8>,
    alloc: Global,
    size: Size,
    session: &Session,
    places: &Places,
) -> Result<(), AllocError>
    ensures { OnOk result (text.new.items ≡ text.old.items
        ++ written (middle_block size session.now.current places.now)) }
{
    let count = middle_rows(size);
    let mut program = Vec::new(alloc);
    push_around(&mut program, session, places, count)?;
    let mut stack = Vec::new(alloc);
    push_stack(&mut stack, session, places)?;
    let right = stack_columns(size);
    let left = size.columns - right;
    push_beside(
        text,
        count,
        left,
        right,
        program.as_slice(),
        stack.as_slice(),
    )
}

/// Appends the first rows of a stretch of memory.
fn push_stretch(
    text: &mut Vec<u8>,
    alloc: Global,
    size: Size,
    session: &Session,
    stretch: Stretch,
) -> Result<(), AllocError>
    ensures { OnOk result (text.new.items ≡ text.old.items
        ++ written (stretch_block size session.now.current.bus.memory stretch)) }
{
    let mut memory = Vec::new(alloc);
    push_memory(&mut memory, session, stretch)?;
    push_block(text, part_rows(size), size.columns, memory.as_slice())
}

/// Appends the rows of memory.
fn push_both(
    text: &mut Vec<u8>,
    alloc: Global,
    view: View,
    session: &Session,
) -> Result<(), AllocError>
    ensures { OnOk result (text.new.items ≡ text.old.items
        ++ written (memory_block view session.now.current.bus.memory)) }
{
    let page_zero = Stretch {
        first: 0,
        last: 255,
    };
    push_stretch(text, alloc, view.size, session, page_zero)?;
    push_stretch(text, alloc, view.size, session, view.stretch)?;
    Ok(())
}

/// Appends the rows of the console's output.
fn push_console(
    text: &mut Vec<u8>,
    alloc: Global,
    size: Size,
    session: &Session,
) -> Result<(), AllocError>
    ensures { OnOk result (text.new.items ≡ text.old.items
        ++ written (console_block size session.now.current.bus.out)) }
{
    let mut output = Vec::new(alloc);
    push_screen(&mut output, session)?;
    push_titled(
        text,
        part_rows(size),
        size.columns,
        CONSOLE,
        output.as_slice(),
    )
}

/// Returns how many lines of the answer stand on the page and on those before.
fn turned(view: View) -> u64
    ensures { result ≡ turned view }
{
    view.skipped as u64 + answer_rows(view.size) as u64
}

/// Returns whether an answer has lines that stand on no page so far.
pub fn has_more(view: View, said: &[u8]) -> bool
    ensures { result ≡ has_more view said.now }
{
    turned(view) < line_count(said) as u64
}

/// Returns how many lines of the answer stand before the next page.
pub fn next_skipped(view: View) -> u32
    ensures { result ≡ next_skipped view }
{
    view.skipped.saturating_add(answer_rows(view.size) as u32)
}

/// Appends how many lines were shown, and how many there are.
fn push_share(text: &mut Vec<u8>, shown: u64, count: u64) -> Result<(), AllocError>
    ensures { OnOk result (text.new.items ≡ text.old.items ++ share_text shown count) }
{
    push_count(text, shown)?;
    push_text(text, OF)?;
    push_count(text, count)
}

/// Appends what stands above an answer that has lines on no page so far.
#[tactic(auto, unfolding(crate::specs::View::more_title))]
fn push_more_title(text: &mut Vec<u8>, shown: u64, count: u64) -> Result<(), AllocError>
    ensures { OnOk result (text.new.items ≡ text.old.items ++ more_title shown count) }
{
    push_text(text, ANSWER)?;
    push_text(text, SHOWN)?;
    push_share(text, shown, count)?;
    push_text(text, TURN)
}

/// Appends what stands above an answer.
fn push_title(text: &mut Vec<u8>, view: View, said: &[u8]) -> Result<(), AllocError>
    ensures { OnOk result (text.new.items ≡ text.old.items ++ answer_title view said.now) }
{
    if has_more(view, said) {
        push_more_title(text, turned(view), line_count(said) as u64)
    } else {
        push_text(text, ANSWER)
    }
}

/// Appends the row above an answer.
fn push_title_row(
    text: &mut Vec<u8>,
    alloc: Global,
    view: View,
    said: &[u8],
) -> Result<(), AllocError>
    ensures { OnOk result (text.new.items ≡ text.old.items
        ++ written (block 1 view.size.columns (answer_title view said.now))) }
{
    let mut title = Vec::new(alloc);
    push_title(&mut title, view, said)?;
    push_block(text, 1, view.size.columns, title.as_slice())
}

/// Appends the rows of a page of what the last line was answered with.
fn push_page(text: &mut Vec<u8>, view: View, said: &[u8]) -> Result<(), AllocError>
    ensures { OnOk result (text.new.items ≡ text.old.items
        ++ written (block (answer_rows view.size.rows) view.size.columns
        (behind_lines view.skipped said.now))) }
{
    let page = behind_lines(said, view.skipped as usize);
    push_block(text, answer_rows(view.size), view.size.columns, page)
}

/// Appends the rows of what the last line was answered with.
fn push_answer(text: &mut Vec<u8>, alloc: Global, view: View, said: &[u8]) -> Result<(), AllocError>
    ensures { OnOk result (text.new.items ≡ text.old.items
        ++ written (answer_block view said.now)) }
{
    push_title_row(text, alloc, view, said)?;
    push_page(text, view, said)?;
    Ok(())
}

/// Appends a screen of a session: the terminal is cleared, and `said` is what the last line was
/// answered with. The cursor stands at the beginning of the last row then, which is empty.
///
/// Errors: `AllocError` if an allocation fails.
pub fn push_view(
    text: &mut Vec<u8>,
    alloc: Global,
    view: View,
    session: &Session,
    places: &Places,
    said: &[u8],
) -> Result<(), AllocError>
    ensures ok { OnOk result (text.new.items ≡ text.old.items
        ++ view_text view session.now.current places.now said.now) }
    ensures rows { OnOk result (length (view_rows view session.now.current places.now said.now) + 1
        ≡ view.size.rows) }
    ensures columns { OnOk result (All (λ row. length row ≡ view.size.columns)
        (view_rows view session.now.current places.now said.now)) }
{
    push_text(text, CLEAR)?;
    push_registers(text, alloc, view, session, places)?;
    push_middle(text, alloc, view.size, session, places)?;
    push_both(text, alloc, view, session)?;
    push_console(text, alloc, view.size, session)?;
    push_answer(text, alloc, view, said)?;
    Ok(())
}
