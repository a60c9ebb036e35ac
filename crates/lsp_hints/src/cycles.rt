//! What is shown of an address and an instruction.

ghost use Rattle.std.specs.Prelude.{◌≡◌, ◌≤◌};
ghost use Rattle.std.specs.Option.{option_map};
ghost use Rattle.lsp_hints.specs.Hints.{hint_words, least_more, most_more, place_words};
ghost use Rattle.source_faults.specs.Views.{found_view};

use formatting::{Text, address_text, push_bytes, push_decimal};
use line_parts::Statement;
use model::{Mnemonic, Mode, Profile, Row};
use optable::decode_in;
use source_faults::Found;

/// Returns the address of a line with bytes, and the row of its opcode if it is an instruction.
pub fn place_of(profile: Profile, found: &Found<'_>) -> Option<(u32, Option<Row>)>
    ensures { option_map (λ place. place_words place.0 place.1) result
        ≡ hint_words profile (found_view found.now).place }
{
    let Found::Bytes(kept) = found else {
        return None;
    };
    match &kept.statement {
        Statement::Instruction(_, _) => match kept.code {
            Some(code) => Some((kept.address, decode_in(profile, code.opcode))),
            None => None,
        },
        Statement::Bytes(_) | Statement::Words(_) | Statement::WordsHighFirst(_) => {
            Some((kept.address, None))
        }
        Statement::Nothing | Statement::Origin(_) | Statement::Reserve(_) | Statement::Finish => {
            None
        }
    }
}

/// Returns how many cycles an instruction takes at least behind those of the table: that of a
/// branch which is always taken.
fn least_more(mnemonic: Mnemonic) -> u64
    ensures value { result ≡ least_more mnemonic }
    ensures small { result ≤ 1 }
{
    match mnemonic {
        Mnemonic::Bra => 1,
        _ => 0,
    }
}

/// Returns how many cycles an instruction takes at most behind those of the table: those of a
/// branch that is taken to another page, or that of a page that is crossed.
fn most_more(mode: Mode, penalty: bool) -> u64
    ensures value { result ≡ most_more mode penalty }
    ensures small { result ≤ 2 }
{
    if mode == Mode::Rel {
        2
    } else if penalty {
        1
    } else {
        0
    }
}

/// Returns what is shown of an address and what stands there: of an instruction the least cycles,
/// and the most behind them if they are more.
pub fn place_words(address: u32, row: Option<Row>) -> Text
    ensures { result.items ≡ place_words address row }
{
    let mut text = Text::new();
    push_bytes(&mut text, b"$");
    push_bytes(&mut text, &address_text(address));
    let Some(row) = row else {
        return text;
    };
    let least = row.cycles as u64 + least_more(row.mnemonic);
    let most = row.cycles as u64 + most_more(row.mode, row.penalty);
    push_bytes(&mut text, b", ");
    push_decimal(&mut text, least);
    if least < most {
        push_bytes(&mut text, b"-");
        push_decimal(&mut text, most);
    }
    push_bytes(&mut text, b" cycles");
    text
}
