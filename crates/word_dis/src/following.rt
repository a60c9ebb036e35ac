//! Where control comes in.

ghost use Rattle.std.specs.Prelude.{◌≡◌, IfOk, map, option_map};
ghost use Rattle.arguments.specs.Words.{all_values};
ghost use Rattle.clap.specs.Words.{found_of};
ghost use Rattle.marks_files.specs.Values.{routine_of};
ghost use Rattle.word_dis.specs.Asked.{addresses_asked, all_of, following_asked, routines_asked};
ghost use Rattle.word_dis.specs.Views.{following_view};
ghost use Rattle.model.specs.Commands.{address_of};

use clap::ArgMatches;
use commands::address_of;
use marks_files::routine;
use reached::Inline;
use std::alloc::{AllocError, Global};

/// Where control comes in, and what stands behind calls.
#[derive(Drop)]
pub struct FollowWords {
    /// The addresses in place of the vectors, if there are some.
    pub only: Option<Vec<u16>>,
    /// More addresses, if control is followed by that.
    pub more: Option<Vec<u16>>,
    /// The routines whose calls are followed by data.
    pub routines: Vec<Inline>,
}

/// The addresses that words write, or `None` where one is wrong.
fn address_list(alloc: Global, words: &[&str]) -> Result<Option<Vec<u16>>, AllocError>
    ensures { IfOk result (λ r. option_map (λ v. v.items) r
        ≡ all_of address_of (map (λ w. w.now) words.now)) }
{
    let mut addresses = Vec::new(alloc);
    for word in words {
        match address_of(word.as_bytes()) {
            Some(address) => addresses.push(address)?,
            None => return Ok(None),
        }
    }
    Ok(Some(addresses))
}

/// The addresses that an option asks for, if it is there, or `None` where one is wrong.
fn addresses_asked(
    alloc: Global,
    words: Option<&[&str]>,
) -> Result<Option<Option<Vec<u16>>>, AllocError>
    ensures { IfOk result (λ r. option_map (option_map (λ v. v.items)) r
        ≡ addresses_asked (option_map (λ s. map (λ w. w.now) s.now) words.entry)) }
{
    match words {
        None => Ok(Some(None)),
        Some(words) => match address_list(alloc, words)? {
            None => Ok(None),
            Some(addresses) => Ok(Some(Some(addresses))),
        },
    }
}

/// The routines that words write, or `None` where one is wrong.
fn routine_list(alloc: Global, words: &[&str]) -> Result<Option<Vec<Inline>>, AllocError>
    ensures { IfOk result (λ r. option_map (λ v. v.items) r
        ≡ all_of routine_of (map (λ w. w.now) words.now)) }
{
    let mut routines = Vec::new(alloc);
    for word in words {
        match routine(word.as_bytes()) {
            Some(routine) => routines.push(routine)?,
            None => return Ok(None),
        }
    }
    Ok(Some(routines))
}

/// The routines that an option asks for, none where it is not there, or `None` where one is wrong.
fn routines_asked(alloc: Global, words: Option<&[&str]>) -> Result<Option<Vec<Inline>>, AllocError>
    ensures { IfOk result (λ r. option_map (λ v. v.items) r
        ≡ routines_asked (option_map (λ s. map (λ w. w.now) s.now) words.entry)) }
{
    match words {
        None => Ok(Some(Vec::new(alloc))),
        Some(words) => routine_list(alloc, words),
    }
}

/// Returns where the values say that control comes in, or `None` where one is wrong. The only error
/// is that a request for memory was refused.
pub fn following_asked(
    alloc: Global,
    matches: &ArgMatches<'_>,
) -> Result<Option<FollowWords>, AllocError>
    ensures { IfOk result (λ r. option_map following_view r
        ≡ following_asked (all_values (found_of matches.now))) }
{
    let Some(only) = addresses_asked(alloc, matches.get_strs("follow-only"))? else {
        return Ok(None);
    };
    let Some(more) = addresses_asked(alloc, matches.get_strs("follow"))? else {
        return Ok(None);
    };
    let Some(routines) = routines_asked(alloc, matches.get_strs("inline"))? else {
        return Ok(None);
    };
    Ok(Some(FollowWords {
        only,
        more,
        routines,
    }))
}
