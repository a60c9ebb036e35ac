//! The functions of C that rows can call.

ghost use Rattle.std.specs.Prelude.{◌≡◌, ◌++◌, ◌∷◌, [], IfOk, OnOk, map};
ghost use Rattle.std.specs.Option.{option_map};
ghost use Rattle.source_map.specs.Functions.{local_view};
ghost use Rattle.source_map.specs.Functions.{function_view as view_in_map};
ghost use Rattle.t65_reader.specs.CPrograms.{function_view, program_view};
ghost use Rattle.t65_suites.specs.CFunctions.{IsCProgram, called_function, known_size};
ghost use Rattle.t65_suites.specs.CFunctions.{known_sizes};
ghost use Rattle.t65_suites.specs.CFunctions.{no_size, parameters_in, size_of, sized};
ghost use Rattle.t65_suites.specs.CFunctions.{sizes_by, sizes_with, sizing_view, with_locals};
ghost use Rattle.t65_suites.specs.CFunctions.{with_offset};

use call_frames::{Parameters, Tables, tables_at};
use debugger::Session;
use memory_map::{Image, MapSpec};
use source_map::{CFunction, CLocal, Places};
use std::alloc::{AllocError, Global};
use t65_reader::{CProgram, Function, Size};

/// The most bytes of parameters that the code of cc65 reaches.
const MOST_BYTES: u32 = 256;

/// The sizes of the first parameters of a function.
#[derive(Drop)]
pub struct Sizing {
    pub sizes: Vec<Size>,
    /// The offset of the last one, or of the end of all if there is none; nothing where one has no
    /// size of C.
    pub bound: Option<u32>,
    /// How many bytes the last one has.
    pub last: u32,
}

/// Returns the size of so many bytes, if a parameter has as many.
fn size_of(count: u32) -> Option<Size>
    ensures { result ≡ size_of count }
{
    match count {
        1 => Some(Size::Byte),
        2 => Some(Size::Word),
        4 => Some(Size::Long),
        _ => None,
    }
}

/// Returns the size of a parameter that has so many bytes with those that the file does not have
/// before it, if there are none such.
fn known_size(follows_register: bool, count: u32) -> Option<Size>
    ensures { result ≡ known_size follows_register count }
{
    if follows_register {
        None
    } else {
        size_of(count)
    }
}

/// Adds the parameter at an offset to those before it, if it has a size of C.
fn add_size(
    sizing: &mut Sizing,
    offset: u32,
    count: u32,
    size: Option<Size>,
) -> Result<(), AllocError>
    ensures { OnOk result
        (sizing_view sizing.new ≡ sized sizing.old.sizes.items offset count size) }
{
    sizing.last = count;
    match size {
        None => {
            sizing.bound = None;
            Ok(())
        }
        Some(size) => {
            sizing.bound = Some(offset);
            sizing.sizes.push(size)?;
            Ok(())
        }
    }
}

/// Adds the local at an offset, if it is a parameter.
fn add_offset(sizing: &mut Sizing, offset: u16, follows_register: bool) -> Result<(), AllocError>
    ensures { OnOk result (sizing_view sizing.new
        ≡ with_offset (sizing_view sizing.old) offset follows_register sizing.old.bound) }
{
    let Some(bound) = sizing.bound else {
        return Ok(());
    };
    if offset > 32767 {
        return Ok(());
    }
    let count = bound.saturating_sub(offset as u32);
    let size = known_size(follows_register, count);
    add_size(sizing, offset as u32, count, size)
}

/// Adds the parameters among some locals.
fn add_locals(sizing: &mut Sizing, locals: &[CLocal]) -> Result<(), AllocError>
    ensures { OnOk result (sizing_view sizing.new
        ≡ with_locals (sizing_view sizing.old) (map local_view locals.now)) }
{
    for local in locals {
        add_offset(sizing, local.offset, local.follows_register)?;
    }
    Ok(())
}

/// Returns the sizes that were found, if they are those of all parameters, and the last one is
/// pushed first of all.
fn known_sizes(last: u8, sizing: Sizing) -> Option<Vec<Size>>
    ensures { option_map (λ sizes. sizes.items) result ≡ known_sizes last (sizing_view sizing) }
{
    let Sizing {
        sizes,
        bound,
        last: count,
    } = sizing;
    match bound {
        Some(0) if count == last as u32 => Some(sizes),
        _ => None,
    }
}

/// Returns the sizes of a function's parameters from left to right, if they are known.
fn sizes_by(
    alloc: Global,
    parameters: Parameters,
    locals: &[CLocal],
) -> Result<Option<Vec<Size>>, AllocError>
    ensures { IfOk result (λ found. option_map (λ sizes. sizes.items) found
        ≡ sizes_by parameters.stacked parameters.last (map local_view locals.now)) }
{
    let count = parameters.stacked as u32 + parameters.last as u32;
    if count > MOST_BYTES {
        return Ok(None);
    }
    let mut sizing = Sizing {
        sizes: Vec::new(alloc),
        bound: Some(count),
        last: 0,
    };
    add_locals(&mut sizing, locals)?;
    Ok(known_sizes(parameters.last, sizing))
}

/// Returns the sizes of a function's parameters, where it is known how many bytes these have.
fn sizes_with(
    alloc: Global,
    parameters: Option<Parameters>,
    locals: &[CLocal],
) -> Result<Option<Vec<Size>>, AllocError>
    ensures { IfOk result (λ found. option_map (λ sizes. sizes.items) found
        ≡ sizes_with parameters (map local_view locals.now)) }
{
    match parameters {
        None => Ok(None),
        Some(parameters) => sizes_by(alloc, parameters, locals),
    }
}

/// Returns how many bytes of parameters the function at an address takes, if that is known.
fn parameters_in(tables: &Option<Tables>, address: u16) -> Option<Parameters>
    ensures { result ≡ parameters_in tables.now address }
{
    match tables {
        None => None,
        Some(tables) => tables.parameters_of(address),
    }
}

/// Returns a function as rows call it.
fn called_function(
    alloc: Global,
    tables: &Option<Tables>,
    function: &CFunction,
) -> Result<Function, AllocError>
    ensures { IfOk result (λ called. function_view called
        ≡ called_function tables.now (view_in_map function.now)) }
{
    let parameters = parameters_in(tables, function.start);
    let sizes = sizes_with(alloc, parameters, &function.locals)?;
    Ok(Function {
        name: Vec::from_slice(alloc, &function.name)?,
        address: function.start,
        sizes,
    })
}

/// Returns some functions as rows call them.
fn called_functions(
    alloc: Global,
    tables: &Option<Tables>,
    functions: &[CFunction],
) -> Result<Vec<Function>, AllocError>
    ensures { IfOk result (λ called. map function_view called.items
        ≡ map (called_function tables.now) (map view_in_map functions.now)) }
{
    let mut called = Vec::new(alloc);
    for function in functions {
        let one = called_function(alloc, tables, function)?;
        called.push(one)?;
    }
    Ok(called)
}

/// Returns the functions of C of a program that was loaded on a map, and where its C stack begins.
///
/// Errors: `AllocError` if an allocation fails.
#[tactic(auto, using(crate::proofs::CFunctions::made))]
pub fn c_program_of(
    alloc: Global,
    map: MapSpec,
    image: &Image,
    stack: Option<u16>,
    places: &Places,
) -> Result<CProgram, AllocError>
    ensures { IfOk result (λ program. IsCProgram map image.now stack places.now
        (program_view program)) }
{
    let Ok(session) = Session::new(alloc, map, image, 0) else {
        return Err(AllocError);
    };
    let tables = tables_at(alloc, &session, places)?;
    let functions = called_functions(alloc, &tables, places.functions())?;
    Ok(CProgram { stack, functions })
}
