//! The functions of C that debug information tells of.

ghost use Rattle.std.specs.Prelude.{◌≡◌, ◌++◌, IfOk, OnOk, map, option_map};
ghost use Rattle.std.specs.Option.{option_copied, option_to_list};
ghost use Rattle.debug_records.specs.Info.{record_at};
ghost use Rattle.debug_records.specs.Views.{c_symbol_view, info_view, scope_view};
ghost use Rattle.source_map.specs.Functions.{c_text, function_at, function_in, function_view};
ghost use Rattle.source_map.specs.Functions.{functions_of, has_address, head_of, head_view};
ghost use Rattle.source_map.specs.Functions.{is_auto, is_symbol, local_if, local_view, locals_in};
ghost use Rattle.source_map.specs.Functions.{register_after, register_behind, text_if, with_locals};
ghost use Rattle.source_map.specs.Functions.{word_of};

use debug_records::{CSymbol, DebugInfo, Scope, Storage, record_at};
use std::alloc::{AllocError, Global};

/// A parameter or a local of a function of C on the software stack.
#[derive(Drop)]
pub struct CLocal {
    pub name: Vec<u8>,
    /// Where it stands in the frame, modulo 65,536.
    pub offset: u16,
    /// Whether the parameter or local that was declared before it is a register variable.
    pub follows_register: bool,
}

/// A function of C: its name in C, its first byte, its size, and its parameters and locals on the
/// software stack.
#[derive(Drop)]
pub struct CFunction {
    pub name: Vec<u8>,
    pub start: u16,
    pub size: u16,
    pub locals: Vec<CLocal>,
}

/// A function of C without its locals.
#[derive(Clone, Copy)]
pub struct Head<'a> {
    pub name: &'a [u8],
    pub start: u16,
    pub size: u16,
}

/// Returns whether what is kept in a way has an address of its own.
fn has_address(storage: Storage) -> bool
    ensures { result ≡ has_address storage }
{
    match storage {
        Storage::Auto | Storage::Register => false,
        Storage::Static | Storage::External => true,
    }
}

/// Returns whether a symbol has a number.
fn is_symbol(number: u32, symbol: Option<u32>) -> bool
    ensures { result ≡ is_symbol number symbol }
{
    match symbol {
        None => false,
        Some(symbol) => symbol == number,
    }
}

/// Returns the text of a name of C, if its symbol has this number and an address.
fn text_if<'a>(symbol: u32, name: Option<CSymbol<'a>>) -> Option<&'a [u8]>
    ensures { option_copied result ≡ text_if symbol (option_map c_symbol_view name.entry) }
{
    match name {
        None => None,
        Some(name) => {
            if has_address(name.storage) && is_symbol(symbol, name.symbol) {
                Some(name.name)
            } else {
                None
            }
        }
    }
}

/// Returns the name in C of a symbol.
fn c_text<'a>(symbol: u32, names: &[Option<CSymbol<'a>>]) -> Option<&'a [u8]>
    ensures { option_copied result ≡ c_text symbol (map (option_map c_symbol_view) names.now) }
{
    for name in names {
        if let Some(text) = text_if(symbol, *name) {
            return Some(text);
        }
    }
    None
}

/// Returns whether a name is kept on the software stack.
fn is_auto(storage: Storage) -> bool
    ensures { result ≡ is_auto storage }
{
    match storage {
        Storage::Auto => true,
        Storage::Register | Storage::Static | Storage::External => false,
    }
}

/// Returns whether the last parameter or local is a register variable, behind one of a storage.
fn register_behind(follows: bool, storage: Storage) -> bool
    ensures { result ≡ register_behind follows storage }
{
    match storage {
        Storage::Auto => false,
        Storage::Register => true,
        Storage::Static | Storage::External => follows,
    }
}

/// Returns whether the last parameter or local of a scope is a register variable, behind a name.
fn register_after(scope: usize, follows: bool, name: Option<CSymbol<'_>>) -> bool
    ensures { result ≡ register_after scope follows (option_map c_symbol_view name.entry) }
{
    match name {
        None => follows,
        Some(name) => {
            if name.scope as usize == scope {
                register_behind(follows, name.storage)
            } else {
                follows
            }
        }
    }
}

/// Appends a parameter or a local of a scope, if a name of C is one.
fn push_local(
    alloc: Global,
    locals: &mut Vec<CLocal>,
    scope: usize,
    follows: bool,
    name: Option<CSymbol<'_>>,
) -> Result<(), AllocError>
    ensures { OnOk result (map local_view locals.new.items ≡ map local_view locals.old.items
        ++ local_if scope follows (option_map c_symbol_view name.entry)) }
{
    let Some(name) = name else {
        return Ok(());
    };
    if name.scope as usize == scope && is_auto(name.storage) {
        let text = Vec::from_slice(alloc, name.name)?;
        locals.push(CLocal {
            name: text,
            offset: name.offset.rem_euclid(65536) as u16,
            follows_register: follows,
        })?;
    }
    Ok(())
}

/// Returns the parameters and locals of a scope, in the order of their numbers.
fn locals_in(
    alloc: Global,
    scope: usize,
    names: &[Option<CSymbol<'_>>],
) -> Result<Vec<CLocal>, AllocError>
    ensures { IfOk result (λ locals. map local_view locals.items
        ≡ locals_in scope (map (option_map c_symbol_view) names.now)) }
{
    let mut locals = Vec::new(alloc);
    let mut follows = false;
    for name in names {
        push_local(alloc, &mut locals, scope, follows, *name)?;
        follows = register_after(scope, follows, *name);
    }
    Ok(locals)
}

/// Returns a number of 16 bits.
fn word_of(number: Option<u32>) -> Option<u16>
    ensures { result ≡ word_of number }
{
    let number = number?;
    if number <= 65535 {
        Some(number as u16)
    } else {
        None
    }
}

/// Returns a function without its locals, if a scope is one.
#[tactic(auto, unfolding(crate::specs::Functions::head_of))]
fn head_of<'a>(info: &DebugInfo<'a>, scope: Scope<'a>) -> Option<Head<'a>>
    ensures { option_map head_view result ≡ head_of (info_view info.now) (scope_view scope.entry) }
{
    let number = scope.symbol?;
    let symbol = record_at(&info.symbols, number)?;
    let start = word_of(symbol.value)?;
    let size = word_of(scope.size)?;
    let name = c_text(number, info.c_symbols.as_slice())?;
    Some(Head { name, start, size })
}

/// Returns a function with its locals.
fn with_locals(alloc: Global, head: Head<'_>, locals: Vec<CLocal>) -> Result<CFunction, AllocError>
    ensures { IfOk result (λ function. function_view function
        ≡ with_locals (map local_view locals.items) (head_view head.entry)) }
{
    Ok(CFunction {
        name: Vec::from_slice(alloc, head.name)?,
        start: head.start,
        size: head.size,
        locals,
    })
}

/// Appends the function of a scope, if it is one.
fn push_function(
    alloc: Global,
    functions: &mut Vec<CFunction>,
    info: &DebugInfo<'_>,
    number: usize,
    scope: Option<Scope<'_>>,
) -> Result<(), AllocError>
    ensures { OnOk result (map function_view functions.new.items
        ≡ map function_view functions.old.items ++ option_to_list
        (function_in (info_view info.now) number (option_map scope_view scope.entry))) }
{
    let Some(scope) = scope else {
        return Ok(());
    };
    let Some(head) = head_of(info, scope) else {
        return Ok(());
    };
    let locals = locals_in(alloc, number, info.c_symbols.as_slice())?;
    let function = with_locals(alloc, head, locals)?;
    functions.push(function)?;
    Ok(())
}

/// Returns the scope of a number.
fn scope_at<'a>(scopes: &[Option<Scope<'a>>], number: usize) -> Option<Scope<'a>>
    ensures { result ≡ record_at scopes.now number }
{
    if number < scopes.len() {
        scopes[number]
    } else {
        None
    }
}

/// Appends the function whose scope has a number, if it is one.
#[tactic(auto, unfolding(crate::specs::Functions::function_at))]
fn push_function_at(
    alloc: Global,
    functions: &mut Vec<CFunction>,
    info: &DebugInfo<'_>,
    number: usize,
) -> Result<(), AllocError>
    ensures { OnOk result (map function_view functions.new.items
        ≡ map function_view functions.old.items
        ++ option_to_list (function_at (info_view info.now) number)) }
{
    let scope = scope_at(info.scopes.as_slice(), number);
    push_function(alloc, functions, info, number, scope)
}

/// Returns the functions of C, in the order of the numbers of their scopes.
///
/// Errors: `AllocError` if an allocation fails.
pub fn functions_of(alloc: Global, info: &DebugInfo<'_>) -> Result<Vec<CFunction>, AllocError>
    ensures { IfOk result (λ functions. map function_view functions.items
        ≡ functions_of (info_view info.now)) }
{
    let mut functions = Vec::new(alloc);
    for number in 0..info.scopes.len() {
        push_function_at(alloc, &mut functions, info, number)?;
    }
    Ok(functions)
}
