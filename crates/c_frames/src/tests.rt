//! A call as cc65 makes it, and a function of which nothing is known.

use crate::closing::{depths, rests};
use crate::locals::{Auto, local_at};
use crate::names::effect_named;
use crate::programs::{Function, Program};
use crate::routines::Routine;
use crate::walk::{Standing, frames};
use std::test::Fail;

/// At 01FA the return address of `main`, then its code and that of its function: JSR pushax, PHA,
/// PLA, JMP incsp2.
const CALLED: [u8; 18] = [
    0x02, 0x02, 0, 0, 0, 0, 0x20, 0x04, 0x02, 0x60, 0x20, 0x20, 0x02, 0x48, 0x68, 0x4C, 0x23, 0x02,
];

/// At 01FA a function in which BNE passes over a PHA.
const DIFFERING: [u8; 4] = [0xD0, 0x01, 0x48, 0x60];

/// The frames of a call, and where its parameter is.
#[test]
fn frames_of_a_call(rt: HostRuntime) -> Result<(), Fail> {
    let mut memory = Vec::new(rt.alloc());
    memory.resize(0x01FA, 0u8)?;
    memory.extend_from_slice(&CALLED)?;
    let routines = [
        Routine {
            address: 0x0220,
            effect: effect_named(b"pushax").ok_or("pushax")?,
        },
        Routine {
            address: 0x0223,
            effect: effect_named(b"incsp2").ok_or("incsp2")?,
        },
    ];
    let functions = [
        Function {
            start: 0x0200,
            size: 4,
        },
        Function {
            start: 0x0204,
            size: 8,
        },
    ];
    let program = Program {
        memory: memory.as_slice(),
        routines: &routines,
        functions: &functions,
        pointer: 2,
    };
    let at = Standing {
        pc: 0x0208,
        s: 0xF8,
        sp: 0x6FFE,
    };
    let rests = rests(rt.alloc(), &program)?;
    let depths = depths(rt.alloc(), &program, &rests)?;
    let found = frames(rt.alloc(), &program, &depths, program.memory, at)?;
    assert_eq!(rt; found.len(), 2);
    assert_eq!(rt; found[0].base, Some(0x6FFE));
    assert_eq!(rt; found[1].address, 0x0200);
    assert_eq!(rt; found[1].base, Some(0x7000));
    let auto = Auto {
        offset: 0,
        follows_register: false,
    };
    let local = local_at(&program, &rests, found[0], &[auto], auto).ok_or("no local")?;
    assert_eq!(rt; local.address, 0x6FFE);
    assert_eq!(rt; local.size, Some(2));
    let auto = Auto {
        offset: 0,
        follows_register: true,
    };
    let local = local_at(&program, &rests, found[0], &[auto], auto).ok_or("no local")?;
    assert_eq!(rt; local.address, 0x6FFE);
    assert_eq!(rt; local.size, None);
    Ok(())
}

/// Where two ways differ, there is no base and no caller.
#[test]
fn two_ways_that_differ(rt: HostRuntime) -> Result<(), Fail> {
    let mut memory = Vec::new(rt.alloc());
    memory.resize(0x01FA, 0u8)?;
    memory.extend_from_slice(&DIFFERING)?;
    let functions = [Function {
        start: 0x01FA,
        size: 4,
    }];
    let program = Program {
        memory: memory.as_slice(),
        routines: &[],
        functions: &functions,
        pointer: 2,
    };
    let at = Standing {
        pc: 0x01FA,
        s: 0xF8,
        sp: 0x6FFE,
    };
    let rests = rests(rt.alloc(), &program)?;
    let depths = depths(rt.alloc(), &program, &rests)?;
    let found = frames(rt.alloc(), &program, &depths, program.memory, at)?;
    assert_eq!(rt; found.len(), 1);
    assert_eq!(rt; found[0].base, None);
    Ok(())
}
