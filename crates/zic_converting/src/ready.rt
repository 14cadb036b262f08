//! What a conversion needs before it begins: its releases, memory, and stack.

use crate::conversion::ConvertContext;
use std::alloc::{AllocError, Global};
use std::fs::Files;
use std::io::{Input, Write};
use std::slice;
use zic_command_line::{ConvertOptions, Zones};
use zic_host::{expect_folder, read_texts, show_of_folders, show_of_sources};
use zic_io::Failure;

/// The size in bytes of a block that [`keep_memory`] asks for: almost the largest by which the C
/// library adapts.
const LARGE_BLOCK: usize = 33_488_896;

/// The greatest number of workers that are few.
const FEW_WORKERS: u64 = 8;

/// The number of bytes of stack that a conversion by few workers needs of the calling thread, and some more.
const SHORT_STACK: usize = 458_752;

/// The number of bytes that one by up to 64 workers needs, and some more.
const LONG_STACK: usize = 786_432;

/// Reads the sources of a conversion, those of the release that rows are compared with first, and refuses a
/// path that isn't that of a folder. Prints the releases of the zones, if requested.
pub(crate) fn ready_releases<R: Files + Input + AllocGlobal, E: Write>(
    rt: &R,
    order: &ConvertOptions,
    errors: &mut E,
    noted: &mut ConvertContext,
) -> Result<(), Failure> {
    if let Some(old) = &order.against {
        ready(rt, order, old, errors, &mut noted.texts)?;
    }
    ready(rt, order, &order.zones, errors, &mut noted.texts)
}

/// Adds the texts of sources, or refuses a path that isn't that of a folder. Prints the release of the
/// zones, if requested.
fn ready<R: Files + Input + AllocGlobal, E: Write>(
    rt: &R,
    order: &ConvertOptions,
    zones: &Zones,
    errors: &mut E,
    texts: &mut Vec<Vec<u8>>,
) -> Result<(), Failure> {
    match zones {
        Zones::Sources(sources) => add_texts(rt, order, sources, errors, texts),
        Zones::Tree(folder) => {
            expect_folder(rt, folder)?;
            if order.shows_release {
                show_of_folders(rt, errors, slice::from_ref(folder))?;
            }
            Ok(())
        }
    }
}

/// Adds the texts of sources. Prints their releases, if requested.
fn add_texts<R: Files + Input + AllocGlobal, E: Write>(
    rt: &R,
    order: &ConvertOptions,
    sources: &[String],
    errors: &mut E,
    texts: &mut Vec<Vec<u8>>,
) -> Result<(), Failure> {
    let mut more = Vec::new(rt.alloc());
    read_texts(rt, sources, &mut more)?;
    if order.shows_release {
        show_of_sources(rt.alloc(), errors, sources, &more)?;
    }
    for text in more {
        texts.push(text)?;
    }
    Ok(())
}

/// Has the C library keep the memory that rounds of rows give back, and not return it to the system
/// each time: its allocator does so for blocks of up to the size of the largest that was freed
/// (`M_MMAP_THRESHOLD` in mallopt(3)). The block itself is never touched.
pub(crate) fn keep_memory(alloc: Global) {
    drop(block(alloc, LARGE_BLOCK));
}

/// Returns a block of this many bytes without content.
#[inline(never)]
fn block(alloc: Global, len: usize) -> Result<Vec<u8>, AllocError> {
    // Inlined, the compiler would leave out both the block and its end.
    Vec::with_capacity(alloc, len)
}

/// Has the system give the calling thread the stack that a conversion by `workers` workers needs. The system
/// gives a program little of it at first and the rest as it is used, and ends the program by a signal where a
/// limit on its memory (`ulimit -v`) refuses more. So ask for it before texts and rows take what is left.
///
/// # Errors
///
/// `Memory` where the system refuses as much now.
pub fn take_stack(alloc: Global, workers: u64) -> Result<(), Failure> {
    // The stack grows by what the block gives back. The number of workers is an index that the compiler
    // doesn't know.
    let byte = if workers <= FEW_WORKERS {
        drop(block(alloc, SHORT_STACK)?);
        byte_of_short(workers as usize)
    } else {
        drop(block(alloc, LONG_STACK)?);
        byte_of_long(workers as usize)
    };
    match byte {
        0 | 1 => Ok(()),
        _ => Err(Failure::Memory),
    }
}

/// Returns a byte of an array that takes up the stack of few workers.
#[inline(never)]
fn byte_of_short(index: usize) -> u8 {
    let mut stack = [0u8; SHORT_STACK];
    // The compiler doesn't know which byte is written and which is read, so it makes all of them.
    stack[index % SHORT_STACK] = 1;
    stack[index / SHORT_STACK % SHORT_STACK]
}

/// Returns a byte of an array that takes up the stack of many, as [`byte_of_short`] does.
#[inline(never)]
fn byte_of_long(index: usize) -> u8 {
    let mut stack = [0u8; LONG_STACK];
    stack[index % LONG_STACK] = 1;
    stack[index / LONG_STACK % LONG_STACK]
}
