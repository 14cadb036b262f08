//! The call that compiles a source.

ghost use Rattle.std.specs.Prelude.{◌≡◌, ◌↔◌, IfOk, IsTrue, length};
ghost use Rattle.std.specs.List.{sum};
ghost use Rattle.zic_base.specs.Fault.{fault_of};
ghost use Rattle.zic_base.specs.Memory.{IfRefusal};
ghost use Rattle.zic_compile.specs.Build.{AreFilesOfTexts, IsFaultOfTexts};
ghost use Rattle.zic_source.specs.Texts.{texts_of};
ghost use Rattle.pzic_files.specs.Source.{AreCompiled, IsFaultGiven, texts_in};
ghost use Rattle.pzic_zones.specs.Handle.{IsHandle, held_in};

use pzic_zones::status::{BAD_SOURCE, LENGTHS, NO_MEMORY, OK};
use pzic_zones::{Handle, hold_files};
use std::alloc::{AllocError, Global};
use zic_base::Stop;
use zic_files::Files;
use zic_source::read_source;

/// The first fault of a source.
#[repr(C)]
#[derive(Drop)]
pub struct SourceFault {
    /// The number of the text, from 1.
    pub text: u64,
    /// The number of the line in it, from 1.
    pub line: u64,
    /// The number of the kind.
    pub kind: u32,
}

/// Returns whether the sum of the lengths is this number of bytes.
pub(crate) fn is_whole(lengths: &[usize], count: usize) -> bool
    ensures { IsTrue result ↔ sum lengths.now ≡ count }
{
    let mut left = count;
    for len in lengths {
        match left.checked_sub(*len) {
            Some(rest) => left = rest,
            None => return false,
        }
    }
    left == 0
}

/// Returns a copy of each of the texts of these lengths.
fn copy_texts(alloc: Global, texts: &[u8], lengths: &[usize]) -> Result<Vec<Vec<u8>>, AllocError>
    requires { sum lengths.now ≡ length texts.now }
    ensures { IfOk result (λ copies. texts_of copies.items ≡ texts_in lengths.now texts.now) }
{
    let mut copies = Vec::new(alloc);
    let mut rest = texts;
    for len in lengths {
        let (text, after) = rest.split_at(*len);
        copies.push(Vec::from_slice(alloc, text)?)?;
        rest = after;
    }
    Ok(copies)
}

/// Returns the files of texts.
fn files_of_texts(alloc: Global, texts: &[u8], lengths: &[usize]) -> Result<Files, Stop>
    requires { sum lengths.now ≡ length texts.now }
    ensures ok { IfOk result (AreFilesOfTexts (texts_in lengths.now texts.now)) }
    ensures err { IfRefusal fault_of result (IsFaultOfTexts (texts_in lengths.now texts.now)) }
{
    let copies = copy_texts(alloc, texts, lengths)?;
    let source = read_source(alloc, &copies)?;
    zic_compile::compile(alloc, &source)
}

/// Gives why texts have no files.
fn refuse_source(stop: Stop, reported: &mut SourceFault) -> i32
    ensures { IsFaultGiven (fault_of stop) result reported.old reported.new }
{
    match stop {
        Stop::Fault(fault) => {
            *reported = SourceFault {
                text: fault.place.text,
                line: fault.place.line,
                kind: u32::from(fault.kind.number()),
            };
            BAD_SOURCE
        }
        Stop::Memory => NO_MEMORY,
    }
}

/// Compiles the texts of these lengths, which lie one after another.
pub fn compile(
    alloc: Global,
    texts: &[u8],
    lengths: &[usize],
    files: &mut Handle,
    fault: &mut SourceFault,
) -> i32
    requires { IsHandle files.old }
    ensures handle { IsHandle files.new }
    ensures compiled { AreCompiled texts.now lengths.now result
        fault.old fault.new (held_in files.new) }
{
    drop(files.take(alloc));
    if !is_whole(lengths, texts.len()) {
        return LENGTHS;
    }
    let made = match files_of_texts(alloc, texts, lengths) {
        Ok(made) => made,
        Err(stop) => return refuse_source(stop, fault),
    };
    match hold_files(alloc, made) {
        Ok(held) => {
            files.put(held);
            OK
        }
        Err(_) => NO_MEMORY,
    }
}
