//! Houses in memory, and how the program ends over them.

ghost use Rattle.std.specs.Prelude.{IfOk};
ghost use Rattle.dl_io.specs.House.{IsShut};
ghost use Rattle.dl_io.specs.Memory.{house_in_memory};

use ddl::{Status, run};
use dl_io::MemoryHouse;
use std::alloc::Global;
use std::process::Abort;
use std::sync::Wait;
use std::test::Fail;
use std::thread::Threads;

/// A file of a house: its name and its bytes, whether each read of it gives one line at most, and at which calls reads of it and writes
/// to it fail.
#[derive(Clone, Copy)]
pub(crate) struct File<'a> {
    pub(crate) name: &'a str,
    pub(crate) bytes: &'a [u8],
    pub(crate) by_lines: bool,
    pub(crate) read_fails: &'a [usize],
    pub(crate) write_fails: &'a [usize],
}

/// A file of which no read and no write fails.
pub(crate) fn faultless<'a>(name: &'a str, bytes: &'a [u8]) -> File<'a> {
    File {
        name,
        bytes,
        by_lines: false,
        read_fails: &[],
        write_fails: &[],
    }
}

fn put(alloc: Global, house: &mut MemoryHouse, file: File<'_>) -> Result<(), Fail>
    requires { IsShut (house_in_memory house.old) }
    ensures { IsShut (house_in_memory house.new) }
{
    let name = String::from_str(alloc, file.name)?;
    let bytes = file.bytes.to_vec(alloc)?;
    let read_fails = file.read_fails.to_vec(alloc)?;
    let write_fails = file.write_fails.to_vec(alloc)?;
    if file.by_lines {
        house.put_lines(name, bytes, read_fails, write_fails)?;
    } else {
        house.put(name, bytes, read_fails, write_fails)?;
    }
    Ok(())
}

/// A house with these files.
pub(crate) fn filled(alloc: Global, files: &[File<'_>]) -> Result<MemoryHouse, Fail>
    ensures { IfOk result (λ house. IsShut (house_in_memory house)) }
{
    let mut house = MemoryHouse::make(alloc);
    for file in files {
        put(alloc, &mut house, *file)?;
    }
    Ok(house)
}

pub(crate) fn words_of(alloc: Global, words: &[&str]) -> Result<Vec<String>, Fail> {
    let mut all = Vec::new(alloc);
    for word in words {
        all.push(String::from_str(alloc, word)?)?;
    }
    Ok(all)
}

fn ended<R: Threads + Wait + Sync>(
    rt: &R,
    alloc: Global,
    words: &[&str],
    house: &mut MemoryHouse,
) -> Result<(Status, Vec<u8>), Fail>
    requires { IsShut (house_in_memory house.old) }
{
    let words = words_of(alloc, words)?;
    let status = run(rt, alloc, &words, house);
    let dash = String::from_str(alloc, "-")?;
    let text = house.wrote(&dash).ok_or("nothing was settled")?;
    Ok((status, text.to_vec(alloc)?))
}

/// The house and how the program ended on the words.
pub(crate) fn served_words<R: Threads + Wait + Sync>(
    rt: &R,
    alloc: Global,
    words: &Vec<String>,
    files: &[File<'_>],
) -> Result<(MemoryHouse, Status), Fail> {
    let mut house = filled(alloc, files)?;
    let status = run(rt, alloc, words, &mut house);
    Ok((house, status))
}

/// The same on words that are written out.
pub(crate) fn served<R: Threads + Wait + Sync>(
    rt: &R,
    alloc: Global,
    words: &[&str],
    files: &[File<'_>],
) -> Result<(MemoryHouse, Status), Fail> {
    let words = words_of(alloc, words)?;
    served_words(rt, alloc, &words, files)
}

/// What was written under a name, and no byte where nothing was settled.
pub(crate) fn text_under(alloc: Global, house: &MemoryHouse, name: &str) -> Result<Vec<u8>, Fail> {
    let name = String::from_str(alloc, name)?;
    let text = match house.wrote(&name) {
        Some(text) => text.to_vec(alloc)?,
        None => Vec::new(alloc),
    };
    Ok(text)
}

/// Words, and the two files that a house has.
#[derive(Clone, Copy)]
pub(crate) struct Asked<'a> {
    pub(crate) words: &'a [&'a str],
    pub(crate) one: File<'a>,
    pub(crate) other: File<'a>,
}

/// How the program ends on the words, and what stands on standard output then.
fn said<R: Threads + Wait + Sync>(
    rt: &R,
    alloc: Global,
    asked: Asked<'_>,
) -> Result<(Status, Vec<u8>), Fail> {
    let mut house = filled(alloc, &[asked.one, asked.other])?;
    ended(rt, alloc, asked.words, &mut house)
}

/// Compares the text on standard output, and how the program ends.
pub(crate) fn expect<R: Threads + Wait + Sync + Abort>(
    rt: &R,
    alloc: Global,
    asked: Asked<'_>,
    status: Status,
    text: &[u8],
) -> Result<(), Fail> {
    let (ended, said) = said(rt, alloc, asked)?;
    assert_eq!(rt; said.as_slice(), text);
    assert_eq!(rt; ended, status);
    Ok(())
}
