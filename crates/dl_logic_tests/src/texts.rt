//! Theories that several tests use, what is read from text, and a sink that text is written to.

use dl_io::MemorySink;
use dl_lit::Tagged;
use dl_net::NumberedTheory;
use dl_read::{read_edit, read_file, read_into, read_tagged};
use dl_theory::{Edit, Theory};
use std::alloc::Global;
use std::process::Abort;

/// Penguins are birds that do not fly.
pub(crate) const PENGUIN: &str =
    ">> penguin\nr1: penguin -> bird\nr2: bird => flies\nr3: penguin => -flies\nr3 > r2\n";

/// Rules for `p` and for `-p` that meet, one for `q`, and one from `p` for `-q`.
pub(crate) const AMBIGUOUS: &str = "r1: => p\nr2: => -p\nr3: => q\nr4: p => -q\n";

/// The theory that a text says.
pub(crate) fn theory_of(rt: &impl Abort, alloc: Global, text: &str) -> Theory {
    match read_file(alloc, text.as_bytes()) {
        Ok(theory) => theory,
        Err(_) => panic!(rt; "no theory"),
    }
}

/// The same, by numbers alone.
pub(crate) fn numbered_of(rt: &impl Abort, alloc: Global, text: &str) -> NumberedTheory {
    match read_into(alloc, NumberedTheory::make(alloc), text.as_bytes()) {
        Ok(theory) => theory,
        Err(_) => panic!(rt; "no theory"),
    }
}

pub(crate) fn edit_of(rt: &impl Abort, alloc: Global, text: &str) -> Edit {
    read_edit(alloc, text.as_bytes()).expect(rt, "an edit")
}

pub(crate) fn tagged_of(rt: &impl Abort, alloc: Global, text: &str) -> Tagged {
    read_tagged(alloc, text.as_bytes()).expect(rt, "a tagged literal")
}

/// What is written to it can be read back.
pub(crate) fn sink(alloc: Global) -> MemorySink {
    MemorySink::make(alloc, Vec::new(alloc))
}
