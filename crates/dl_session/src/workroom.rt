//! What a session keeps while it runs.

ghost use Rattle.std.specs.Prelude.{◌≡◌, []};
ghost use Rattle.dl_lines.specs.Reading.{unread};

use crate::table::HeldTable;
use dl_base::Memory;
use dl_lines::LineReader;
use std::alloc::Global;

/// Room for a line and a read, and the editions that the session holds.
pub struct Workroom {
    pub(crate) lines: LineReader,
    pub(crate) table: HeldTable,
}

impl Drop for Workroom {
    fn drop(self) {
        let Workroom { lines: _, table: _ } = self;
    }
}

impl Workroom {
    /// Room for any session, or for one after another. `Memory` where there is none.
    pub fn make(alloc: Global) -> Result<Workroom, Memory> {
        let lines = LineReader::make(alloc)?;
        let table = HeldTable::make(alloc);
        Ok(Workroom { lines, table })
    }

    /// Forgets the lines and lets go of the editions.
    pub(crate) fn clear(&mut self)
        ensures lines { self.new.lines ≡ unread }
        ensures table { self.new.table.editions ≡ [] }
    {
        self.lines.restart();
        self.table.clear();
    }
}
