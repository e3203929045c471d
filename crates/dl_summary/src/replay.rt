//! Calls that are made once more, on a theory alone.

ghost use Rattle.std.specs.Prelude.{◌<◌, ◌^◌, ◌-◌, OnOk, IfOk};
ghost use Rattle.dl_summary.specs.Replaying.{Takes, Replays};

use dl_base::Memory;
use dl_calls::Call;
use dl_theory::{Edit, EditStop, Theory};

/// How many edits were accepted and refused, and the draft that they lead to.
pub struct Replay {
    pub accepted: u64,
    pub refused: u64,
    pub draft: Theory,
}

impl Drop for Replay {
    fn drop(self) {
        let Replay {
            accepted: _,
            refused: _,
            draft: _,
        } = self;
    }
}

impl Replay {
    /// Makes the edits of these calls on a theory. `Memory` where there is none for an edit.
    pub fn of(theory: Theory, calls: Vec<Call>) -> Result<Replay, Memory>
        ensures { IfOk result (Replays theory calls.items) }
    {
        let mut replay = Replay {
            accepted: 0,
            refused: 0,
            draft: theory,
        };
        for call in calls {
            replay.take(call)?;
        }
        Ok(replay)
    }

    fn take(&mut self, call: Call) -> Result<(), Memory>
        requires accepted { self.old.accepted < 2 ^ 64 - 1 }
        requires refused { self.old.refused < 2 ^ 64 - 1 }
        ensures { OnOk result (Takes self.old call self.new) }
    {
        match call {
            Call::Edit(edit) => self.make(edit),
            _ => Ok(()),
        }
    }

    fn make(&mut self, edit: Edit) -> Result<(), Memory>
        requires accepted { self.old.accepted < 2 ^ 64 - 1 }
        requires refused { self.old.refused < 2 ^ 64 - 1 }
        ensures { OnOk result (Takes self.old (Call.Edit edit) self.new) }
    {
        match self.draft.apply_owned(edit) {
            Ok(()) => self.accepted += 1,
            Err(EditStop::Refused(_)) => self.refused += 1,
            Err(EditStop::Memory) => return Err(Memory),
        }
        Ok(())
    }
}
