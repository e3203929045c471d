//! What was written is handed on.

ghost use Rattle.std.specs.Prelude.{◌≡◌};
ghost use Rattle.dl_io.specs.Outside.{HasCause};
ghost use Rattle.dl_io.specs.Streams.{IsKnownFront};
ghost use Rattle.dl_files.specs.Handing.{HandsOn};

use dl_io::{Failed, Sink};

/// Hands on what was written. `Failed` where the sink fails: then a front of it was handed on.
pub fn hand_on<S: Sink>(sink: &mut S) -> Result<(), Failed>
    ensures bytes { S.written sink.new ≡ S.written sink.old }
    ensures handed { HandsOn (S.handed sink.new) (S.written sink.new) result }
    ensures front { IsKnownFront (S.handed sink.new) (S.written sink.new) }
    ensures cause { HasCause (S.faults sink.old) (S.faults sink.new) result }
    ensures name { S.name sink.new ≡ S.name sink.old }
{
    match sink.flush() {
        Ok(()) => Ok(()),
        Err(failed) => Err(failed),
    }
}
