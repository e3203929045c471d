//! Sessions that were served: their ends, and their streams.

ghost use Rattle.std.specs.Prelude.{◌≡◌, ◌≤◌, [], length, map, vec_capacity};
ghost use Rattle.dl_sessions.specs.Served.{told};
ghost use Rattle.dl_words.specs.Names.{AreDistinct};
ghost use Rattle.dl_journal.specs.Streams.{names_of, settled_all, AreOpen};
ghost use Rattle.dl_serving.specs.Serve.{ends_status};

use dl_files::Status;
use dl_io::House;
use dl_journal::{Named, settle_pair};
use dl_session::End;
use dl_sessions::Session;

/// Puts the end of each session into an empty list that has room for them.
pub(crate) fn note_ends<H: House>(sessions: &[Session<H::In, H::Out>], ends: &mut Vec<End>)
    requires empty { ends.old.items ≡ [] }
    requires room { length sessions.now ≤ vec_capacity ends.old }
    ensures { ends.new.items ≡ map (λ s. s.end) sessions.now }
{
    for session in sessions {
        ends.push_reserved(session.end);
    }
}

/// Takes the streams of each session back, under the name at its place.
pub(crate) fn settle_sessions<H: House>(
    house: &mut H,
    names: &[Named],
    mut sessions: Vec<Session<H::In, H::Out>>,
)
    requires distinct { AreDistinct (names_of names.now) }
    requires opened { let t = told H.In.rest H.In.faults H.In.name H.Out.written H.Out.handed H.Out.faults H.Out.name in
        AreOpen (H.state house.old) (names_of names.now) (map (λ s. t s.source s.sink) sessions.items) }
    ensures { let t = told H.In.rest H.In.faults H.In.name H.Out.written H.Out.handed H.Out.faults H.Out.name in
        H.state house.new ≡ settled_all (H.state house.old) (names_of names.now) (map (λ s. t s.source s.sink) sessions.items) }
{
    while let Some(session) = sessions.pop() {
        let Session {
            source,
            sink,
            end: _,
        } = session;
        settle_pair(house, &names[sessions.len()], source, sink);
    }
}

/// How the program ends after its sessions: by the first that is not done.
pub(crate) fn status_after(ends: &[End]) -> Status
    ensures { result ≡ ends_status ends.now }
{
    for end in ends {
        match end {
            End::Done => {}
            End::ReadFault => return Status::Fault,
            End::WriteFault => return Status::Fault,
            End::Spent => return Status::Spent,
        }
    }
    Status::Done
}
