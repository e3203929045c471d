//! Streams by the names of sessions.

ghost use Rattle.std.specs.Prelude.{◌≡◌, ◌≤◌, ◌∷◌, [], true, false, map, length, vec_len, vec_capacity, string_bytes, IfOk, IfErr, OnOk};
ghost use Rattle.dl_words.specs.Names.{AreDistinct};
ghost use Rattle.dl_sessions.specs.Served.{told};
ghost use Rattle.dl_journal.specs.Streams.{names_of, MayOpen, opened_pair, opened_all, settled_pair, settled_all, IsFresh, AreFresh, AreOpen, Undoes};

use crate::named::Named;
use dl_io::{House, OpenStop};

/// Takes both streams of a session back.
pub fn settle_pair<H: House>(house: &mut H, named: &Named, source: H::In, sink: H::Out)
    requires input { (H.state house.old).open_in (string_bytes named.now.name) ≡ true }
    requires output { (H.state house.old).open_out (string_bytes named.now.output) ≡ true }
    requires source { H.In.name source ≡ string_bytes named.now.name }
    requires sink { H.Out.name sink ≡ string_bytes named.now.output }
    ensures { H.state house.new ≡ settled_pair (H.state house.old) (string_bytes named.now.name)
        (told H.In.rest H.In.faults H.In.name H.Out.written H.Out.handed H.Out.faults H.Out.name source sink) }
{
    house.settle_in(&named.name, source);
    house.settle_out(&named.output, sink);
}

/// Takes streams back, each pair under the name at its place.
pub fn settle_streams<H: House>(house: &mut H, names: &[Named], mut streams: Vec<(H::In, H::Out)>)
    requires distinct { AreDistinct (names_of names.now) }
    requires open { let t = told H.In.rest H.In.faults H.In.name H.Out.written H.Out.handed H.Out.faults H.Out.name in
        AreOpen (H.state house.old) (names_of names.now) (map (λ s. t s.0 s.1) streams.items) }
    ensures { let t = told H.In.rest H.In.faults H.In.name H.Out.written H.Out.handed H.Out.faults H.Out.name in
        H.state house.new ≡ settled_all (H.state house.old) (names_of names.now) (map (λ s. t s.0 s.1) streams.items) }
{
    while let Some((source, sink)) = streams.pop() {
        settle_pair(house, &names[streams.len()], source, sink);
    }
}

/// Opens a name for input and its output for output, or neither.
fn open_pair<H: House>(house: &mut H, named: &Named) -> Result<(H::In, H::Out), OpenStop>
    requires input { (H.state house.old).open_in (string_bytes named.now.name) ≡ false }
    requires output { (H.state house.old).open_out (string_bytes named.now.output) ≡ false }
    ensures opened { OnOk result (H.state house.new ≡ opened_pair (H.state house.old) (string_bytes named.now.name)) }
    ensures fresh { IfOk result (λ pair. IsFresh H.tells (H.state house.old) (string_bytes named.now.name)
        (told H.In.rest H.In.faults H.In.name H.Out.written H.Out.handed H.Out.faults H.Out.name pair.0 pair.1)) }
    ensures undone { IfErr result (Undoes H.tells (H.state house.old) (H.state house.new) (string_bytes named.now.name ∷ [])) }
{
    let source = house.input(&named.name)?;
    match house.output(&named.output) {
        Ok(sink) => Ok((source, sink)),
        Err(stop) => {
            house.settle_in(&named.name, source);
            Err(stop)
        }
    }
}

/// Opens each name for input and its output for output, in order, and puts the streams into an empty list with room for them. Where an
/// opening fails, all that was opened is settled.
pub fn open_streams<H: House>(
    house: &mut H,
    names: &[Named],
    mut room: Vec<(H::In, H::Out)>,
) -> Result<Vec<(H::In, H::Out)>, OpenStop>
    requires may { MayOpen (H.state house.old) (names_of names.now) }
    requires empty { room.items ≡ [] }
    requires room { length names.now ≤ vec_capacity room }
    ensures opened { OnOk result (H.state house.new ≡ opened_all (H.state house.old) (names_of names.now)) }
    ensures fresh { let t = told H.In.rest H.In.faults H.In.name H.Out.written H.Out.handed H.Out.faults H.Out.name in
        IfOk result (λ streams. AreFresh H.tells (H.state house.old) (names_of names.now) (map (λ s. t s.0 s.1) streams.items)) }
    ensures count { IfOk result (λ streams. vec_len streams ≡ length names.now) }
    ensures undone { IfErr result (Undoes H.tells (H.state house.old) (H.state house.new) (names_of names.now)) }
{
    while room.len() < names.len() {
        match open_pair(house, &names[room.len()]) {
            Ok(pair) => room.push_reserved(pair),
            Err(stop) => {
                settle_streams(house, names, room);
                return Err(stop);
            }
        }
    }
    Ok(room)
}
