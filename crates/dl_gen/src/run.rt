//! The run of a number's calls: one seat makes them at a desk, and the last edition is surveyed.

ghost use Rattle.std.specs.Prelude.{◌≡◌, ◌-◌, ◌<◌, ◌≤◌, ◌∷◌, [], Some, All, IfOk, OnOk, length, slice_get};
ghost use Rattle.dl_turn.specs.Views.{new_seat};
ghost use Rattle.dl_calls.specs.Histories.{state_after};
ghost use Rattle.dl_edition.specs.Offices.{MayCall};
ghost use Rattle.dl_draw.specs.Generator.{generated_theory, generated_calls};
ghost use Rattle.dl_summary.specs.Summary.{IsSummary, IsSummaryOf};
ghost use Rattle.dl_summary.specs.Replaying.{IsReplay, Replays};
ghost use Rattle.dl_gen.specs.Running.{IsChange, HasMade, IsRun, IsGenerated};

use crate::ask::survey;
use dl_base::Memory;
use dl_calls::Call;
use dl_desk::{Board, Desk};
use dl_draw::{make_calls, make_theory};
use dl_edition::Office;
use dl_summary::{Replay, Summary};
use dl_theory::{Edit, EditStop, Theory};
use dl_turn::Seat;
use std::alloc::Global;
use std::marker::Brand;
use std::sync::Wait;
use std::sync::ledger::{Blank, Book, Ledger, Share};
use std::thread::{Threads, join};

/// Makes an edit. A refusal is an answer like any other.
fn make_edit<L: Ledger, R: Wait>(
    rt: &R,
    desk: &Desk<L>,
    seat: &mut Seat<Board<L>>,
    edit: Edit,
) -> Result<(), Memory>
    requires belongs { seat.old.place ≡ desk.now }
    requires may { MayCall seat.old }
    ensures { OnOk result (HasMade seat.old seat.new (Call.Edit edit ∷ [])) }
{
    match desk.edit(rt, seat, edit) {
        Ok(()) => Ok(()),
        Err(EditStop::Refused(_)) => Ok(()),
        Err(EditStop::Memory) => Err(Memory),
    }
}

fn publish<L: Ledger, R: Wait>(
    rt: &R,
    desk: &Desk<L>,
    seat: &mut Seat<Board<L>>,
) -> Result<(), Memory>
    requires belongs { seat.old.place ≡ desk.now }
    requires may { MayCall seat.old }
    ensures { OnOk result (HasMade seat.old seat.new (Call.Publish ∷ [])) }
{
    match desk.publish(rt, seat) {
        Ok(_) => Ok(()),
        Err(Memory) => Err(Memory),
    }
}

fn make_call<L: Ledger, R: Wait>(
    rt: &R,
    desk: &Desk<L>,
    seat: &mut Seat<Board<L>>,
    call: Call,
) -> Result<(), Memory>
    requires belongs { seat.old.place ≡ desk.now }
    requires may { MayCall seat.old }
    requires call { IsChange call }
    ensures { OnOk result (HasMade seat.old seat.new (call ∷ [])) }
{
    match call {
        Call::Edit(edit) => make_edit(rt, desk, seat, edit),
        Call::Publish => publish(rt, desk, seat),
        Call::Enrol => unreachable!(),
        Call::Hold(_) => unreachable!(),
    }
}

/// Makes calls one after another.
fn make_each<L: Ledger, R: Wait>(
    rt: &R,
    desk: &Desk<L>,
    seat: &mut Seat<Board<L>>,
    calls: Vec<Call>,
) -> Result<(), Memory>
    requires belongs { seat.old.place ≡ desk.now }
    requires may { MayCall seat.old }
    requires calls { All IsChange calls.items }
    ensures { OnOk result (HasMade seat.old seat.new calls.items) }
{
    for call in calls {
        make_call(rt, desk, seat, call)?;
    }
    Ok(())
}

/// A desk for a theory, and its first seat.
fn opened<L: Ledger, R: Wait>(
    rt: &R,
    alloc: Global,
    theory: &Theory,
    book: Book<L>,
) -> Result<(Desk<L>, Seat<Board<L>>), Memory>
    requires { book.total ≡ 0 }
    ensures { IfOk result (λ opened. opened.1 ≡ new_seat opened.0 theory.now []) }
{
    let board = match Board::make(alloc, theory, book) {
        Ok(board) => board,
        Err((_, memory)) => return Err(memory),
    };
    match Desk::make(rt, alloc, board) {
        Ok(opened) => Ok(opened),
        Err((board, memory)) => {
            drop(board);
            Err(memory)
        }
    }
}

/// Enrols the first seat of a desk, makes these calls from it, and takes the board.
fn run_at<L: Ledger, R: Wait>(
    rt: &R,
    theory: &Theory,
    desk: Desk<L>,
    mut seat: Seat<Board<L>>,
    mut share: Share<L>,
    calls: Vec<Call>,
) -> Result<Board<L>, Memory>
    requires seat { seat ≡ new_seat desk theory.now [] }
    requires whole { (share.parts ≡ L.parts) × (0 < share.parts) }
    requires amount { share.amount ≡ 0 }
    requires calls { All IsChange calls.items }
    ensures { IfOk result (IsRun theory.now calls.items) }
{
    let _number = desk.enrol(rt, &mut seat, &mut share)?;
    make_each(rt, &desk, &mut seat, calls)?;
    let (mut board, seat) = desk.finish(rt, seat);
    drop(seat);
    // nobody else is enrolled, so each entry is of this seat
    board.audit(&mut share);
    Ok(board)
}

/// The calls of a number behind the enrolment, which is not made as they are.
fn changes(alloc: Global, seed: u64, size: u64) -> Result<Vec<Call>, Memory>
    requires { size ≤ 4096 }
    ensures calls { IfOk result (λ calls. Call.Enrol ∷ calls.items ≡ generated_calls seed size) }
    ensures changes { IfOk result (λ calls. All IsChange calls.items) }
{
    let mut calls = make_calls(alloc, seed, size)?;
    calls.remove(0);
    Ok(calls)
}

/// The board after one seat made the calls of a number, from the theory of the same number on.
fn board_of<L: Ledger, R: Wait>(
    rt: &R,
    alloc: Global,
    seed: u64,
    size: u64,
    blank: Blank,
) -> Result<Board<L>, Memory>
    requires name { blank.name ≡ L.name }
    requires parts { blank.parts ≡ L.parts }
    requires some { 0 < blank.parts }
    requires size { size ≤ 4096 }
    ensures { IfOk result (IsGenerated seed size) }
{
    let theory = make_theory(alloc, seed, size)?;
    let calls = changes(alloc, seed, size)?;
    let (book, share) = blank.open::<L>();
    let (desk, seat) = opened(rt, alloc, &theory, book)?;
    let board = run_at(rt, &theory, desk, seat, share, calls)?;
    Ok(board)
}

/// What the same calls come to on a theory alone.
fn replay_of(alloc: Global, seed: u64, size: u64) -> Result<Replay, Memory>
    requires { size ≤ 4096 }
    ensures { IfOk result (Replays (generated_theory seed size) (generated_calls seed size)) }
{
    let theory = make_theory(alloc, seed, size)?;
    let calls = make_calls(alloc, seed, size)?;
    let replay = Replay::of(theory, calls)?;
    Ok(replay)
}

/// Makes the calls of a number at a desk and, in a thread of their own, on a theory alone. The desk does not wait for a theory of which each
/// drop costs the length.
fn made_twice<L: Ledger, R: Threads + Wait + Sync>(
    rt: &R,
    alloc: Global,
    seed: u64,
    size: u64,
    blank: Blank,
) -> Result<(Board<L>, Replay), Memory>
    requires name { blank.name ≡ L.name }
    requires parts { blank.parts ≡ L.parts }
    requires some { 0 < blank.parts }
    requires size { size ≤ 4096 }
    ensures board { IfOk result (λ made. IsGenerated seed size made.0) }
    ensures replay { IfOk result (λ made. Replays (generated_theory seed size) (generated_calls seed size) made.1) }
{
    let (replay, board) = join(
        rt,
        move || -> Result<Replay, Memory>
            requires { size ≤ 4096 }
            ensures { IfOk result (Replays (generated_theory seed size) (generated_calls seed size)) }
        { replay_of(alloc, seed, size) },
        move || -> Result<Board<L>, Memory>
            requires { (blank.name ≡ L.name) × (blank.parts ≡ L.parts) × (0 < blank.parts) × (size ≤ 4096) }
            ensures { IfOk result (IsGenerated seed size) }
        { board_of::<L, R>(rt, alloc, seed, size, blank) },
    );
    let replayed = replay?;
    let made = board?;
    Ok((made, replayed))
}

/// The summary of a board of which the last call was a publication.
fn summary_of<L: Ledger>(
    rt: &(impl Threads + Sync),
    alloc: Global,
    board: &Board<L>,
    replay: Replay,
) -> Result<Summary, Memory>
    requires replay { IsReplay board.now.start board.now.history replay }
    requires some { 0 < length (state_after board.now.start board.now.history).editions }
    requires last { let s = state_after board.now.start board.now.history in slice_get s.editions (length s.editions - 1) ≡ Some s.draft }
    ensures { IfOk result (IsSummaryOf board.now.start board.now.history) }
{
    let editions = board.published();
    let held = board.held(editions - 1)?;
    let surveyed = survey(rt, alloc, &held, &replay.draft)?;
    Ok(Summary {
        accepted: replay.accepted,
        refused: replay.refused,
        editions,
        facts: replay.draft.facts_len() as u64,
        rules: replay.draft.rules_len() as u64,
        pairs: replay.draft.pairs_len() as u64,
        survey: surveyed,
    })
}

/// The run at a board with a new ledger.
fn summarize_with<L: Ledger, R: Threads + Wait + Sync>(
    rt: &R,
    alloc: Global,
    seed: u64,
    size: u64,
    blank: Blank,
) -> Result<Summary, Memory>
    requires name { blank.name ≡ L.name }
    requires parts { blank.parts ≡ L.parts }
    requires some { 0 < blank.parts }
    requires size { size ≤ 4096 }
    ensures { IfOk result (IsSummary seed size) }
{
    let made = made_twice::<L, R>(rt, alloc, seed, size, blank)?;
    let (board, replay) = made;
    let summary = summary_of(rt, alloc, &board, replay)?;
    Ok(summary)
}

/// Makes the calls of a number from one seat, from the theory of the same number on, and surveys the last edition. `Memory` where there is
/// none for the theory, a call or the survey.
pub fn summarize<R: Threads + Wait + Sync>(
    rt: &R,
    alloc: Global,
    seed: u64,
    size: u64,
) -> Result<Summary, Memory>
    requires { size ≤ 4096 }
    ensures { IfOk result (IsSummary seed size) }
{
    summarize_with::<Brand, R>(rt, alloc, seed, size, Blank::new(1))
}
