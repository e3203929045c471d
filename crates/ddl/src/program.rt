//! The top call: from the words of the command line to standard output and a status.

ghost use Rattle.std.specs.Prelude.{◌≡◌, ◌≤◌, ◌⊎◌, ◌∷◌, ◌++◌, [], Bool, List, ℕ, Option, true, false, map, string_bytes, IsTrue, IfOk, OnOk, Some};
ghost use Rattle.std.specs.Str.{bytes_eq};
ghost use Rattle.dl_io.specs.House.{IsShut, IsOpenedOut, settled_out, standard};
ghost use Rattle.dl_io.specs.Outside.{HasCause};
ghost use Rattle.dl_io.specs.Streams.{WritesAll};
ghost use Rattle.dl_journal.specs.Streams.{begun};
ghost use Rattle.dl_replies.specs.Replies.{reply_status, reply_text};
ghost use Rattle.dl_files.specs.Handing.{HandsOn};
ghost use Rattle.ddl.specs.Run.{Runs, AnswersBehind, Replies, MayJudge, Shows, outcome_of, files_for};
ghost use Rattle.dl_files.specs.Reading.{ReadsOnly};
ghost use Rattle.dl_replies.specs.Certified.{SaysOfCertificate};
ghost use Rattle.ddl.specs.Answering.{Works, SaysTo, HoldsTheory, HoldsNumbered};
ghost use Rattle.dl_files.specs.Theories.{limit};
ghost use Rattle.dl_files.specs.Whole.{IsWhole, HasFault};
ghost use Rattle.dl_words.specs.Words.{form, form_of, may_serve, IsRunnable, Conclude, Print, Check, Gen, Serve};
ghost use Rattle.dl_words.specs.declared.words.TheConstants.{MOST_ATOMS};

use dl_files::{Loaded, Refusal, Status, Stop, load, read};
use dl_gen::summarize;
use dl_io::{Failed, House, OpenStop, Sink};
use dl_lit::{Family, Memory};
use dl_net::NumberedTheory;
use dl_replies::{Reply, check, conclusions, print, status_of};
use dl_serving::serve;
use dl_theory::Theory;
use dl_words::{Asked, Command, asked_of};
use std::alloc::Global;
use std::mem;
use std::sync::Wait;
use std::thread::Threads;

// The conclusions, in a family, of what a file gives.
fn conclude(alloc: Global, family: Family, loaded: Loaded<NumberedTheory>) -> Result<Reply, Memory>
    ensures shown { (holds : List ℕ → Option (List ℕ)) (file : List ℕ) → HoldsNumbered (holds file) loaded
        → IfOk result (λ reply. Shows holds (Some (Conclude family file)) (file ∷ []) (outcome_of reply)) }
    ensures ends { IfOk result (λ reply. (reply_status reply ≡ Status.Done) ⊎ (reply_status reply ≡ Status.Refused)) }
{
    match loaded {
        Loaded::Theory(theory) => {
            let concluded = conclusions(alloc, family, theory)?;
            Ok(Reply::Conclusions(family, concluded))
        }
        Loaded::Refused(refusal) => Ok(Reply::Refused(refusal)),
    }
}

// The canonical text of what a file gives.
fn print_of(loaded: Loaded<Theory>) -> Reply
    ensures shown { (holds : List ℕ → Option (List ℕ)) (file : List ℕ) → HoldsTheory (holds file) loaded
        → Shows holds (Some (Print file)) (file ∷ []) (outcome_of result) }
    ensures ends { (reply_status result ≡ Status.Done) ⊎ (reply_status result ≡ Status.Refused) }
{
    match loaded {
        Loaded::Theory(theory) => Reply::Text(theory),
        Loaded::Refused(refusal) => Reply::Refused(refusal),
    }
}

// What is said of a certificate that was read. `None` are more bytes than the limit.
fn check_whole(alloc: Global, theory: &Theory, whole: &Option<Vec<u8>>) -> Result<Reply, Memory>
    ensures said { (bytes : List ℕ) → IsWhole limit (Some bytes) whole.now → IfOk result (SaysOfCertificate theory.now bytes) }
    ensures ends { IfOk result (λ reply. MayJudge (reply_status reply)) }
{
    match whole {
        None => Ok(Reply::Refused(Refusal::Size)),
        Some(bytes) => {
            let checked = check(alloc, theory, bytes)?;
            Ok(Reply::Checked(checked))
        }
    }
}

// What is said of the certificate in a file. The file is settled again.
fn check_file<H: House>(
    alloc: Global,
    house: &mut H,
    theory: &Theory,
    cert: &String,
) -> Result<Reply, Stop>
    requires { (H.state house.old).open_in (string_bytes cert.now) ≡ false }
    ensures house { ReadsOnly (H.state house.old) (H.state house.new) (string_bytes cert.now ∷ []) }
    ensures cause { HasFault (H.state house.old).faults (H.state house.new).faults result }
    ensures ends { IfOk result (λ reply. MayJudge (reply_status reply)) }
    ensures asked { OnOk result ((H.state house.new).asked_in ≡ (H.state house.old).asked_in ++ string_bytes cert.now ∷ []) }
    ensures said { IsTrue H.tells → IfOk result (λ reply. (bytes : List ℕ)
        × ((H.state house.old).holds (string_bytes cert.now) ≡ Some bytes) × SaysOfCertificate theory.now bytes reply) }
{
    let whole = read(alloc, house, cert)?;
    let reply = check_whole(alloc, theory, &whole)?;
    Ok(reply)
}

// Whether the second file is a certificate of the theory in the first, which is loaded before the second is read.
fn check_files<H: House>(
    alloc: Global,
    house: &mut H,
    file: &String,
    cert: &String,
) -> Result<Reply, Stop>
    requires { (name : List ℕ) → (H.state house.old).open_in name ≡ false }
    ensures house { ReadsOnly (H.state house.old) (H.state house.new) (string_bytes file.now ∷ string_bytes cert.now ∷ []) }
    ensures cause { HasFault (H.state house.old).faults (H.state house.new).faults result }
    ensures reply { IfOk result (Replies H.tells (H.state house.old) (H.state house.new) (Some (Check (string_bytes file.now) (string_bytes cert.now)))) }
{
    match load(alloc, house, file, Theory::make(alloc))? {
        Loaded::Refused(refusal) => Ok(Reply::Refused(refusal)),
        Loaded::Theory(theory) => {
            let reply = check_file(alloc, house, &theory, cert)?;
            Ok(reply)
        }
    }
}

// What the calls of a number come to.
fn generate<R: Threads + Wait + Sync>(
    rt: &R,
    alloc: Global,
    seed: u64,
    size: u64,
) -> Result<Reply, Memory>
    requires { size ≤ MOST_ATOMS }
    ensures shown { (holds : List ℕ → Option (List ℕ)) → IfOk result (λ reply. Shows holds (Some (Gen seed size)) [] (outcome_of reply)) }
    ensures ends { IfOk result (λ reply. reply_status reply ≡ Status.Done) }
{
    let summary = summarize(rt, alloc, seed, size)?;
    Ok(Reply::Generated(summary))
}

// The reply to a command. Files are read and settled; nothing is written.
fn reply_of<R: Threads + Wait + Sync, H: House>(
    rt: &R,
    alloc: Global,
    command: Command<'_>,
    house: &mut H,
) -> Result<Reply, Stop>
    requires shut { (name : List ℕ) → (H.state house.old).open_in name ≡ false }
    requires runnable { IsRunnable command }
    ensures house { ReadsOnly (H.state house.old) (H.state house.new) (files_for (Some (form_of command.entry))) }
    ensures cause { HasFault (H.state house.old).faults (H.state house.new).faults result }
    ensures reply { IfOk result (Replies H.tells (H.state house.old) (H.state house.new) (Some (form_of command.entry))) }
{
    match command {
        Command::Conclude(family, file) => {
            let loaded = load(alloc, house, file, NumberedTheory::make(alloc))?;
            let reply = conclude(alloc, family, loaded)?;
            Ok(reply)
        }
        Command::Print(file) => {
            let loaded = load(alloc, house, file, Theory::make(alloc))?;
            Ok(print_of(loaded))
        }
        Command::Check(file, cert) => {
            let reply = check_files(alloc, house, file, cert)?;
            Ok(reply)
        }
        Command::Gen(seed, size) => {
            let reply = generate(rt, alloc, seed, size)?;
            Ok(reply)
        }
    }
}

// Prints a reply, hands it on, and leaves what it holds to the system.
fn say<S: Sink>(alloc: Global, sink: &mut S, reply: Reply) -> Result<(), Failed>
    ensures bytes { WritesAll (S.written sink.old) (S.written sink.new) result (reply_text reply) }
    ensures handed { HandsOn (S.handed sink.new) (S.written sink.new) result }
    ensures cause { HasCause (S.faults sink.old) (S.faults sink.new) result }
    ensures name { S.name sink.new ≡ S.name sink.old }
{
    let printed = print(alloc, sink, &reply);
    // The process ends after its reply: the system takes memory back at once, where a drop would go along every rule.
    mem::forget(reply);
    printed
}

// Prints the reply, unless there is none for want of memory or a fault.
fn answer<S: Sink>(alloc: Global, sink: &mut S, reply: Result<Reply, Stop>) -> Status
    ensures said { (tells : Bool) → S.written sink.old ≡ begun tells → S.handed sink.old ≡ begun tells → S.faults sink.old ≡ 0
        → SaysTo tells (S.handed sink.new) (S.faults sink.new) reply result }
    ensures name { S.name sink.new ≡ S.name sink.old }
{
    match reply {
        Ok(reply) => {
            let status = status_of(&reply);
            match say(alloc, sink, reply) {
                Ok(()) => status,
                Err(Failed) => Status::Fault,
            }
        }
        Err(Stop::Fault) => Status::Fault,
        Err(Stop::Memory) => Status::Memory,
    }
}

// Serves sessions from the theory in a file, or says why it gives none.
fn serve_file<R: Threads + Wait + Sync, H: House>(
    rt: &R,
    alloc: Global,
    file: &String,
    names: &[String],
    house: &mut H,
    sink: &mut H::Out,
) -> Status
    requires shut { (name : List ℕ) → (H.state house.old).open_in name ≡ false }
    requires only { (name : List ℕ) → bytes_eq standard name ≡ false → (H.state house.old).open_out name ≡ false }
    requires may { may_serve (string_bytes file.now) (map string_bytes names.now) ≡ true }
    requires opened { IsOpenedOut H.tells standard (H.Out.written sink.old) (H.Out.handed sink.old) (H.Out.name sink.old) (H.Out.faults sink.old) }
    ensures house { Works (H.state house.old) (H.state house.new) (Some (Serve (string_bytes file.now) (map string_bytes names.now))) }
    ensures name { H.Out.name sink.new ≡ standard }
    ensures answer { (words : List (List ℕ)) → form words ≡ Some (Serve (string_bytes file.now) (map string_bytes names.now))
        → AnswersBehind [] H.tells (H.state house.old)
        (settled_out (H.state house.new) standard (H.Out.handed sink.new) (H.Out.faults sink.new)) words result }
{
    match load(alloc, house, file, Theory::make(alloc)) {
        Ok(Loaded::Theory(theory)) => {
            let status = serve(rt, alloc, &theory, names, house, sink);
            mem::forget(theory);
            status
        }
        Ok(Loaded::Refused(refusal)) => answer(alloc, sink, Ok(Reply::Refused(refusal))),
        Err(Stop::Fault) => Status::Fault,
        Err(Stop::Memory) => Status::Memory,
    }
}

// Answers the words on a new sink, which is then to be settled as standard output.
fn respond<R: Threads + Wait + Sync, H: House>(
    rt: &R,
    alloc: Global,
    words: &Vec<String>,
    house: &mut H,
    sink: &mut H::Out,
) -> Status
    requires shut { (name : List ℕ) → (H.state house.old).open_in name ≡ false }
    requires only { (name : List ℕ) → bytes_eq standard name ≡ false → (H.state house.old).open_out name ≡ false }
    requires opened { IsOpenedOut H.tells standard (H.Out.written sink.old) (H.Out.handed sink.old) (H.Out.name sink.old) (H.Out.faults sink.old) }
    ensures house { Works (H.state house.old) (H.state house.new) (form (map string_bytes words.now.items)) }
    ensures name { H.Out.name sink.new ≡ standard }
    ensures answer { AnswersBehind [] H.tells (H.state house.old)
        (settled_out (H.state house.new) standard (H.Out.handed sink.new) (H.Out.faults sink.new))
        (map string_bytes words.now.items) result }
{
    match asked_of(words) {
        Some(Asked::Serve(file, names)) => serve_file(rt, alloc, file, names, house, sink),
        Some(Asked::Command(command)) => {
            let reply = reply_of(rt, alloc, command, house);
            answer(alloc, sink, reply)
        }
        None => answer(alloc, sink, Ok(Reply::Usage)),
    }
}

/// The program: it answers the words of the command line on standard output, and says how it ends.
pub fn run<R: Threads + Wait + Sync, H: House>(
    rt: &R,
    alloc: Global,
    words: &Vec<String>,
    house: &mut H,
) -> Status
    requires { IsShut (H.state house.old) }
    ensures { Runs H.tells (H.state house.old) (H.state house.new) (map string_bytes words.now.items) result }
{
    let Ok(dash) = String::from_str(alloc, "-") else {
        return Status::Memory;
    };
    match house.output(&dash) {
        Ok(mut sink) => {
            let status = respond(rt, alloc, words, house, &mut sink);
            house.settle_out(&dash, sink);
            status
        }
        Err(OpenStop::Failed) => Status::Fault,
        Err(OpenStop::Memory) => Status::Memory,
    }
}
