//! `ddl`: what a defeasible theory concludes.
//!
//! The program is `run`, of the crate `ddl`, over a house of files. Here are its two ends: the words of the command line, and the
//! exit status.
#![tactic(auto)]

ghost use Rattle.std.specs.Prelude.{◌≡◌, ◌⊎◌, IfOk, IfErr};
ghost use Rattle.dl_io.specs.House.{IsShut};
ghost use Rattle.dl_io.specs.Standard.{std_house};
ghost use Rattle.dl_files.specs.declared.status.Status.{Status};

use ddl::{Status, run};
use dl_io::StdHouse;
use std::env;
use std::io::ErrorKind;
use std::process::ExitCode;

// The words of the command line without the program's name.
fn words_of(rt: &HostRuntime) -> Result<Vec<String>, Status>
    ensures { IfErr result (λ status. (status ≡ Status.Usage) ⊎ (status ≡ Status.Memory)) }
{
    let args = match env::args(rt) {
        Ok(args) => args,
        Err(error) if error.kind() == ErrorKind::OutOfMemory => return Err(Status::Memory),
        Err(_) => return Err(Status::Usage),
    };
    match args.skip(1).collect(rt.alloc()) {
        Ok(words) => Ok(words),
        Err(_) => Err(Status::Memory),
    }
}

// The words, and a house of the files that they name.
fn begin(rt: &HostRuntime) -> Result<(Vec<String>, StdHouse), Status>
    ensures shut { IfOk result (λ begun. IsShut (std_house begun.1)) }
    ensures stopped { IfErr result (λ status. (status ≡ Status.Usage) ⊎ (status ≡ Status.Memory)) }
{
    let words = words_of(rt)?;
    match StdHouse::make(rt) {
        Ok(house) => Ok((words, house)),
        Err(_) => Err(Status::Memory),
    }
}

fn main(rt: HostRuntime) -> ExitCode {
    let status = match begin(&rt) {
        Ok((words, mut house)) => run(&rt, rt.alloc(), &words, &mut house),
        Err(status) => status,
    };
    ExitCode::from(status)
}
