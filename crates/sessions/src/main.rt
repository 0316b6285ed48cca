// Scripts of the folder data/, each performed in a session of its own, with the status that the program would end with.

#![tactic(auto)]

use console::failure::Failure;
use console::session::lines::play;
use std::fs;
use std::process::ExitCode;

const SCRIPTS: [&str; 10] = [
    "teaching.script",
    "packed.script",
    "small.script",
    "sheets.script",
    "late_storage.script",
    "second_storage.script",
    "packed_cell.script",
    "cell_past.script",
    "do_inside.script",
    "do_missing.script",
];

fn session(rt: &HostRuntime, name: &str) -> Result<(), Failure> {
    println!(rt; "# {name}")?;
    let script = fs::read_to_string(rt, name)?;
    match play(rt, script.as_str()) {
        Ok(()) => println!(rt; "# status 0")?,
        Err(Failure::Reported) => println!(rt; "# status 1")?,
        Err(failure) => return Err(failure),
    }
    Ok(())
}

fn sessions(rt: &HostRuntime) -> Result<(), Failure> {
    for name in SCRIPTS {
        session(rt, name)?;
    }
    Ok(())
}

fn main(rt: HostRuntime) -> ExitCode {
    sessions(&rt).map_or(ExitCode::FAILURE, |()| ExitCode::SUCCESS)
}
