// The program: performs an operator's script from a file, from standard input, or its own demonstration.

#![tactic(auto)]

mod demonstration;

use console::failure::Failure;
use console::session::lines::play;
use demonstration::SCRIPT;
use std::process::ExitCode;
use std::{env, fs, io};

// The script that the arguments name.
fn script(rt: &HostRuntime) -> Result<String, Failure> {
    let mut args = env::args(rt)?;
    let _ = args.next();
    let Some(name) = args.next() else {
        return Ok(String::from_str(rt.alloc(), SCRIPT)?);
    };
    if args.next().is_some() {
        rt.eprintln("usage: ap101s [SCRIPT | -]")?;
        return Err(Failure::Reported);
    }
    if name.as_str() == "-" {
        return Ok(io::read_to_string(rt.alloc(), rt.stdin())?);
    }
    match fs::read_to_string(rt, name.as_str()) {
        Ok(text) => Ok(text),
        Err(error) => {
            eprintln!(rt; "ap101s: {name}: {error}")?;
            Err(Failure::Reported)
        }
    }
}

fn perform(rt: &HostRuntime) -> Result<(), Failure> {
    let text = script(rt)?;
    play(rt, text.as_str())
}

// A session that ends early ends the program with status 1.
fn main(rt: HostRuntime) -> ExitCode {
    perform(&rt).map_or(ExitCode::FAILURE, |()| ExitCode::SUCCESS)
}
