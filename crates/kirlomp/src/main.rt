// The command line: checks lists and says of each that it is well formed, or what is refused, why and where.
#![tactic(auto)]

mod check;

use check::check_list;
use reporting::files::{LONGEST_LIST, each_file};
use std::alloc::{AllocError, Global};
use std::process::ExitCode;
use std::rt::Runtime;
use std::{env, io};

const USAGE: &str = "usage: kirlomp check FILE..
       kirlomp help

check   checks each list and prints 'FILE: well formed, N modules', or its fault as
        'FILE:LINE:COLUMN: refused by CAUSE (LAYER): WORDS' with the line and a mark
        under the column. The exit status is 1 if a list was refused or a file could
        not be read, else 0.
help    prints this.";

// What the command line asks for.
#[derive(Drop)]
enum Command {
    Check(Vec<String>),
    Help,
    Unknown(String),
}

// The command, if one is given.
fn command_of(heap: Global, mut args: env::Args) -> Result<Option<Command>, AllocError> {
    let _program = args.next();
    let Some(name) = args.next() else {
        return Ok(None);
    };
    let command = match name.as_str() {
        "check" => Command::Check(args.collect(heap)?),
        "help" | "--help" | "-h" => Command::Help,
        _ => Command::Unknown(name),
    };
    Ok(Some(command))
}

// Whether all was well. What was not has been printed.
fn run(rt: &impl Runtime, command: Option<Command>) -> io::Result<bool> {
    match command {
        Some(Command::Check(files)) => each_file(
            rt,
            "check",
            &files,
            LONGEST_LIST,
            |list| check_list(rt, list),
        ),
        Some(Command::Help) => {
            println!(rt; "{USAGE}")?;
            Ok(true)
        }
        Some(Command::Unknown(name)) => {
            eprintln!(rt; "kirlomp: there is no command '{name}'\n{USAGE}")?;
            Ok(false)
        }
        None => {
            eprintln!(rt; "kirlomp: no command is given\n{USAGE}")?;
            Ok(false)
        }
    }
}

// The programs' `main` are alike but for their commands; shared, it would take two closures and be longer.
fn main(rt: HostRuntime) -> anyhow::Result<ExitCode> {
    let args = env::args(&rt)?;
    let command = command_of(rt.alloc(), args)?;
    Ok(if run(&rt, command)? {
        ExitCode::SUCCESS
    } else {
        ExitCode::FAILURE
    })
}
