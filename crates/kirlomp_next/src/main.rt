// The command line: checks lists and tapes and says of each that it is accepted, or what is refused, why and where; shows
// lists step by step; makes tapes.
#![tactic(auto)]

mod check;
mod commands;
mod passes;
mod tapes;
mod words;

use check::check_list;
use passes::show_list;
use reporting::files::{LONGEST_LIST, each_file};
use std::alloc::{AllocError, Global};
use std::process::ExitCode;
use std::rt::Runtime;
use std::{env, io};
use tapes::{LONGEST_TAPE, check_tape, make_tape};

const USAGE: &str = "usage: kirlomp check FILE..
       kirlomp steps FILE..
       kirlomp tape FILE..
       kirlomp tape --make [FILE]
       kirlomp help

check   compiles each list and prints 'FILE: accepted, quick Q steps, slow S steps',
        the most steps of a pass of :001 and of :000, or its fault as
        'FILE:LINE:COLUMN: refused by CAUSE (LAYER): WORDS' with the line and a mark
        under the column. The exit status is 1 if a list was refused or a file could
        not be read, else 0.
steps   compiles each list and shows a pass of :001 and one of :000 step by step, with
        all inputs, bytes and timers 0: the command and its place, OP behind it, and
        what was stored. The exit status is as for check.
tape    checks each tape and prints 'FILE: tape, N lines', or its fault as
        'FILE:LINE: refused by CAUSE (LAYER): WORDS'. The exit status is as for check.
        With --make it writes a tape to standard output, from a file or standard input
        with plain lines of eight numbers or dashes between blanks.
help    prints this.";

// What the command line asks for.
#[derive(Drop)]
enum Command {
    Check(Vec<String>),
    Steps(Vec<String>),
    Tape(Vec<String>),
    MakeTape(Option<String>),
    Help,
    Unknown(String),
}

// The files of `tape`, or the one that a tape is made from.
fn tape_command(heap: Global, args: env::Args) -> Result<Command, AllocError> {
    let files: Vec<String> = args.collect(heap)?;
    if files
        .first()
        .is_some_and(|first| first.as_str() == "--make")
    {
        return Ok(Command::MakeTape(files.into_iter().nth(1)));
    }
    Ok(Command::Tape(files))
}

// The command, if one is given.
fn command_of(heap: Global, mut args: env::Args) -> Result<Option<Command>, AllocError> {
    let _program = args.next();
    let Some(name) = args.next() else {
        return Ok(None);
    };
    let command = match name.as_str() {
        "check" => Command::Check(args.collect(heap)?),
        "steps" => Command::Steps(args.collect(heap)?),
        "tape" => tape_command(heap, args)?,
        "help" | "--help" | "-h" => Command::Help,
        _ => Command::Unknown(name),
    };
    Ok(Some(command))
}

// Whether all was well. What was not has been printed.
fn run(rt: &(impl Runtime + AllocGlobal), command: Option<Command>) -> io::Result<bool> {
    match command {
        Some(Command::Check(files)) => each_file(
            rt,
            "check",
            &files,
            LONGEST_LIST,
            |list| check_list(rt, list),
        ),
        Some(Command::Steps(files)) => each_file(
            rt,
            "steps",
            &files,
            LONGEST_LIST,
            |list| show_list(rt, list),
        ),
        Some(Command::Tape(files)) => each_file(
            rt,
            "tape",
            &files,
            LONGEST_TAPE,
            |tape| check_tape(rt, tape),
        ),
        Some(Command::MakeTape(file)) => make_tape(rt, file),
        Some(Command::Help) => {
            println!(rt; "{USAGE}")?;
            Ok(true)
        }
        Some(Command::Unknown(name)) => {
            eprintln!(rt; "kirlomp: there is no command '{name}'\n{USAGE}")?;
            Ok(false)
        }
        None => {
            eprintln!(rt; "kirlomp: no command is given\n{USAGE}")?;
            Ok(false)
        }
    }
}

// The programs' `main` are alike but for their commands; shared, it would take two closures and be longer.
fn main(rt: HostRuntime) -> anyhow::Result<ExitCode> {
    let args = env::args(&rt)?;
    let command = command_of(rt.alloc(), args)?;
    Ok(if run(&rt, command)? {
        ExitCode::SUCCESS
    } else {
        ExitCode::FAILURE
    })
}
