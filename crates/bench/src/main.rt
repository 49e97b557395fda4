// Runs a bench script, from standard input or from the file that its one argument names, and prints what its calls were answered.
#![tactic(auto)]

use script::{ScriptFault, parse, perform, text_of};
use std::alloc::AllocError;
use std::io::{BufWriter, Read, Write};
use std::process::ExitCode;
use std::{env, fs, io};
use thiserror::Error;

#[derive(Debug, Drop, Error)]
enum Failure {
    #[error("usage: bench [SCRIPT]")]
    Arguments,
    #[error("{0}")]
    Script(#[from] ScriptFault),
    #[error("not enough memory")]
    Memory(#[from] AllocError),
    #[error("cannot read the script: {0}")]
    Input(io::Error),
    #[error("cannot write: {0}")]
    Output(io::Error),
}

fn read_input(rt: &HostRuntime) -> io::Result<Vec<u8>> {
    let mut bytes = Vec::new(rt.alloc());
    rt.stdin().read_to_end(&mut bytes)?;
    Ok(bytes)
}

// The script that the arguments ask for.
fn read_script(rt: &HostRuntime) -> Result<Vec<u8>, Failure> {
    let mut args = env::args(rt).map_err(Failure::Input)?;
    let _name = args.next();
    let read = match (args.next(), args.next()) {
        (None, _) => read_input(rt),
        (Some(path), None) => fs::read(rt, path.as_str()),
        _ => return Err(Failure::Arguments),
    };
    read.map_err(Failure::Input)
}

fn bench(rt: &HostRuntime) -> Result<(), Failure> {
    let bytes = read_script(rt)?;
    let script = parse(rt.alloc(), text_of(bytes.as_slice())?)?;
    let listing = perform(rt.alloc(), script)?;
    let mut out = BufWriter::new(rt.alloc(), rt.stdout()).map_err(Failure::Output)?;
    let written = write!(out, "{listing}");
    written.and(out.flush()).map_err(Failure::Output)
}

// Apart from `main`, so that the stack that it needs is not taken while a script runs.
#[cold]
#[inline(never)]
fn tell(rt: &HostRuntime, failure: &Failure) {
    let _ = eprintln!(rt; "{failure}");
}

fn main(rt: HostRuntime) -> ExitCode {
    match bench(&rt) {
        Ok(()) => ExitCode::SUCCESS,
        Err(failure) => {
            tell(&rt, &failure);
            ExitCode::FAILURE
        }
    }
}
