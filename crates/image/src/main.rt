// Prints the image of a new four-channel 2,000 V module on a direct stage: an offset and its word to a line.
#![tactic(auto)]

use module::Module;
use register_image::{IMAGE_BYTES, ImageReader, write_image};
use registers::ModuleFault;
use stage::DirectStage;
use std::io;
use std::io::{BufWriter, Write};
use std::process::ExitCode;
use values::Model;

#[derive(Drop)]
enum Failure {
    Module(ModuleFault),
    Output(io::Error),
}

impl From<ModuleFault> for Failure {
    fn from(fault: ModuleFault) -> Failure {
        Failure::Module(fault)
    }
}

impl From<io::Error> for Failure {
    fn from(error: io::Error) -> Failure {
        Failure::Output(error)
    }
}

fn print_words(rt: &HostRuntime, reader: ImageReader<'_>) -> Result<(), Failure> {
    let mut out = BufWriter::new(rt.alloc(), rt.stdout())?;
    for offset in (0..=0x3FE).step_by(2) {
        let word = reader.word(offset)?;
        writeln!(out, "{offset:04X} {word:04X}")?;
    }
    out.flush()?;
    Ok(())
}

fn print_image(rt: &HostRuntime) -> Result<(), Failure> {
    let module = Module::new(DirectStage::new(4), Model::V2000);
    let mut bytes = [0; IMAGE_BYTES];
    write_image(&module, &mut bytes)?;
    print_words(rt, ImageReader::new(&bytes)?)
}

fn main(rt: HostRuntime) -> ExitCode {
    match print_image(&rt) {
        Ok(()) => ExitCode::SUCCESS,
        Err(_) => ExitCode::FAILURE,
    }
}
