// Times a twelve-channel 2,000 V module on both stages.
// A checksum of all that was done goes to standard output, nanoseconds a call to standard error.
#![tactic(auto)]

mod checksum;
mod times;
mod work;

use checksum::Checksum;
use module::Module;
use stage::{DirectStage, DistributorStage, Stage};
use std::io;
use times::{Times, time_calls};
use values::Model;

// Every kind of call once, each timed alone.
fn repeat<S: Stage>(
    rt: &HostRuntime,
    module: &mut Module<S>,
    offsets: &[u16],
    sum: &mut Checksum,
) -> io::Result<Times> {
    let read = time_calls(rt, || work::read_all(module, offsets, sum))?;
    let write = time_calls(rt, || work::write_all(module, sum))?;
    let round = time_calls(rt, || work::ramp_all(module, sum))?;
    work::add_levels(module, sum);
    let block = time_calls(rt, || work::block_all(module, sum))?;
    Ok(Times {
        read,
        write,
        round,
        block,
    })
}

fn time_module<S: Stage>(rt: &HostRuntime, name: &str, module: &mut Module<S>) -> io::Result<()> {
    let offsets = work::placed_offsets(rt.alloc(), module)?;
    let mut sum = Checksum::default();
    work::start(module, &mut sum);
    let mut best = repeat(rt, module, &offsets, &mut sum)?;
    for _ in 0..4 {
        best = best.least(repeat(rt, module, &offsets, &mut sum)?);
    }
    println!(rt; "{name} {sum}")?;
    eprintln!(rt; "{name} {best}")
}

fn main(rt: HostRuntime) -> io::Result<()> {
    let mut direct = Module::new(DirectStage::new(12), Model::V2000);
    time_module(&rt, "direct", &mut direct)?;
    let mut distributor = Module::new(DistributorStage::new(12), Model::V2000);
    time_module(&rt, "distributor", &mut distributor)
}
