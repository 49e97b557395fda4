// Nanoseconds a call.
use std::num::nearest_usize_to_f64;
use std::time::Instant;
use std::{fmt, io};

#[derive(Clone, Copy, PartialEq, Debug)]
pub struct Times {
    pub read: f64,
    pub write: f64,
    pub round: f64,
    pub block: f64,
}

// The time of each of the calls that `run` makes; it answers how many they were.
pub(crate) fn time_calls<F: FnOnce() -> usize>(rt: &HostRuntime, run: F) -> io::Result<f64>
    requires { F.IsAlwaysCallable run }
{
    let begin = Instant::now(rt)?;
    let calls = run();
    Ok(begin.elapsed(rt)?.as_secs_f64() * 1e9 / nearest_usize_to_f64(calls))
}

impl Times {
    pub(crate) fn least(self, other: Times) -> Times {
        Times {
            read: self.read.min(other.read),
            write: self.write.min(other.write),
            round: self.round.min(other.round),
            block: self.block.min(other.block),
        }
    }
}

impl fmt::Display for Times {
    fn fmt<W: fmt::Write>(&self, f: &mut fmt::Formatter<W>) -> fmt::Result {
        write!(
            f,
            "read {:.2} write {:.2} round {:.1} block of eight {:.1}",
            self.read, self.write, self.round, self.block
        )
    }
}
