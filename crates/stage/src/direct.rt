// A stage that keeps a level for each channel.
ghost use Rattle.std.specs.Prelude.{◌≡◌, ◌≤◌, true, length, take, replicate};
ghost use Rattle.stage.specs.Levels.{highest_level, most_channels, AtMost, taken};
ghost use Rattle.stage.specs.Bounds.{at_most_take};
ghost use Rattle.std.proofs.Common.{rules};

use crate::{MOST_CHANNELS, Stage, StageFault, can_drive, taken_count};

// The array is of fixed size and the count stands beside it, since a stage is `Copy` and uses no heap.
#[derive(Clone, Copy, PartialEq, Eq, Debug)]
pub struct DirectStage {
    count: usize,
    levels: [u32; MOST_CHANNELS],
    ghost some: { 1 ≤ count },
    ghost few: { count ≤ most_channels },
    ghost whole: { length levels ≡ most_channels },
    ghost bounded: { AtMost highest_level levels },
}

impl DirectStage {
    pub fn new(count: usize) -> Self
        ensures { take result.count result.levels ≡ replicate (taken count) 0 }
    {
        DirectStage {
            count: taken_count(count),
            levels: [0; MOST_CHANNELS],
        }
    }
}

impl Stage for DirectStage {
    ghost levels = { λ s. take s.count s.levels };

    ghost REGULATES = { true };

    const REGULATES: bool = true;

    ghost some = { Prim.search rules };

    ghost few = { Prim.search rules };

    ghost bounded = { λ s. at_most_take s.count s.levels s.bounded };

    fn count(&self) -> usize {
        self.count
    }

    fn level(&self, channel: usize) -> Result<u32, StageFault> {
        if channel < self.count {
            Ok(self.levels[channel])
        } else {
            Err(StageFault { channel })
        }
    }

    fn drive(&mut self, channel: usize, level: u32) -> Result<(), StageFault> {
        if !can_drive(self.count, channel, level) {
            return Err(StageFault { channel });
        }
        self.levels[channel] = level;
        Ok(())
    }
}
