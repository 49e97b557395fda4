// A stage that keeps one common level and a drop below it for each channel.
ghost use Rattle.std.specs.Prelude.{◌≡◌, ◌≤◌, true, false, length, replicate};
ghost use Rattle.stage.specs.Levels.{highest_level, most_channels, AtMost, taken};
ghost use Rattle.stage.specs.Drops.{highest, minus_each, levels_of, KeepsTop};
ghost use Rattle.stage.specs.Bounds.{levels_at_most};
ghost use Rattle.std.proofs.Common.{rules};

use crate::{MOST_CHANNELS, Stage, StageFault, can_drive, taken_count};

// The common level is the highest of the channels below the count.
// The array is of fixed size and the count stands beside it, since a stage is `Copy` and uses no heap.
// No equality is derived: two with the same levels may keep different drops.
#[derive(Clone, Copy, Debug)]
pub struct DistributorStage {
    count: usize,
    common: u32,
    drops: [u32; MOST_CHANNELS],
    ghost some: { 1 ≤ count },
    ghost few: { count ≤ most_channels },
    ghost whole: { length drops ≡ most_channels },
    ghost counted: { length (levels_of count common drops) ≡ count },
    ghost bounded: { common ≤ highest_level },
    ghost within: { AtMost common drops },
    ghost top: { highest (levels_of count common drops) ≡ common },
}

fn highest_of(levels: &[u32]) -> u32
    ensures { result ≡ highest levels.now }
{
    levels.iter().copied().fold(0, u32::max)
}

// The levels where `values` are drops, and the drops where they are levels.
fn minus_each(common: u32, mut values: [u32; MOST_CHANNELS]) -> [u32; MOST_CHANNELS]
    ensures { result ≡ minus_each common values }
{
    for value in &mut values {
        *value = common.saturating_sub(*value);
    }
    values
}

// True only where the highest level stays `common` with `channel` driven to `level`: another channel is
// at it, as one must be where `channel` itself is below it.
fn keeps_top(common: u32, drops: &[u32], channel: usize, level: u32) -> bool
    ensures below { true ≡ result → level ≤ common }
    ensures stays { true ≡ result → KeepsTop common drops.now channel level }
{
    if level > common {
        return false;
    }
    if channel < drops.len() && drops[channel] != 0 {
        return true;
    }
    // By index, from the last: with `any` or `contains` a round of a distributor took a tenth longer.
    for other in (0..drops.len()).rev() {
        if drops[other] == 0 && other != channel {
            return true;
        }
    }
    false
}

impl DistributorStage {
    pub fn new(count: usize) -> Self
        ensures { levels_of result.count result.common result.drops ≡ replicate (taken count) 0 }
    {
        DistributorStage {
            count: taken_count(count),
            common: 0,
            drops: [0; MOST_CHANNELS],
        }
    }
}

impl Stage for DistributorStage {
    ghost levels = { λ s. levels_of s.count s.common s.drops };

    ghost REGULATES = { false };

    const REGULATES: bool = false;

    ghost some = { Prim.search rules };

    ghost few = { Prim.search rules };

    ghost bounded = { λ s. levels_at_most s.count highest_level s.common s.drops s.bounded };

    fn count(&self) -> usize {
        self.count
    }

    fn level(&self, channel: usize) -> Result<u32, StageFault> {
        if channel < self.count {
            Ok(self.common - self.drops[channel])
        } else {
            Err(StageFault { channel })
        }
    }

    fn drive(&mut self, channel: usize, level: u32) -> Result<(), StageFault> {
        if !can_drive(self.count, channel, level) {
            return Err(StageFault { channel });
        }
        if keeps_top(self.common, &self.drops[0..self.count], channel, level) {
            self.drops[channel] = self.common - level;
            return Ok(());
        }
        let mut levels = minus_each(self.common, self.drops);
        levels[channel] = level;
        let common = highest_of(&levels[0..self.count]);
        self.common = common;
        self.drops = minus_each(common, levels);
        Ok(())
    }
}
