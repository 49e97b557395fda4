// Output stages of a high voltage module: what a stage is, and two kinds of it.
#![tactic(auto)]

ghost use Rattle.std.specs.Prelude.{◌≡◌, ℕ, ◌≤◌, Bool, List, length};
ghost use Rattle.stage.specs.Levels.{highest_level, most_channels, AtMost, taken, drivable, level_answer, drive_answer, driven};
ghost use Rattle.stage.specs.Laws.{RefusalHolds, DriveHolds};

pub mod direct;
pub mod distributor;
pub mod fault;

pub use direct::DirectStage;
pub use distributor::DistributorStage;
pub use fault::StageFault;

pub const HIGHEST_LEVEL: u32 = 100_000;

pub const MOST_CHANNELS: usize = 12;

// Whether a stage of `count` channels can drive `channel` to `level`.
pub fn can_drive(count: usize, channel: usize, level: u32) -> bool
    ensures answer { result ≡ drivable count channel level }
    ensures refusal { RefusalHolds }
    ensures drive { DriveHolds }
{
    channel < count && level <= HIGHEST_LEVEL
}

// The count that a stage is made with where `count` is asked.
pub fn taken_count(count: usize) -> usize
    ensures { result ≡ taken count }
{
    count.min(MOST_CHANNELS).max(1)
}

pub trait Stage {
    // The level of each channel, in order.
    ghost levels: { Self → List ℕ };

    // Whether stages of this kind regulate current.
    ghost REGULATES: { Bool };

    const REGULATES: bool;

    fn count(&self) -> usize
        ensures { result ≡ length (levels self.now) };

    fn level(&self, channel: usize) -> Result<u32, StageFault>
        ensures { result ≡ level_answer (levels self.now) channel };

    fn drive(&mut self, channel: usize, level: u32) -> Result<(), StageFault>
        ensures answer { result ≡ drive_answer (levels self.old) channel level }
        ensures state { levels self.new ≡ driven (levels self.old) channel level };

    // Laws that each stage proves, below the last function as laws have to stand: there is a channel, there are no more than a
    // module takes, and no level is above the highest.
    ghost some: { (s : Self) → 1 ≤ length (levels s) };

    ghost few: { (s : Self) → length (levels s) ≤ most_channels };

    ghost bounded: { (s : Self) → AtMost highest_level (levels s) };
}
