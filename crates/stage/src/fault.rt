// The answer of a stage where it has no such channel or cannot reach the level.
ghost use Rattle.std.specs.Prelude.{◌≡◌};
ghost use Rattle.stage.specs.Levels.{stage_fault_number};

#[derive(Clone, Copy, PartialEq, Eq, Debug)]
pub struct StageFault {
    pub channel: usize,
}

impl StageFault {
    pub fn number(&self) -> u32
        ensures { result ≡ stage_fault_number }
    {
        9
    }
}
