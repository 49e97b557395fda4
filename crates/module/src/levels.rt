// The levels of a module, as its stage answers them.
ghost use Rattle.std.specs.Prelude.{◌≡◌};
ghost use Rattle.module.specs.Answered.{answered};

use crate::Module;
use stage::Stage;

// The first `count` are the levels of the channels, in order; the others are 0.
// The array is of fixed size and the count stands beside it, since `levels` uses no heap and cannot fail.
#[derive(Clone, Copy, PartialEq, Eq, Debug)]
pub struct Levels {
    pub count: usize,
    pub steps: [u32; 12],
}

impl<S: Stage> Module<S> {
    pub fn levels(&self) -> Levels
        ensures { result ≡ answered self.now.levels }
    {
        let mut steps = [0; 12];
        for (channel, step) in steps.iter_mut().enumerate() {
            *step = self.stage.level(channel).unwrap_or(0);
        }
        Levels {
            count: self.stage.count(),
            steps,
        }
    }
}
