// Worked figures, as one table.
ghost use Rattle.module.specs.Figures.{FiguresStand};

// Does nothing: its contract is that every figure of the table is what the definitions give.
pub fn figures_stand()
    ensures { FiguresStand }
{}
