//! What is proved of steps and runs besides what is promised of readings.
ghost use Rattle.reading.specs.Theorems.{StepsAreOne, MovesAreOne, RunsAreOne, StepsAct, StepsOfReadings, OpeningsStand, ReadingsAct, SheetsAreOne};

/// A step is determined by the state and the source, and so are the moves of a run, and the run; and each move is the canonical parser's action,
/// which has none where an entry is refused. The function does nothing else than ask for the proofs.
pub fn steps_stand<F>()
    ensures { StepsAreOne F × MovesAreOne F × RunsAreOne F × StepsAct F }
{}

/// So are a step of a reading, and the reading of a sheet; an opened reading stands for the start symbol before the end mark, and each move of a
/// reading is the parser's action. This function too does nothing else.
pub fn readings_stand<F>()
    ensures { StepsOfReadings F × OpeningsStand F × ReadingsAct F × SheetsAreOne F }
{}
