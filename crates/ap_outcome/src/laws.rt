//! Laws of the definitions. They do nothing: their contracts are what they say.
ghost use Rattle.ap_outcome.specs.Fitting.{LeavingsAreAmong, LeavingsFit, LineWritersFit, LineWritersGoOn};

/// The writers of lines that have a port's bits are writers for the port, and go on where a draft grows.
pub fn line_writers_fit()
    ensures fit { LineWritersFit }
    ensures go_on { LineWritersGoOn }
{}

/// What is left to the homes of slots that are wide enough fits them, and each of its nets is one of the stage's.
pub fn leavings_fit()
    ensures fit { LeavingsFit }
    ensures among { LeavingsAreAmong }
{}
