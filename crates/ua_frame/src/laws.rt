//! Laws of byte streams. Each is the contract of a function that has no effect.

ghost use Rattle.ua_frame.specs.Laws.{HasReadings, HasOneReading, HaveFrames, FramesAreOne};
ghost use Rattle.ua_frame.specs.Laws.{StopsAtFirstWrong};
ghost use Rattle.ua_frame.specs.Run.{Rules};

/// Every byte sequence has a reading under given rules: its valid frames, and how the stream
/// continues after them.
pub fn has_readings<E, X>()
    ensures { (rules : Rules E X) → HasReadings rules }
{}

/// A byte sequence has one reading under given rules. Its bytes alone, however they were
/// fragmented, determine the valid frames, the bytes left after them and how the stream continues
/// there.
pub fn one_reading<E, X>()
    ensures { (rules : Rules E X) → HasOneReading rules }
{}

/// Every byte sequence splits into frames and a rest, by the MessageSize of each header.
pub fn have_frames()
    ensures { HaveFrames }
{}

/// A byte sequence splits into frames in one way, by the MessageSize of each header.
pub fn one_framing()
    ensures { FramesAreOne }
{}

/// A stream is refused for the error of its first invalid frame, the first in the order of the
/// table. The header of an unfinished frame counts as one more frame.
pub fn stops_at_first_wrong<E, X>()
    ensures { (rules : Rules E X) → StopsAtFirstWrong rules }
{}
