//! Laws of pacing and of recordings.

ghost use Rattle.bar_record.specs.Pacing.{EndsAtTheLast, IsFew, StaysPaced};
ghost use Rattle.bar_record.specs.Recording.{IsTakenWhole, ReadsBack, StaysInRange};

/// If a recording is read, pacing drops none of its inputs.
pub fn recordings_are_taken_whole()
    ensures { IsTakenWhole }
{}

/// The number of ticks in paced inputs is at most that of the last tick.
pub fn paced_inputs_end_at_the_last_tick()
    ensures { EndsAtTheLast }
{}

/// Inputs that are paced already are paced to themselves.
pub fn paced_inputs_stay_paced()
    ensures { StaysPaced }
{}

/// For each tick up to the last there are at most 65,537 paced inputs: 65,536 datagrams and the tick.
pub fn paced_inputs_are_few()
    ensures { IsFew }
{}

/// If no input is a datagram of more than 65,507 bytes, neither is any paced input.
pub fn pacing_keeps_the_range()
    ensures { StaysInRange }
{}

/// The recording of paced inputs is read back as these inputs. Each datagram must have at most 65,507 bytes.
pub fn recordings_read_back()
    ensures { ReadsBack }
{}
