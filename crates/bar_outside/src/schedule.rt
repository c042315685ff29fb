//! Which calls of an in-memory object are to fail.
ghost use Rattle.std.specs.Prelude.{◌≡◌};
ghost use Rattle.bar_outside.specs.Code.Schedule.{failing, next_call, fails_next};

/// The numbers of the calls that are to fail, counted from 1, and the number of calls so far.
#[derive(Drop)]
pub struct Schedule {
    pub fail: Vec<u64>,
    pub calls: u64,
}

/// A schedule with no call so far.
pub fn new_schedule(fail: Vec<u64>) -> Schedule
    ensures { result ≡ failing fail }
{
    Schedule { fail, calls: 0 }
}

/// Counts a call, and returns whether it is to fail.
pub fn is_listed(schedule: &mut Schedule) -> bool
    ensures counted { schedule.new ≡ next_call schedule.old }
    ensures listed { result ≡ fails_next schedule.old }
{
    schedule.calls = schedule.calls.saturating_add(1);
    schedule.fail.contains(&schedule.calls)
}
