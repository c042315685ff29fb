//! Counts of what was tried and how it was answered.

use bar_wire::WireFault;

/// Adds one to a count.
pub fn add_one(count: &mut u64) {
    *count = count.saturating_add(1);
}

/// The results of changed datagrams.
#[derive(Drop)]
pub struct Tally {
    pub tried: u64,
    /// Those that don't decode, by their faults.
    pub faults: [u64; 7],
    pub read: u64,
    /// Those with a signature, addressed to the party that took them or to all. No others are verified.
    pub checkable: u64,
    /// Those signed again with their sender's key.
    pub signed: u64,
    /// Those that were answered, and the number of datagrams in the answers.
    pub answered: u64,
    pub sent: u64,
    /// Those that left evidence.
    pub shown: u64,
}

impl Tally {
    pub fn new() -> Tally {
        Tally {
            tried: 0,
            faults: [0; 7],
            read: 0,
            checkable: 0,
            signed: 0,
            answered: 0,
            sent: 0,
            shown: 0,
        }
    }

    pub fn add_fault(&mut self, fault: WireFault) {
        let place = match fault {
            WireFault::Short => 0,
            WireFault::BadMagic => 1,
            WireFault::BadVersion => 2,
            WireFault::BadKind => 3,
            WireFault::BadSession => 4,
            WireFault::BadLength => 5,
            WireFault::BadField => 6,
        };
        if let Some(count) = self.faults.get_mut(place) {
            add_one(count);
        }
    }
}

/// The results of changed bytes that a call reads.
#[derive(Clone, Copy)]
pub struct Trials {
    pub tried: u64,
    /// Those for which a signature may be verified, or a key made.
    pub costly: u64,
    pub accepted: u64,
}

impl Trials {
    pub fn new() -> Trials {
        Trials {
            tried: 0,
            costly: 0,
            accepted: 0,
        }
    }

    pub fn add(&mut self, is_accepted: bool) {
        add_one(&mut self.tried);
        if is_accepted {
            add_one(&mut self.accepted);
        }
    }
}

/// Whether one more trial may be costly, if at most one in `one_in` may be.
pub fn may_cost(costly: u64, tried: u64, one_in: u64) -> bool {
    costly.saturating_mul(one_in) <= tried
}

/// The trials of each call.
#[derive(Drop)]
pub struct Readers {
    pub evidence: Trials,
    pub verdict: Trials,
    pub table: Trials,
    pub recording: Trials,
    pub session: Trials,
    pub key: Trials,
}

impl Readers {
    pub fn new() -> Readers {
        Readers {
            evidence: Trials::new(),
            verdict: Trials::new(),
            table: Trials::new(),
            recording: Trials::new(),
            session: Trials::new(),
            key: Trials::new(),
        }
    }
}
