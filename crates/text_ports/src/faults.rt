ghost use Rattle.std.specs.Prelude.{◌≡◌, ℕ, ◌≤◌, ◌<◌, OnOk, OnErr};
ghost use Rattle.text_ports.specs.Faults.{Rose};

use super::files::Failed;

/// How often a call that a signal interrupts is made before it is a fault.
pub(crate) const TRIES: usize = 64;

/// A count of faults after one more.
pub(crate) fn raised(faults: u64) -> u64
    ensures rose { Rose faults result }
    ensures never_falls { faults ≤ result }
{
    faults.saturating_add(1)
}

/// Calls, counted from 1, of which those on a list fail.
#[derive(Drop)]
pub(crate) struct Calls {
    fails: Vec<u64>,
    count: u64,
    faults: u64,
}

impl Calls {
    /// No call yet.
    pub(crate) fn new(fails: Vec<u64>) -> Calls
        ensures { result.faults ≡ 0 }
    {
        Calls {
            fails,
            count: 0,
            faults: 0,
        }
    }

    /// Counts a call. One that is on the list is a fault.
    pub(crate) fn next(&mut self) -> Result<(), Failed>
        ensures passed { OnOk result (self.new.faults ≡ self.old.faults) }
        ensures failed { OnErr result (Rose self.old.faults self.new.faults) }
        ensures never_falls { self.old.faults ≤ self.new.faults }
    {
        self.count = self.count.saturating_add(1);
        if self.fails.contains(&self.count) {
            return Err(self.fail());
        }
        Ok(())
    }

    /// Counts a fault.
    pub(crate) fn fail(&mut self) -> Failed
        ensures rose { Rose self.old.faults self.new.faults }
        ensures never_falls { self.old.faults ≤ self.new.faults }
    {
        self.faults = raised(self.faults);
        Failed
    }
}
