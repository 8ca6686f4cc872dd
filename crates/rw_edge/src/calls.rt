//! Calls that are numbered from 0, of which chosen ones fail.
ghost use Rattle.std.specs.Prelude.{◌≡◌, ◌⊎◌, ◌↔◌, IsTrue, Contains, if◌then◌else◌};
ghost use Rattle.rw_edge.specs.Count.{next_count};

/// The numbers of the calls that fail, the number of the next call, and the count of faults.
#[derive(Drop)]
pub struct Calls {
    pub fail: Vec<u64>,
    pub number: u64,
    pub faults: u64,
}

impl Calls {
    /// Counts a call that is no fault.
    pub fn count(&mut self)
        ensures number { self.new.number ≡ next_count self.old.number }
        ensures faults { self.new.faults ≡ self.old.faults }
        ensures fail { self.new.fail ≡ self.old.fail }
    {
        self.number = self.number.saturating_add(1);
    }

    /// Counts a call, and answers whether it fails: by its number, or because it has to.
    pub fn fails(&mut self, must: bool) -> bool
        ensures cause { IsTrue result ↔ (IsTrue must ⊎ Contains self.old.fail.items self.old.number) }
        ensures number { self.new.number ≡ next_count self.old.number }
        ensures faults { self.new.faults ≡ (if result then next_count self.old.faults else self.old.faults) }
        ensures fail { self.new.fail ≡ self.old.fail }
    {
        let fails = must || self.fail.contains(&self.number);
        self.count();
        if fails {
            self.faults = self.faults.saturating_add(1);
        }
        fails
    }
}
