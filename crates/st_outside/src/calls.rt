//! Calls of a form in memory, some of which fail on purpose.

ghost use Rattle.std.specs.Prelude.{◌≡◌, ◌≤◌, ◌==◌};
ghost use Rattle.std.specs.List.{list_any};

/// How many calls were made, and which of them fail.
#[derive(Debug, Drop)]
pub struct Calls {
    failing: Vec<u32>,
    made: u64,
    failed: u64,
}

impl Calls {
    ghost use Rattle.st_outside.specs.Calls.{fails_next, IsFresh, Counted};

    /// No call yet; those with the numbers in `failing`, counted from 1, will fail.
    pub fn new(failing: Vec<u32>) -> Calls
        ensures { IsFresh result failing.items }
    {
        Calls {
            failing,
            made: 0,
            failed: 0,
        }
    }

    /// Counts one more call, and says whether it fails.
    pub fn fails(&mut self) -> bool
        ensures listed { result ≡ fails_next self.old }
        ensures counted { Counted self.old self.new }
        ensures later { self.old.failed ≤ self.new.failed }
    {
        self.made = self.made.saturating_add(1);
        let fails = lists(self.failing.as_slice(), self.made);
        if fails {
            self.failed = self.failed.saturating_add(1);
        }
        fails
    }
}

fn lists(failing: &[u32], call: u64) -> bool
    ensures { result ≡ list_any (λ listed. listed == call) failing.now }
{
    failing.iter().any(|listed| u64::from(*listed) == call)
}
