//! How long to wait before the next try.
ghost use Rattle.std.specs.Prelude.{◌≡◌, if◌then◌else◌};
ghost use Rattle.driver.specs.Pacing.{doubled};

/// How long to wait after a failed try, in milliseconds: twice as long as before, up to a limit.
#[derive(Clone, Copy, Debug, Drop, PartialEq, Eq)]
pub struct Backoff {
    /// After the first failed try.
    pub first: u32,
    /// At most.
    pub most: u32,
    /// After the next failed try.
    pub next: u32,
}

impl Backoff {
    /// Nothing has failed.
    pub fn new(first: u32, most: u32) -> Backoff
        ensures first { result.first ≡ first }
        ensures most { result.most ≡ most }
        ensures next { result.next ≡ first }
    {
        Backoff {
            first,
            most,
            next: first,
        }
    }

    /// A try failed. Returns how long to wait before the next one.
    pub fn fail(&mut self) -> u32
        ensures wait { result ≡ self.old.next }
        ensures first { self.new.first ≡ self.old.first }
        ensures most { self.new.most ≡ self.old.most }
        ensures next { self.new.next ≡ doubled self.old.most self.old.next }
    {
        let wait = self.next;
        self.next = (wait as u64 * 2).min(self.most as u64) as u32;
        wait
    }

    /// A try is over. Returns how long to wait before the next one; after a failure the wait after that doubles.
    pub fn end(&mut self, has_failed: bool) -> u32
        ensures wait { result ≡ self.old.next }
        ensures rest { self.new ≡ record self.old {
          next =
              if has_failed then doubled self.old.most self.old.next else self.old.next;
        } }
    {
        if has_failed { self.fail() } else { self.next }
    }

    /// All is well: the next wait is the first one again.
    pub fn reset(&mut self)
        ensures { self.new ≡ record self.old { next = self.old.first } }
    {
        self.next = self.first;
    }
}
