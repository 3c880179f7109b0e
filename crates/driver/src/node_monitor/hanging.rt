//! A node that hangs: it is up, as far as is known, and does not answer.
ghost use Rattle.std.specs.Prelude.{◌≡◌, ◌∷◌, [], OnOk};
ghost use Rattle.driver.specs.declared.news.News.TheVariants.{Hangs};
ghost use Rattle.driver.specs.declared.order.Order.TheVariants.{Log};
ghost use Rattle.driver.specs.Absences.{begins_to_hang, boot_open, hang_limit, hanging, hastened, is_absent, quiet_limit};
ghost use Rattle.driver.specs.Telling.{ordered};

use crate::news::News;
use crate::node_monitor::NodeMonitor;
use crate::node_monitor::standing::Outage;
use crate::order::Now;
use crate::orders::Orders;
use crate::settings::Settings;
use std::alloc::AllocError;
use wire_bytes::Number;

/// How long a node may give no answer before it counts as hanging, in milliseconds.
// A sync of a disk that is merely slow takes less, and someone who waits longer thinks that the bouncer is dead.
const HANGS_AFTER: u64 = 5_000;

/// The least number of timeouts for that: nodes whose leader seldom sends have less to report.
const TIMEOUTS: u64 = 2;

/// How long a working node may give no answer, in milliseconds: at least a timeout.
// One that is silent for longer may hang as well, so nobody is sent to it from another.
const QUIET_AFTER: u64 = 2_000;

/// The longest wait of a node that is down while too few nodes are up, in milliseconds.
// Nothing can be agreed meanwhile, so a try costs nothing that matters.
const SHORT_WAIT: u32 = 2_000;

/// How long a node may give no answer before it counts as hanging, in milliseconds.
pub fn hang_limit(settings: &Settings) -> u64
    ensures { result ≡ hang_limit settings.now.timeout_ms }
{
    HANGS_AFTER.max(TIMEOUTS * settings.timeout_ms as u64)
}

/// How long a working node may give no answer, in milliseconds.
pub fn quiet_limit(settings: &Settings) -> u64
    ensures { result ≡ quiet_limit settings.now.timeout_ms }
{
    QUIET_AFTER.max(settings.timeout_ms as u64)
}

impl NodeMonitor {
    /// Whether it serves nobody at this moment: it is down, or has given no answer for this many milliseconds.
    pub fn is_absent(&self, now: &Now, limit: u64) -> bool
        ensures { result ≡ is_absent limit now.now.ms self.now }
    {
        self.down.is_some() || self.presence.last_report.has_passed(limit, now.ms)
    }

    /// The run in which it hangs, if it does and its clients were not told: it was up when it was last heard from.
    pub fn begins_to_hang(&self, now: &Now, settings: &Settings) -> Option<Number>
        ensures { result ≡ begins_to_hang settings.now.timeout_ms now.now.ms self.now }
    {
        if self.presence.is_hanging || !self.is_absent(now, hang_limit(settings)) {
            return None;
        }
        self.boot()
    }

    /// It hangs in this run: that is logged, and it takes no clients until another run of it begins.
    pub fn hang(&mut self, boot: Number, orders: &mut Orders) -> Result<(), AllocError>
        ensures told { OnOk result
            (orders.new ≡ ordered orders.old (Log (Hangs self.old.id) ∷ [])) }
        ensures monitor { self.new ≡ hanging boot self.old }
    {
        self.presence.is_hanging = true;
        // the log line already says that it takes no clients
        self.visitors.has_turned_away = true;
        self.see(boot);
        orders.log(News::Hangs(self.id))
    }

    /// Whether its clients were told that it hangs, and no run of it has begun since.
    pub fn is_hanging(&self) -> bool
        ensures { result ≡ self.now.presence.is_hanging }
    {
        self.presence.is_hanging
    }

    /// The run in which it takes clients: it is up, and does not hang.
    pub fn open_boot(&self) -> Option<Number>
        ensures { result ≡ boot_open self.now }
    {
        if self.presence.is_hanging {
            return None;
        }
        self.boot()
    }

    /// Too few nodes are up: if it is down, it is started again soon.
    pub fn hasten(&mut self)
        ensures { self.new ≡ hastened self.old }
    {
        if let Some(outage) = self.down {
            self.down = Some(Outage {
                wait_ms: outage.wait_ms.min(SHORT_WAIT),
                ..outage
            });
        }
    }
}
