//! Drives the nodes of a bouncer, their clients and the server, without sockets and clocks: its calls say what
//! happened, and it gives orders. bouncer_run and node_cases use it. The server's connection belongs to the leader of
//! the greatest term; as long as nothing may be lost and nothing holds a client up, each of its requests goes to its
//! node once, and in order. Both are proved as long as memory lasts.
#![tactic(auto)]

mod absence;
mod absent_channels;
mod backoff;
mod channel_key;
mod channel_lines;
mod client;
mod clients;
mod driver;
mod eviction;
mod guard;
mod join_line;
mod key_ring;
pub mod laws;
mod leader;
mod level;
pub mod limits;
mod lines;
mod link;
mod news;
mod node_monitor;
mod order;
mod order_list;
mod orders;
mod outgoing;
mod pace;
mod retirement;
mod retirements;
mod rewording;
mod said;
pub mod schedule;
mod settings;
mod standing;
mod timer;

pub use absence::Absence;
pub use backoff::Backoff;
pub use channel_key::ChannelKey;
pub use driver::Driver;
pub use eviction::Eviction;
pub use level::{FULL, Level};
pub use news::{Ending, News};
pub use order::{Now, Order, TowerNote, TowerReport};
pub use pace::Pace;
pub use settings::Settings;
pub use timer::Timer;
