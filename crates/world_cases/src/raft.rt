//! Logs, elections, appends, nodes, views and worlds, over the least machine.
mod appends;
mod elections;
mod failing;
mod log_pairs;
mod log_runs;
mod logs;
mod nodes;
mod steps;
mod views;
mod worlds;
