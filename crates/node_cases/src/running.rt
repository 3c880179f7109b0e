//! Nodes that run in threads, by rows.
mod bursts;
mod client;
mod clusters;
mod confirming;
mod gates;
mod inputs;
mod marks;
mod meeting;
mod request;
mod runs;
mod story;
mod tests;
mod watch;
