//! What a driver is told and what it orders, by stories; and how often something may be done, by example.
mod driven;
mod orders;
mod paces;
mod reports;
mod standing;
mod steps;
mod tests;
