//! Folds by readers and writers that fail, and buffers that are set up otherwise than plainly.
mod faulty;
mod folded;
mod said;
mod setup_cases;
mod setups;
