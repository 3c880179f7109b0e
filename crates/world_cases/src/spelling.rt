//! What is read and written: setups as bytes, records as text.
mod record_files;
mod setups;
