//! Disks and journals over files.
mod fault_file;
mod files;
