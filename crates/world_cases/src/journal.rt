//! Nodes over journals on disks that fail.
mod lent_disk;
mod nodes;
