//! What stays of the buffers; a new list is made from it.
use crate::change::{Change, is_id_among, is_staying, newest};
use buffer_machine::BufferMachine;
use buffer_targets::{Channel, Target};
use irc_line::Name;
use std::alloc::{AllocError, Global};

/// What stays of the buffers.
#[derive(Drop)]
pub struct Kept<'a> {
    /// The names that stay, each with its number as a reader.
    pub ids: Vec<(usize, &'a Name)>,
    pub channels: Vec<&'a Channel>,
    pub queries: &'a [Target],
}

impl<'a> Kept<'a> {
    pub fn of(
        alloc: Global,
        buffers: &'a BufferMachine,
        change: &Change,
    ) -> Result<Kept<'a>, AllocError> {
        Ok(Kept {
            ids: staying_ids(alloc, buffers.ids(), change)?,
            channels: staying_channels(alloc, buffers.channels(), change)?,
            queries: newest(buffers.queries(), change),
        })
    }
}

fn staying_ids<'a>(
    alloc: Global,
    ids: &'a [Name],
    change: &Change,
) -> Result<Vec<(usize, &'a Name)>, AllocError> {
    let mut staying = Vec::new(alloc);
    for reader in 0..ids.len() {
        if !is_id_among(&ids[reader], change.forgotten) {
            staying.push((reader, &ids[reader]))?;
        }
    }
    Ok(staying)
}

fn staying_channels<'a>(
    alloc: Global,
    channels: &'a [Channel],
    change: &Change,
) -> Result<Vec<&'a Channel>, AllocError> {
    let mut staying = Vec::new(alloc);
    for channel in channels {
        if is_staying(channel, change) {
            staying.push(channel)?;
        }
    }
    Ok(staying)
}
