/// A call of a disk.
#[derive(Drop)]
pub enum Call {
    Len,
    /// This many bytes from a place on.
    Read(usize, usize),
    /// These bytes from a place on.
    Write(usize, Vec<u8>),
    Sync,
}

/// A call of a disk, and whether it passed.
#[derive(Drop)]
pub struct Called {
    pub call: Call,
    pub passed: bool,
}
