//! What a start did with its folders.
use crate::changed_keys::ChangedKeys;
use crate::fault::RenewFault;
use crate::renewed::Renewed;
use file_disk::MadeFile;

/// What a start did with the store in its folders.
#[derive(Drop)]
pub enum Settled {
    /// It is new, and these are the files in which it records what it is.
    Made(Vec<MadeFile>),
    /// It is from before stores recorded what they are, and does so in these files from now on.
    Described(Vec<MadeFile>),
    /// It goes on.
    Same,
    /// Its log had another setup or another number of nodes, and was renewed.
    Changed(ChangedKeys, Renewed),
    /// Journals of it were lost, which are reported, and its log was renewed from the others. The values of these keys
    /// differ, if there are any.
    Lost(ChangedKeys, Renewed),
    /// Its log had more entries than it should have, and was renewed.
    Long(Renewed),
    /// Its log has more entries than it should have, and can't be renewed. It goes on as it was.
    StaysLong(RenewFault),
}
