/// What a node does in its term.
#[derive(Clone, Copy, Debug, Drop, PartialEq, Eq)]
pub enum Role {
    Follower,
    Candidate,
    Leader,
}
