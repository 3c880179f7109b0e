//! An ether: tickets, mailboxes, two threads, want of memory.
mod mailboxes;
mod memory;
mod passes;
mod seated;
mod threads;
