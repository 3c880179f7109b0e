//! Stories, read from standard input: what is told step by step, and what must come of it. `docs/CONTRIBUTING.md` says
//! how one is written, and `tests/cases` gives those of `tests/stories`.
pub mod fault;
pub mod telling;
pub mod words;
