//! Events as text, and what nodes agree on over lists of them.
mod agreeing;
mod events;
mod lines;
mod listed_cases;
mod listed_rows;
