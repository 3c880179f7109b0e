//! Lines, values as bytes and the session upstream.
mod lines;
mod names;
mod session_calls;
mod sessions;
mod streams;
mod values;
