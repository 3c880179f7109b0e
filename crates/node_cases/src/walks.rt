//! Calls of which `tests/walks` refuses each allocation in turn. A test prints what its calls come to, and says by
//! marks which allocations count.
mod case;
mod cells;
mod gate;
mod inputs;
mod journals;
mod marks;
mod member;
mod nodes;
mod opening;
mod rounds;
mod seat;
mod tests;
