//! Worked cases of rows.

mod batches;
mod kinds;
mod needs;
mod rows;
