//! Worked cases of pools, the arbitrator and the world.

mod arbiters;
mod pools;
mod worlds;
