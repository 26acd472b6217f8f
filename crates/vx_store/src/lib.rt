//! Files that a query spills to, by number: the trait, a store in memory, and a store over real files.
//!
//! `specs/Store.antt` says what each call does to the files, where a store tells them.
#![tactic(auto)]

mod error;
mod folder_store;
mod memory_store;
mod real_files;
mod script;
mod store;

pub use error::StoreError;
pub use folder_store::FolderStore;
pub use memory_store::MemoryStore;
pub use script::Script;
pub use store::{FileNo, Store};

#[cfg(test)]
mod tests;
