//! The tree of versions: each version stands under the one from which it was made.
#![tactic(auto)]

mod numbers;
pub mod path;
mod place;
pub mod tree;
pub mod version;

pub use path::Path;
pub use tree::Tree;
pub use version::Version;
