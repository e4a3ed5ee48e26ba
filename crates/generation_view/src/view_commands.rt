//! The commands that tell of a volume's earlier generations: which there are, and the tree of one, or a file of it.

mod answers;
mod chains;
mod texts;
mod trees;

pub use chains::run_generations;
pub use trees::run_view;
