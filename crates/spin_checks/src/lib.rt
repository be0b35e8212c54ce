//! Answers whether tables from elsewhere route the nets of a graph by the trees that were handed in for them.
//!
//! `answer` places vertices and gives nets their keys as compiling does, takes the trees as they are handed in, reads the bytes
//! of the image, and tells in one line what it finds. Lines, and the order in which they come, are this project's own.
#![tactic(auto)]

mod answers;
mod findings;
mod lines;
mod nets;

pub use answers::answer;
pub use findings::Finding;
