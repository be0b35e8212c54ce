//! Reads the text of a job: bytes to the JSON value that they are, and single fields of a value.
//!
//! `parse` gives the value, and says exactly when the bytes are none. The grammar is JSON's (RFC 8259), as
//! `serde_json` reads it. `field`, `number_in`, `text`, `flag` and `list` read one field each, or answer its fault with
//! its path; faults, paths and what a name is are this project's own.
#![tactic(auto)]

mod faults;
mod fields;
mod members;
mod parses;
mod paths;

pub use faults::{JobFault, TextErr};
pub use fields::{
    count_to, field, flag, list, may_name, number_in, object, range, shape, text, text_in,
};
pub use members::member;
pub use parses::{ParseErr, parse};
pub use paths::{Path, item_path, member_path};
