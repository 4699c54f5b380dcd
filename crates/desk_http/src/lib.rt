//! One request of HTTP, and one answer to it: what a request asks the desk for, and what the desk replies, as bytes. Lengths
//! are in bytes.
#![tactic(auto)]

mod answering;
mod answers;
mod bodies;
mod early;
mod heads;
mod replies;
mod requests;
mod routes;
mod serving;
mod waiting;

pub use answering::answer;
pub use answers::Answer;
pub use serving::{Served, serve_link};
