//! The texts of the queries that a store is asked within a transaction, each proved to read only. The proof computes what
//! `sqlite` reads of a text; the texts stand in a crate of their own so that it is done once.
#![tactic(auto)]

mod queries;

pub use queries::{
    draft_query, drivers_query, next_pasts_query, pasts_query, receipt_query, seen_pasts_query,
    table_query, version_query,
};
