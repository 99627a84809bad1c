// What a run writes of a filled match: its entries in the two lists, and in the book.
#![tactic(auto)]

pub mod booking;
pub mod issues;
pub mod listing;
