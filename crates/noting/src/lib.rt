// What TA, BPA and BPA2 note of an item that is found: a visit of its position in every list, and its place in the shortlist.
#![tactic(auto)]

pub mod keeping;
pub mod shortlist;
pub mod visits;
