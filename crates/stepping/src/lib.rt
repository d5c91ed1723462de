// One step of TA, BPA or BPA2: a row is read or a round is run. Each item found is visited in every list and, where it
// is new, enters the shortlist.
#![tactic(auto)]

pub mod rows;
