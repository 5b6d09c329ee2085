//! Tests of what no clause and no stored run says: that the adapters reach the machine, and trees over a hash
//! of another kind.
#![tactic(auto)]

#[cfg(test)]
mod machine;
#[cfg(test)]
mod trees;
