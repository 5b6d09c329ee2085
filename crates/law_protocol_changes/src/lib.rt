//! What visits share that change rows, create tables or issue digests.
#![tactic(auto)]
