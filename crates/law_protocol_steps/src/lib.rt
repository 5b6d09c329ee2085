//! What a step of a session leaves as it was, and what it adds: ids, places, locks, transcripts and the
//! ledger's numbers.
#![tactic(auto)]
