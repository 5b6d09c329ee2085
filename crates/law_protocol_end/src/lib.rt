//! What holds of sessions that are over: they are at rest, a seat takes in another, and once no session runs what
//! the seats wrote agrees with journal and digests, in any order of the sessions.
#![tactic(auto)]
