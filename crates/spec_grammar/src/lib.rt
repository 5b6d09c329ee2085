//! The grammar of statements: definitions alone.
#![tactic(auto)]
