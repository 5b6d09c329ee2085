//! Definitions of cells, seats and visits, and of what holds of them at each moment.
#![tactic(auto)]
