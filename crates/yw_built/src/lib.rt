//! Which events the server does today. Definitions alone.
#![tactic(auto)]
