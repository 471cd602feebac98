//! Which texts are specifications: each is read, checked and built in one way. Definitions and laws alone.
#![tactic(auto)]
