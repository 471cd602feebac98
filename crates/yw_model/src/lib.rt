//! What a list of lines may be answered: which texts are specifications, and a run over lines. The definitions stand in `specs/`; what a
//! line means and what replies say in `yw_lines`; states, events and commands in `yw_state`.
#![tactic(auto)]
