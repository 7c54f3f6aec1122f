//! Every undisturbed packet may arrive: in any network there is a way to go on by which it does.
#![tactic(auto)]

pub mod laws;
