//! The service as a machine over events: its state, its steps and its runs (RFC 7047, section 4;
//! ovsdb-server(7)).
#![tactic(auto)]
