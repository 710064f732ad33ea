//! Histories of traces, computed: of each trace of `examples/traces`, which of the eight relations its history has, or that
//! the abstract machine runs it.
//!
//! It promises nothing to crates above. The modules in proofs/Traces are written by `tools/check_traces`, and the checker
//! computes the definitions of `ca_model` and `ca_law_once` on them.
#![tactic(auto)]
