//! Worked examples of the definitions of `fca_model`, in `proofs/Examples`: the check computes each of them. No crate stands on this one,
//! so none waits for it.
#![tactic(auto)]
