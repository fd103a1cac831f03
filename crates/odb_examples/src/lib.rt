//! Computed examples of the definitions, one a rule.
#![tactic(auto)]
