//! Objects of JSON by their members, as the contracts of replies and sheets name them.
#![tactic(auto)]
