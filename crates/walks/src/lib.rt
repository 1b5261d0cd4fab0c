// Theory of walks.
#![tactic(auto)]
