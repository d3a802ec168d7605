// Machines that read a list item by item: what a run is (specs/) and its laws (proofs/).

#![tactic(auto)]
