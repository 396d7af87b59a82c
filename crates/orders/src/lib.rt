// What the tree of all orders is, and why the walk over boxes gives it. Nothing here runs: the code is in crate walk.
#![tactic(auto)]
