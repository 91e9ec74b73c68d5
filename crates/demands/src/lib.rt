// The demands on the whole, as theorems over what the crates below promise: read specs/ first, then proofs/.
#![tactic(auto)]
