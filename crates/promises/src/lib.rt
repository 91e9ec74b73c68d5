// The contracts by their own reading: they keep the demands, leave no choice, and tell C the same. Read specs/ first,
// then proofs/.
#![tactic(auto)]
