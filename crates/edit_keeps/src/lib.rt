#![tactic(auto)]

// Theorems alone: what each edit keeps. See specs/ for what is promised and proofs/ for why.
