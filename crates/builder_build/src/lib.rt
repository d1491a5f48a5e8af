#![tactic(auto)]

// What a build is, and that a finished one is well-formed: definitions and mathematics alone. See specs/ and proofs/.
