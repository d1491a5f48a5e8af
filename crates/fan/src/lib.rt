#![tactic(auto)]

// Mathematics alone: swings, connectedness, walks that close or meet a border, and what they visit. See proofs/.
