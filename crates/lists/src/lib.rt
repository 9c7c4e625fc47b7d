// What holds of every list of calls from a fresh card: demand 3, counts, parks and the two ends of a trunk. There is no code here: specs/
// has the logs and the claims, proofs/ why they hold.

#![tactic(auto)]
