// The plain machine of document 01, and what holds of each of its steps. There is no code here: specs/ has the machine and the list of
// calls that it makes, proofs/ that a card's step is the machine's and that every line stays as a call leaves it.

#![tactic(auto)]
