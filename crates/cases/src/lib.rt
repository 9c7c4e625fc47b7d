// The cases of document 01, proved of the ciphers' definitions. There is no code here: specs/ has the table, proofs/ the claim.

#![tactic(auto)]
