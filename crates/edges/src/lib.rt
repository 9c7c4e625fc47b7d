// The edges of documents 01 and 02, proved of the plain machine. There is no code here: specs/ has the table, proofs/ the claims.

#![tactic(auto)]
