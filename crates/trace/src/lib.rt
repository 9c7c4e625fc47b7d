// What a trace of codes, counts and positions may show (document 02, (vi)): two lists of calls that differ in data, keys and IVs alone leave the same
// trace. There is no code here: specs/ has the trace and when two lists are alike, proofs/ why it is the same, and a pair of lists.

#![tactic(auto)]
