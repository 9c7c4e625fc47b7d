// No keystream byte is used twice, on whatever lines and across parks, resumes and changes of key. There is no code here: specs/ has what is noted of each byte
// that a crypt made, and the claim; proofs/ why it holds, and lists that are computed.

#![tactic(auto)]
