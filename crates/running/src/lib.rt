// What a run over sequences promises, whatever gives the sequences and whatever blocks are open around it. There is no
// code here: specs/ says it, proofs/ has its laws.
#![tactic(auto)]
