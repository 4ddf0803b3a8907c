// The customer's three demands, the twelve readings of document 01, and the tightness of the contracts, each as a statement that can be
// read without its proof. There is no code here.
#![tactic(auto)]
