// A controller at the end of its link: what is written, as bytes, half bytes or serial bits, reaches any controller as it was given, and all
// links bring it to one state. There is no code here.
#![tactic(auto)]
