// General definitions and laws that every other crate cites. No code.
#![tactic(auto)]
