//! What a contract says of faults that come from outside: when one may be answered, and what a list of calls did.
#![tactic(auto)]
