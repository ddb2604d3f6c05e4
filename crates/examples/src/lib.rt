#![tactic(auto)]

// Document 01's table cases and recorded cases, computed from the definitions of `grammar`. There is no code here.
