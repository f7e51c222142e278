// Two clerks, one booking (change request 10/13): the definitions and the theorems. clerks_bytes has the code.
#![tactic(auto)]
