// Calls over a block of records: groups of records that are the same, and a type compiled into runs. The definitions are in specs/, their theorems in proofs/.
#![tactic(auto)]
