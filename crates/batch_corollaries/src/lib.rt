// What Papers 4, 9 and 13 and the pages prove after every list of calls, after every list with runs of push records. It is no code: the theorems are in specs/.
#![tactic(auto)]
