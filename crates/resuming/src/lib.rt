// A run of records that paused and is gone on with is the run of the whole tape. It is no code: the theorem stands in specs/.
#![tactic(auto)]
