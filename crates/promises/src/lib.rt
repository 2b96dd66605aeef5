// Every promised theorem stands in one record: specs/Promises.antt. Worked examples of runs in stretches; no code.
#![tactic(auto)]
