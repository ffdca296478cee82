// The outcome of a row read off the words of its area, which `report` and the one-call parse both give: theory alone, in specs/.
#![tactic(auto)]
