// Tables with each kind of fault and tenders refused for cover, computed from the definitions that the awards' contracts cite.
#![tactic(auto)]
