// Mathematics that knows no plan: definitions and laws alone, no function.
#![tactic(auto)]
