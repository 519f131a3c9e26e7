// What several rooms cite: outcomes, lists of which each holds, and laws on booleans. Definitions and laws alone.
#![tactic(auto)]
