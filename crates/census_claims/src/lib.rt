// What is promised of a census beside the call: what the counts of a recording add up to, and that they are those of frame calls. Definitions and theorems alone.
#![tactic(auto)]
