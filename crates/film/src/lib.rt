// The film of a list of frame calls: what the writer of streams writes for the frames of its accepted packets. Definitions and theorems alone.
#![tactic(auto)]
