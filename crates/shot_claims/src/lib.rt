// What is promised of shots beside the call: a shot is a list of frame calls, 16, padding, shots without references. Definitions and theorems alone.
#![tactic(auto)]
