// What is promised of bytes behind a packet: they change nothing. Definitions and theorems alone.
#![tactic(auto)]
