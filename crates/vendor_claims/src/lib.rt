// What is promised of `vendor_check::check`: when a file passes, which byte is named, and what wins. Definitions and theorems alone.
#![tactic(auto)]
