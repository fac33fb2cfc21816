// What the contracts of public calls say, as the checker reads them out of the source: a weaker one makes a theorem fail. And what readers accept.
#![tactic(auto)]
