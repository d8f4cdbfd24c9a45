// What we tell customers: the statements of the project, each with its id. It states and proves, and runs nothing.
#![tactic(auto)]
