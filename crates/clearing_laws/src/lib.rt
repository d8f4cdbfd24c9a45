// What we tell customers of a session that keeps the square (02 K5): the statements, each with its id. It states and proves, and runs nothing.
#![tactic(auto)]
