// What the scope demands of several crates together: theorems over their promises, and no code.
