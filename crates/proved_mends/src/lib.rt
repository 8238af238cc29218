// Theorems about a sheet that is parted, and about lines that were replaced.
