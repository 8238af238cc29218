// Theorems about taking `loose` out of a set.
