// Theorems about the two texts of a set: which of them a range is of changes nothing of what is read there.
