// Theorems about whole sheets and their report.
