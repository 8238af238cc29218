// Theorems about the index beside a sheet.
