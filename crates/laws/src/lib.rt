// Results about the specification, in specs/: demand 3, lists of transposes and swaps, compact and full on the grid (document 02, A.11), what a
// symmetrizer leaves is alike, the worked examples. There is no code here.
#![tactic(auto)]
