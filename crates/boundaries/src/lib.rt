#![tactic(auto)]

// What a boundary of a GDSII stream is: its edges, the cells that it marks, its corners, and when boundaries overlap. It is said in specs/ and
// shown in proofs/; the code that reads a stream is in `gdsii`.
