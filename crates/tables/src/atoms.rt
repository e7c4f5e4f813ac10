// Atom numbers as they are read from the shift tables. A number of the supercell and one of the primitive cell are types of their own,
// so that neither is accepted in the other's place. Two of one kind are compared by ==, which compares the numbers.
// an atom of the supercell: what p2s and the rows of perms yield
#[derive(Clone, Copy, PartialEq, Eq)]
pub struct SuperAtom(pub usize);

// an atom of the primitive cell: what s2pp yields
#[derive(Clone, Copy, PartialEq, Eq)]
pub struct PrimAtom(pub usize);
