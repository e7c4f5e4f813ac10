// The limits of document 01 ("Limits"), in one table; specs/Limits.antt has the same numbers for the contracts.

// atoms, n_patom, num_first and num_trans at second order, and num_pos in matching
pub const LIMIT2: usize = 1024;

// the same counts at third order
pub const LIMIT3: usize = 256;

// the same counts at fourth order
pub const LIMIT4: usize = 64;

// the level of a second-order symmetrizer
pub const LIMIT_LEVEL: usize = 1000;

// list length, num_rot, num_disp, num_site_sym
pub const LIMIT_LIST: usize = 1024;
