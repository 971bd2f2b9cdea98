// The limits of a session.

/// The most names that are bound at a time.
pub const MAX_NAMES: usize = 1024;

/// The most bytes that the answers of a script have.
pub const MAX_TEXT: usize = 67_108_864;

/// The most bytes that an input of the program, and so a certificate, may have: 16 MiB.
pub const MAX_INPUT: usize = 16_777_216;
