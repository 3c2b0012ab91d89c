// Why a line was not taken apart.

// The line is none of the language's.
#[derive(Clone, Copy)]
pub struct BadLine;
