// The limit of the size of a system.

/// The greatest limit of the size of a system, its equations and terms together.
pub const MAX_SIZE: usize = 65_536;
