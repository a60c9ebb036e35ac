//! The words of faults of suites.

pub const TOO_LARGE: &str = "more than 1048576 bytes";

pub const NO_ROW: &str = "no row";

pub const NO_SOURCE: &str = "no source";

pub const NO_IMAGE: &str = "no image";

pub const NO_DEBUG: &str = "no debug information";

pub const AT_PORT: &str = "IMAGE PortAddress 5";
