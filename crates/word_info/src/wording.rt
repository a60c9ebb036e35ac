//! The words of the rows of `info`. `specs/Rows.antt` says where each stands.

pub const TAPE_ROW: &str = "tape    ";

pub const IMAGE_ROW: &str = "image   ";

pub const IN: &str = " in ";

pub const AND: &str = " and ";

pub const RANGE: &str = "range";

pub const RANGES: &str = "ranges";

pub const RANGE_ROW: &str = "range   ";

pub const CRC_32: &str = "  CRC-32 ";

pub const SUM_16: &str = "  sum16 ";

pub const SUM_8: &str = "  sum8 ";

pub const REGION_ROW: &str = "same    ";

pub const EACH: &str = " $";

pub const LINE_ROW: &str = "line    ";

pub const IS_0: &str = " is 0 in every byte\n";

pub const IS_1: &str = " is 1 in every byte\n";

pub const NO_EFFECT: &str = " makes no difference: each block of ";

pub const TWICE: &str = " stands twice\n";

pub const OVERLAP_ROW: &str = "overlap ";

pub const AGAIN: &str = " written more than once\n";

pub const BEHIND_ROW: &str = "behind  ";

pub const NOT_READ: &str = " behind the end record, not read\n";

pub const GAP_ROW: &str = "gap     ";

pub const NOTHING: &str = "nothing";

pub const NMI_ROW: &str = "NMI     FFFA  ";

pub const RESET_ROW: &str = "reset   FFFC  ";

pub const IRQ_ROW: &str = "IRQ     FFFE  ";

pub const PAGE_0_ROW: &str = "page 0  ";

pub const PAGE_1_ROW: &str = "page 1  ";

pub const PORT_ROW: &str = "port    ";

pub const CLASH: &str = " of the image; --port ";

pub const FREE: &str = " is free, or --port none\n";

pub const NO_BASE: &str = " of the image; --port none leaves the port out\n";

pub const MEND_MENDS_IT: &str = "`mend` mends it\n";

pub const MENDED_FOR_DEBUG: &str = "`mend` mends it for `dis TAPE` and `debug --tape`\n";

pub const THE_CHECKSUM_IS: &str = ": the checksum is ";

pub const AND_SHOULD_BE: &str = ", and should be ";

pub const CAPTURE: &str = ": a capture of a KIM-1's terminal (`mend` makes a tape of it)\n";
