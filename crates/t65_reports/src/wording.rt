//! The words of reports. Definitions in `specs` name them.

// ---- TAP 13

/// The first line.
pub const TAP_BEGIN: &str = "TAP version 13\n";

/// A row that passes.
pub const PASSES: &str = "ok ";

/// A row that fails.
pub const FAILS: &str = "not ok ";

// ---- CSV

/// The names of the fields.
pub const CSV_BEGIN: &str = "source,rows,passed,failed,points,of_points\n";

/// Stands where nothing does.
pub const NOTHING: &str = "";

// ---- the XML of JUnit

/// The beginning.
pub const JUNIT_BEGIN: &str = "<?xml version=\"1.0\" encoding=\"UTF-8\"?>\n<testsuites>\n";

/// What stands before the name of a file.
pub const SUITE: &str = "  <testsuite name=\"";

/// What stands before the number of its rows.
pub const TESTS: &str = "\" tests=\"";

/// What stands before the number of rows that fail.
pub const FAILURES: &str = "\" failures=\"";

/// Ends a value.
pub const QUOTE: &str = "\"";

/// Ends a tag that has values.
pub const TAG_END: &str = "\">";

/// What stands before the file of a row.
pub const CASE: &str = "    <testcase classname=\"";

/// What stands before the line of a row.
pub const LINE: &str = "\" name=\"line ";

/// What stands behind the name of a file that cannot be tested.
pub const FAULT_NAME: &str = "\" name=\"rows and source";

/// What stands before the file of a place.
pub const IN_FILE: &str = "\" file=\"";

/// What stands before the line of a place.
pub const AT_LINE: &str = "\" line=\"";

/// Ends a row that passes.
pub const CASE_PASSES: &str = "\"/>\n";

/// What stands before the first line of why a row fails.
pub const CASE_FAILS: &str = "\">\n      <failure message=\"";

/// Ends a row that fails.
pub const CASE_END: &str = "</failure>\n    </testcase>\n";

/// Ends a file.
pub const SUITE_END: &str = "  </testsuite>\n";

/// The end.
pub const JUNIT_END: &str = "</testsuites>\n";
