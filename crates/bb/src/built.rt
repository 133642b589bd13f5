// Of which sources the program is: how the sum begins that tools/sources prints, which leaves out this file. dist/refresh
// writes it.

pub(crate) const SOURCES: &str = "cbaed9c17bc4";
