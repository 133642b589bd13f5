// The program's version, and numbers among the arguments and options.

/// An argument or an option that is a number within a range.
#[derive(Clone, Copy, Debug)]
pub struct Number {
    /// What it is read by, and the word of an option.
    pub name: &'static str,
    /// What help calls the value of an option; none of an argument, which has to be given.
    pub value: Option<&'static str>,
    /// The least that it may be.
    pub least: u64,
    /// The most that it may be.
    pub most: u64,
    /// The number where none is given.
    pub default: Option<&'static str>,
    /// What help says of it, its range too.
    pub help: &'static str,
}

/// A `Number` whose help ends with its range: ` [1 to 7]`, or ` [from 1 on]` where the most is `u64::MAX`.
#[macro_export]
macro_rules! ranged {
    (name: $name:literal, value: $value:expr, least: $least:literal, most: u64::MAX, default: $default:expr,
        help: $help:literal) => {
        $crate::Number {
            name: $name,
            value: $value,
            least: $least,
            most: u64::MAX,
            default: $default,
            help: concat!($help, " [from ", $least, " on]"),
        }
    };
    (name: $name:literal, value: $value:expr, least: $least:literal, most: $most:literal, default: $default:expr,
        help: $help:literal) => {
        $crate::Number {
            name: $name,
            value: $value,
            least: $least,
            most: $most,
            default: $default,
            help: concat!($help, " [", $least, " to ", $most, "]"),
        }
    };
}

/// The program's version, and the kit by which it is proved.
pub const VERSION: &str = "0.2.0, proved with rattle-kit-13f logic dac8208d650f15bf";

/// The number of the version alone, without the kit.
pub fn release() -> &'static str {
    match VERSION.split_once(',') {
        Some((number, _)) => number,
        None => VERSION,
    }
}
