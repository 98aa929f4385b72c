//! The rules in words that several members have.

pub(crate) const A_NUMBER: &str = "a whole number";

pub(crate) const A_TEXT: &str = "a text in quotes";

pub(crate) const AN_ARRAY: &str = "an array";

pub(crate) const TRUE_OR_FALSE: &str = "true or false";

pub(crate) const A_SPAN: &str = "from 1 to 999999999999 ticks";

pub(crate) const A_PRIO: &str = "from 1, the highest, to 511";

pub(crate) const A_CLUSTER: &str = "the number of a cluster; the first is 0";

pub(crate) const A_NAME: &str = "1 to 32 letters, digits, _ and -";

pub(crate) const A_NEW_NAME: &str = "no element before has this name";

pub(crate) const DECLARED_SEMS: &str = "each semaphore that it names is declared in sems";

pub(crate) const AT_MOST_64: &str = "at most 64";
