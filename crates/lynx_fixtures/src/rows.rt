//! A worked run: a set, a script, and what is printed.
use crate::texts;

#[derive(Clone, Copy)]
pub struct Row {
    pub set: &'static str,
    pub script: &'static str,
    pub printed: &'static str,
}

#[rattlefmt::skip]
pub const PAYMENT: Row = Row {
    set: texts::PAYMENT,
    script: "begin 0 1 1 seed 100\nbegin 0 1 2 pay 30\ndeliver 0:1 1\n",
    printed: "begun 0:0 stamp 1 results -\nbegun 0:1 stamp 2 results 100\ndone 0:1 1 stamp 3 results - end\ncell acct 0 70\ncell acct 1000 30\norder 0:0 0:1\n",
};
