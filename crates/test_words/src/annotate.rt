//! Of payloads as text with remarks what no command shows, by the public calls of `ec_annotate`. What `ecat decode` shows are
//! cases (`tools/cases/data/remarks.cases`).
use crate::compare::expect_same;
use ec_annotate::{Names, annotate_text};

/// A whole datagram, and one whose command is none.
const BAD: &str = "1a100407e903300102800000120001000f0800000000000000000000\n";

const BAD_TEXT: &str = "\
0 FPRD index 07 at 03e9:0130 counter 1 data 1200
refused 6 BadCommand datagram 1 byte 16
";

#[test]
fn without_names_and_a_table_nothing_is_told(rt: HostRuntime) {
    let answer = annotate_text(rt.alloc(), BAD, Names::Omitted, None).expect(&rt, "memory");
    let seen = (answer.text.as_str(), answer.is_whole);
    expect_same(&rt, &seen, &(BAD_TEXT, true), "a text");
}
