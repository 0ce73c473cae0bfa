//! Texts of shifts, each with what is written back of it or its first fault.

/// A text, and what is told of it.
pub type Row = (&'static str, &'static str);

const ONE: &str = "shift 1\nletter a\nby 3\nend\n";

const NONE: &str = "shift 1\nletter\nby 0\nend\n";

const TWO: &str = "shift 1\nletter a\nby 3\nend\nshift 1\nletter\nby 0\nend\n";

/// Texts that are read, and what is written of their shifts.
pub const READ: &[Row] = &[
    (ONE, ONE),
    (NONE, NONE),
    (TWO, TWO),
    (
        "shift 1\nletter a'\nby 4294967295\nend\nshift 1\nletter [V]\nby 1\nend\n",
        "shift 1\nletter a'\nby 4294967295\nend\nshift 1\nletter [V]\nby 1\nend\n",
    ),
    // p' is p, and [V]' is [V]
    (
        "shift 1\nletter p'\nby 3\nend\n",
        "shift 1\nletter p\nby 3\nend\n",
    ),
    (
        "shift 1\nletter [V]'\nby 3\nend\n",
        "shift 1\nletter [V]\nby 3\nend\n",
    ),
    // no LF at the end, CR LF, tabs and blanks, leading zeros, comments and blank lines
    ("shift 1\nletter a\nby 3\nend", ONE),
    ("shift 1\r\nletter a\r\nby 3\r\nend\r\n", ONE),
    ("\tshift\t \t1 \n letter  a\nby 3\t\nend ", ONE),
    (
        "# shift 1\n\nshift 1\n  # end\nletter a\n\t\nby 0003\n#\nend\n# x",
        ONE,
    ),
    ("shift 1\nletter\t\nby 00\nend\n", NONE),
    // blocks of other kinds, in which anything may stand
    (
        "model 1\nclaim 1\nshift 1\nletter b\nend\nshift 1\nletter a\nby 3\nend\nbasis ) (\nend\n",
        ONE,
    ),
    (
        "certificate\nend 1\n # x\nend\nshift 1\nletter a\nby 3\nend\nmodel\nend\nshift 1\nletter\nby 0\nend\ncertificate 1\nend",
        TWO,
    ),
];

/// The first fault of a text.
pub const FAULTS: &[Row] = &[
    // the head
    ("x", "K2 in line 1, limit 0"),
    ("end", "K2 in line 1, limit 0"),
    ("shift", "K2 in line 1, limit 0"),
    ("shift 2", "K2 in line 1, limit 0"),
    ("shift 1 1", "K2 in line 1, limit 0"),
    ("shift1", "K2 in line 1, limit 0"),
    ("cancellation 1\nend\n", "K2 in line 1, limit 0"),
    // the letter
    ("shift 1\nend", "K2 in line 2, limit 0"),
    ("shift 1\nby 3", "K2 in line 2, limit 0"),
    ("shift 1\nshift 1", "K2 in line 2, limit 0"),
    ("shift 1\nmodel 1\nend", "K2 in line 2, limit 0"),
    ("shift 1\nletter a a", "K2 in line 2, limit 0"),
    ("shift 1\nletter (a)", "K2 in line 2, limit 0"),
    ("shift 1\nletter 1", "K2 in line 2, limit 0"),
    ("shift 1\nletter a''", "K2 in line 2, limit 0"),
    ("shift 1\nletter [a", "K2 in line 2, limit 0"),
    ("shift 1\nletter b", "K3 in line 2, limit 0"),
    ("shift 1\nletter V", "K3 in line 2, limit 0"),
    ("shift 1\nletter [a]", "K3 in line 2, limit 0"),
    (
        "# x\n\nshift 1\n\nletter b\nby -1\nend\n",
        "K3 in line 5, limit 0",
    ),
    // the number
    ("shift 1\nletter a\nend", "K2 in line 3, limit 0"),
    ("shift 1\nletter a\nletter a", "K2 in line 3, limit 0"),
    ("shift 1\nletter a\nby", "K2 in line 3, limit 0"),
    ("shift 1\nletter a\nby -1", "K2 in line 3, limit 0"),
    ("shift 1\nletter a\nby a", "K2 in line 3, limit 0"),
    ("shift 1\nletter a\nby 1 1", "K2 in line 3, limit 0"),
    ("shift 1\nletter a\nby 4294967296", "K4 in line 3, limit 0"),
    (
        "shift 1\nletter a\nby 00000000000000000000000000000000000000000000000000000000000000000000000004294967296x",
        "K2 in line 3, limit 0",
    ),
    (
        "shift 1\nletter a\nby 99999999999999999999999999999999999999999999\nx",
        "K4 in line 3, limit 0",
    ),
    // the line `end`
    ("shift 1\nletter a\nby 3\nby 3", "K2 in line 4, limit 0"),
    ("shift 1\nletter a\nby 3\nend 1", "K2 in line 4, limit 0"),
    ("shift 1\nletter a\nby 3\nend\nend", "K2 in line 5, limit 0"),
    (
        "shift 1\nletter a\nby 3\nend\nshift 1\nletter b",
        "K3 in line 6, limit 0",
    ),
    // the text ends inside a block
    ("shift 1", "K6 in line 0, limit 0"),
    ("shift 1\nletter a\n", "K6 in line 0, limit 0"),
    ("shift 1\nletter a\nby 3\n# end\n", "K6 in line 0, limit 0"),
    (
        "model 1\nshift 1\nletter a\nby 3\n",
        "K6 in line 0, limit 0",
    ),
    (
        "shift 1\nletter a\nby 3\nend\nbasis",
        "K6 in line 0, limit 0",
    ),
    // it has no block
    ("", "K7 in line 0, limit 0"),
    ("\n# shift 1\n \n", "K7 in line 0, limit 0"),
    ("model 1\nend\nbasis\nend\n", "K7 in line 0, limit 0"),
];

/// Texts over a quiver without letters, where a shift may have none.
pub const BARE: &[Row] = &[(NONE, NONE), (ONE, "K3 in line 2, limit 0")];
