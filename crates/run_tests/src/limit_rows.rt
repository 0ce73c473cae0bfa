//! Files at each limit and one past it: what they are put together from, and the status with the report.
use crate::parts::LimitRow;
use crate::parts::Part::{self, LongRows, Numbers, Padding, Plain, Times};

const CHECK: &[&str] = &["check", "s", "c"];

const MODEL: &[&str] = &["model", "s", "c"];

const PROVE: &[&str] = &["prove", "s"];

const TWO_MAPS: Part = Plain("object U\nmap a b : U -> U\n");

const ONE_TEXT: &str = "object U\nmap a b : U -> U\nassume a = b\nclaim a = b\n";

const ONE: &[Part] = &[Plain(ONE_TEXT)];

const ZERO_BETWEEN: &[Part] = &[Plain("object U V\nmap a : U -> V\nclaim a = 0\n")];

// An assumption of 20,000 terms.
const BIG: &[Part] = &[
    Plain("object U\nmap "),
    Numbers("m", 1, 200, "", " "),
    Plain(" : U -> U\nassume ("),
    Numbers("m", 1, 100, "", " + "),
    Plain(") ("),
    Numbers("m", 1, 200, "", " + "),
    Plain(") = 0\nclaim m1 = 0\n"),
];

const HEAD: Part = Plain("certificate 1\nclaim 1\ndenominator 1\n");

const ROW: Part = Plain("row 1 () 1 ()\n");

const END: Part = Plain("end\n");

const EMPTY: &[Part] = &[HEAD, END];

const GOOD: &str = "certificate 1\nclaim 1\ndenominator 1\nrow 1 () 1 ()\nend\n";

const MODULUS: Part = Plain("model 1\nclaim 1\nmodulus 2\n");

const ACCEPTED: &[Part] = &[Plain("0 # block 1 accepted claim 1 denominator 1\n")];

// Of a claim both sides of which are the same polynomial.
const PROVED: &[Part] = &[Plain(
    "0 # claim 1 proved denominator 1 rows 0\ncertificate 2\nclaim 1\ndenominator 1\ngoal scale 1\nend\n",
)];

const CONFIRMED: &[Part] = &[Plain("0 # block 1 confirmed claim 1\n")];

/// The limits on names and on their numbers.
pub const NAMED: &[LimitRow] = &[
    // letters of a name
    (
        CHECK,
        &[
            Plain("object U\nmap "),
            Times("n", 32),
            Plain(" : U -> U\nclaim "),
            Times("n", 32),
            Plain(" = "),
            Times("n", 32),
            Plain("\n"),
        ],
        EMPTY,
        ACCEPTED,
    ),
    (
        CHECK,
        &[
            Plain("object U\nmap "),
            Times("n", 33),
            Plain(" : U -> U\nclaim "),
            Times("n", 33),
            Plain(" = "),
            Times("n", 33),
            Plain("\n"),
        ],
        EMPTY,
        &[Plain("3 # refused S2 line 2 column 5\n")],
    ),
    // objects
    (
        CHECK,
        &[
            Plain("object "),
            Numbers("o", 0, 63, "", " "),
            Plain("\nclaim [o0] = [o0]\n"),
        ],
        EMPTY,
        ACCEPTED,
    ),
    (
        CHECK,
        &[
            Plain("object "),
            Numbers("o", 0, 64, "", " "),
            Plain("\nclaim [o0] = [o0]\n"),
        ],
        EMPTY,
        &[Plain("3 # refused S8 line 1 column 254 limit 64\n")],
    ),
    // maps
    (
        CHECK,
        &[
            Plain("object U\nmap "),
            Numbers("m", 1, 200, "", " "),
            Plain(" : U -> U\nclaim m1 = m1\n"),
        ],
        EMPTY,
        ACCEPTED,
    ),
    (
        CHECK,
        &[
            Plain("object U\nmap "),
            Numbers("m", 1, 201, "", " "),
            Plain(" : U -> U\nclaim m1 = m1\n"),
        ],
        EMPTY,
        &[Plain("3 # refused S8 line 2 column 897 limit 200\n")],
    ),
];

/// The limits on assumptions, claims, shapes and words.
pub const STATED: &[LimitRow] = &[
    // assumptions
    (
        CHECK,
        &[
            TWO_MAPS,
            Times("assume a = b\n", 500),
            Plain("claim a = a\n"),
        ],
        EMPTY,
        ACCEPTED,
    ),
    (
        CHECK,
        &[
            TWO_MAPS,
            Times("assume a = b\n", 501),
            Plain("claim a = a\n"),
        ],
        EMPTY,
        &[Plain("3 # refused S8 line 503 column 1 limit 500\n")],
    ),
    // claims
    (
        CHECK,
        &[TWO_MAPS, Times("claim a = a\n", 100)],
        EMPTY,
        ACCEPTED,
    ),
    (
        CHECK,
        &[TWO_MAPS, Times("claim a = a\n", 101)],
        EMPTY,
        &[Plain("3 # refused S8 line 103 column 1 limit 100\n")],
    ),
    // shapes
    (
        CHECK,
        &[TWO_MAPS, Plain("claim a = a\n"), Times("model 2\n", 16)],
        EMPTY,
        ACCEPTED,
    ),
    (
        CHECK,
        &[TWO_MAPS, Plain("claim a = a\n"), Times("model 2\n", 17)],
        EMPTY,
        &[Plain("3 # refused S8 line 20 column 1 limit 16\n")],
    ),
    // letters of a word
    (
        CHECK,
        &[
            TWO_MAPS,
            Plain("claim "),
            Times("a ", 500),
            Plain("= "),
            Times("a ", 500),
            Plain("\n"),
        ],
        EMPTY,
        ACCEPTED,
    ),
    (
        CHECK,
        &[
            TWO_MAPS,
            Plain("claim "),
            Times("a ", 501),
            Plain("= "),
            Times("a ", 501),
            Plain("\n"),
        ],
        EMPTY,
        &[Plain("3 # refused S14 line 3 column 1\n")],
    ),
];

/// The limits on rows and terms.
pub const ROWS: &[LimitRow] = &[
    // terms that rows make of a generator of 20,000, and terms of an assumption
    (
        CHECK,
        BIG,
        &[HEAD, Numbers("row 1 (m", 1, 10, ") 1 ()\n", ""), END],
        &[Plain("7 # block 1 refused C6 word m1 want 1 got 0\n")],
    ),
    (
        CHECK,
        BIG,
        &[HEAD, Numbers("row 1 (m", 1, 11, ") 1 ()\n", ""), END],
        &[Plain("7 # block 1 refused C5 row 11 limit 200000\n")],
    ),
    (
        CHECK,
        &[
            Plain("object U\nmap "),
            Numbers("m", 1, 200, "", " "),
            Plain(" : U -> U\nassume ("),
            Numbers("m", 1, 100, "", " + "),
            Plain(") ("),
            Numbers("m", 1, 200, "", " + "),
            Plain(") + m1 = 0\nclaim m1 = 0\n"),
        ],
        EMPTY,
        &[Plain("3 # refused S14 line 3 column 1\n")],
    ),
    // rows
    (
        CHECK,
        ONE,
        &[HEAD, ROW, Times("row 0 () 1 ()\n", 199_999), END],
        ACCEPTED,
    ),
    (
        CHECK,
        ONE,
        &[HEAD, ROW, Times("row 0 () 1 ()\n", 200_000), END],
        &[Plain("7 # refused K5 line 200004 limit 200000\n")],
    ),
    // letters of all rows
    (
        CHECK,
        ONE,
        &[
            HEAD,
            ROW,
            LongRows("a ", "b ", 1000),
            Plain("row 0 () 1 ()\n"),
            END,
        ],
        ACCEPTED,
    ),
    (
        CHECK,
        ONE,
        &[
            HEAD,
            ROW,
            LongRows("a ", "b ", 1000),
            Plain("row 0 (a) 1 ()\n"),
            END,
        ],
        &[Plain("7 # refused K5 line 1005 limit 1000000\n")],
    ),
];

/// The limits on blocks of certificates, and on models.
pub const MODELS: &[LimitRow] = &[
    // blocks
    (
        CHECK,
        ONE,
        &[Times(GOOD, 100)],
        &[
            Plain("0 "),
            Numbers("# block ", 1, 100, " accepted claim 1 denominator 1\n", ""),
        ],
    ),
    (
        CHECK,
        ONE,
        &[Times(GOOD, 101)],
        &[Plain("7 # refused K5 line 501 limit 100\n")],
    ),
    // sides, and columns of a matrix
    (
        MODEL,
        ZERO_BETWEEN,
        &[
            MODULUS,
            Plain("side U 64\nmap a = "),
            Times("1 ", 64),
            Plain("\nend\n"),
        ],
        CONFIRMED,
    ),
    (
        MODEL,
        ZERO_BETWEEN,
        &[
            MODULUS,
            Plain("side U 65\nmap a = "),
            Times("1 ", 65),
            Plain("\nend\n"),
        ],
        &[Plain("7 # refused K5 line 4 limit 64\n")],
    ),
    (
        MODEL,
        ZERO_BETWEEN,
        &[
            MODULUS,
            Plain("side U 64\nmap a = "),
            Times("1 ", 65),
            Plain("\nend\n"),
        ],
        &[Plain("7 # refused K5 line 5 limit 64\n")],
    ),
    // rows of a matrix
    (
        MODEL,
        ZERO_BETWEEN,
        &[
            MODULUS,
            Plain("side V 64\nmap a = "),
            Times("1 ; ", 63),
            Plain("1\nend\n"),
        ],
        CONFIRMED,
    ),
    (
        MODEL,
        ZERO_BETWEEN,
        &[
            MODULUS,
            Plain("side V 64\nmap a = "),
            Times("1 ; ", 64),
            Plain("1\nend\n"),
        ],
        &[Plain("7 # refused K5 line 5 limit 64\n")],
    ),
];

/// The limits on the bytes of a file.
pub const SIZES: &[LimitRow] = &[
    // bytes of a statement
    (
        CHECK,
        &[Plain(ONE_TEXT), Padding(1_048_576)],
        &[Plain(GOOD)],
        ACCEPTED,
    ),
    (
        CHECK,
        &[Plain(ONE_TEXT), Padding(1_048_577)],
        &[Plain(GOOD)],
        &[Plain("4 # too long s limit 1048576\n")],
    ),
    // bytes of evidence
    (CHECK, ONE, &[Plain(GOOD), Padding(67_108_864)], ACCEPTED),
    (
        CHECK,
        ONE,
        &[Plain(GOOD), Padding(67_108_865)],
        &[Plain("4 # too long c limit 67108864\n")],
    ),
];

/// The limits of maps of both languages.
pub const MAP_LIMITS: &[LimitRow] = &[
    (
        PROVE,
        &[
            Plain("object U\nmap "),
            Numbers("k", 1, 201, "", " "),
            Plain(" : U -> U\n"),
        ],
        &[],
        &[Plain("3 # refused S8 line 2 column 897 limit 200\n")],
    ),
    (
        PROVE,
        &[
            Plain("language 2\nobject U\nmap "),
            Numbers("k", 1, 201, "", " "),
            Plain(" : U -> U\nclaim k201 = k201\n"),
        ],
        &[],
        PROVED,
    ),
    (
        PROVE,
        &[
            Plain("language 2\nobject U\nmap "),
            Numbers("k", 1, 1000, "", " "),
            Plain(" : U -> U\neliminate k1000\nassume k1000 = k1\nclaim k1000^2 = k1^2\n"),
        ],
        &[],
        &[Plain(
            "0 # claim 1 proved denominator 1 rows 2\ncertificate 2\nclaim 1\ndenominator 1\ngoal scale 1\nrow 1 () 1 (k1000)\nrow 1 (k1) 1 ()\nend\n",
        )],
    ),
    (
        PROVE,
        &[
            Plain("language 2\nobject U\nmap "),
            Numbers("k", 1, 1001, "", " "),
            Plain(" : U -> U\n"),
        ],
        &[],
        &[Plain("3 # refused S8 line 3 column 4898 limit 1000\n")],
    ),
];
