//! Runs of `check` over statements and certificates, worked out by hand.
use crate::answers::{Row, USAGE};

const MAPS: &[u8] =
    b"object U V\nmap a b c z : U -> V\nassume a = b\nassume b = c\nassume a = c\nclaim a = c\n";

// Two one-sided inverses of one map are equal.
const INVERSES: &[u8] =
    b"object U V\nmap l : V -> U\nmap a : U -> V\nmap r : V -> U\nassume l a = [U]\nassume a r = [V]\nclaim l = r\n";

// Two Moore-Penrose inverses of one map are equal.
const PSEUDOINVERSES: &[u8] =
    b"object U V\nmap a : U -> V\nmap x y : V -> U\npinv a x\npinv a y\nclaim x = y\n";

const DOUBLE: &[u8] = b"object U\nmap a b : U -> U\nclaim 2 a = b\n";

// Twice a map is zero.
const HALVED: &[u8] = b"object U\nmap x : U -> U\nassume 2 x = 0\nclaim x = 0\n";

// The same of a map with another name.
const DOUBLED: &[u8] = b"object U\nmap a : U -> U\nassume 2 a = 0\nclaim a = 0\n";

// A Moore-Penrose inverse, whose six generators are the claims.
const PENROSE: &[u8] =
    b"object U V\nmap a : U -> V\nmap x : V -> U\npinv a x\nclaim a x a = a\nclaim x a x = x\nclaim x' a' = a x\n\
      claim a' x' = x a\nclaim a' x' a' = a'\nclaim x' a' x' = x'\n";

// Two one-sided inverses of one map, whose ten generators are the claims.
const SIDED: &[u8] =
    b"object U V\nmap l : V -> U\nmap a : U -> V\nmap r : V -> U\nassume l a = [U]\nassume a r = [V]\nclaim l a = [U]\n\
      claim a r = [V]\nclaim [U] [U] = [U]\nclaim [U] l = l\nclaim a [U] = a\nclaim [U] r = r\nclaim [V] [V] = [V]\n\
      claim l [V] = l\nclaim [V] a = a\nclaim r [V] = r\n";

/// Evidence that is judged.
pub const JUDGED: &[Row] = &[
    (
        MAPS,
        b"certificate 1\nclaim 1\ndenominator 1\nrow 1 () 3 ()\nend\n",
        "0 # block 1 accepted claim 1 denominator 1\n",
    ),
    (
        MAPS,
        b"certificate 1\nclaim 1\ndenominator 1\nrow 1 () 3 ()\nrow 1 (z) 1 ()\nrow 1 (z) 2 ()\nrow -1 (z) 3 ()\nend\n",
        "0 # block 1 accepted claim 1 denominator 1\n",
    ),
    (
        MAPS,
        b"certificate 1\nclaim 1\ndenominator 1\nrow 1 () 1 ()\nend\n",
        "7 # block 1 refused C6 word b want 0 got -1\n",
    ),
    (
        INVERSES,
        b"certificate 1\nclaim 1\ndenominator 1\nrow 1 () 1 (r)\nrow -1 (l) 2 ()\nrow 1 () 6 ()\nrow -1 () 8 ()\nend\n",
        "0 # block 1 accepted claim 1 denominator 1\n",
    ),
    (
        INVERSES,
        b"certificate 1\nclaim 1\ndenominator 1\nrow 1 () 1 (r)\nrow -1 (l) 2 ()\nrow 1 () 6 ()\nrow -1 () 8 ()\n",
        "7 # refused K6\n",
    ),
    (
        INVERSES,
        b"certificate 1\nclaim 1\ndenominator 1\nrow 2 () 1 (r)\nrow -1 (l) 2 ()\nrow 1 () 6 ()\nrow -1 () 8 ()\nend\n",
        "7 # block 1 refused C6 word [U] r want 0 got -1\n",
    ),
    (
        INVERSES,
        b"certificate 1\nclaim 1\ndenominator 0\nend\n",
        "7 # block 1 refused C3\n",
    ),
    (
        INVERSES,
        b"certificate 1\nclaim 1\ndenominator 1\nrow 1 () 0 ()\nend\n",
        "7 # block 1 refused C2 row 1\n",
    ),
    (
        INVERSES,
        b"certificate 1\nclaim 1\ndenominator 1\nrow 1 () 11 ()\nend\n",
        "7 # block 1 refused C2 row 1\n",
    ),
    (
        INVERSES,
        b"certificate 1\nclaim 1\ndenominator 1\nrow 1 () 4294967296 ()\nend\n",
        "7 # refused K4 line 4\n",
    ),
    (
        INVERSES,
        b"certificate 1\nclaim 0\ndenominator 1\nend\n",
        "7 # block 1 refused C1\n",
    ),
    (
        INVERSES,
        b"certificate 1\nclaim 1\ndenominator -1\nend\n",
        "7 # refused K2 line 3\n",
    ),
    (
        PSEUDOINVERSES,
        b"certificate 1\nclaim 1\ndenominator 1\nrow -1 () 2 ()\nrow -1 (x) 5 (x)\nrow -1 (x) 7 (a x)\nrow -1 (x y' a') 3 ()\n\
          row 1 (x y') 9 ()\nrow 1 (x) 7 ()\nrow -1 (x) 5 (y)\nrow -1 () 4 (y a y)\nrow -1 (a' x') 8 (y)\nrow 1 () 9 (y' y)\n\
          row 1 () 8 (y)\nrow 1 () 6 ()\nend\n",
        "0 # block 1 accepted claim 1 denominator 1\n",
    ),
    (
        DOUBLE,
        b"certificate 1\nclaim 1\ndenominator 170141183460469231731687303715884105727\nend\n",
        "7 # block 1 refused C4 row 0 170141183460469231731687303715884105727 times 2\n",
    ),
];

/// Evidence that is accepted, and evidence that is refused by each test that a short text fails.
pub const LEMMAS: &[Row] = &[
    (
        DOUBLED,
        b"certificate 2\nclaim 1\ndenominator 2\nlemma 1 scale 2\nrow 1 () 1 ()\ngoal scale 1\nrow 1 () lemma 1 ()\nend\n",
        "0 # block 1 accepted claim 1 denominator 2\n",
    ),
    (
        DOUBLED,
        b"certificate 2\nclaim 1\ndenominator 1\nlemma 1 scale 2\nrow 1 () 1 ()\ngoal scale 1\nrow 1 () lemma 1 ()\nend\n",
        "7 # block 1 refused C10 lemma 1\n",
    ),
    (
        DOUBLED,
        b"certificate 2\nclaim 1\ndenominator 4\nlemma 1 scale 4\nrow 1 () 1 ()\ngoal scale 1\nrow 1 () lemma 1 ()\nend\n",
        "7 # block 1 refused C8 lemma 1 word a got 2\n",
    ),
    (
        DOUBLED,
        b"certificate 2\nclaim 1\ndenominator 2\nlemma 1 scale 2\nrow 1 () 1 ()\ngoal scale 1\nrow 1 () lemma 2 ()\nend\n",
        "7 # block 1 refused C7 row 2\n",
    ),
];

/// Statements that are refused.
pub const REFUSED: &[Row] = &[
    (b"object U\nmap a : U -> U\n", b"", "3 # refused S15\n"),
    (b"", b"", "3 # refused S15\n"),
    (
        b"object U V\nmap p : U -> V self\nclaim p = p\n",
        b"",
        "3 # refused S9 line 2 column 5\n",
    ),
    (
        b"object U V\nmap a b : U -> V\nclaim a b = a\n",
        b"",
        "3 # refused S10 line 3 column 9 left U -> V right U -> V\n",
    ),
    (
        b"object U\nmap a : U -> U\nassume 0 = 0\nclaim a = a\n",
        b"",
        "3 # refused S12 line 3 column 8\n",
    ),
    (
        b"object U\nmap a : U -> U\nclaim 170141183460469231731687303715884105728 a = a\n",
        b"",
        "3 # refused S4 line 3 column 7\n",
    ),
];

/// Statements by whose generators, each alone and in their order, the claims are proved, and no generator is left.
pub const GENERATORS: &[Row] = &[
    (
        PENROSE,
        b"certificate 1\nclaim 1\ndenominator 1\nrow 1 () 1 ()\nend\ncertificate 1\nclaim 2\ndenominator 1\nrow 1 () 2 ()\nend\n\
          certificate 1\nclaim 3\ndenominator 1\nrow 1 () 3 ()\nend\ncertificate 1\nclaim 4\ndenominator 1\nrow 1 () 4 ()\nend\n\
          certificate 1\nclaim 5\ndenominator 1\nrow 1 () 5 ()\nend\ncertificate 1\nclaim 6\ndenominator 1\nrow 1 () 6 ()\nend\n\
          certificate 1\nclaim 1\ndenominator 1\nrow 1 () 7 ()\nend\n",
        "7 # block 1 accepted claim 1 denominator 1\n# block 2 accepted claim 2 denominator 1\n\
         # block 3 accepted claim 3 denominator 1\n# block 4 accepted claim 4 denominator 1\n\
         # block 5 accepted claim 5 denominator 1\n# block 6 accepted claim 6 denominator 1\n# block 7 refused C2 row 1\n",
    ),
    (
        SIDED,
        b"certificate 1\nclaim 1\ndenominator 1\nrow 1 () 1 ()\nend\ncertificate 1\nclaim 2\ndenominator 1\nrow 1 () 2 ()\nend\n\
          certificate 1\nclaim 3\ndenominator 1\nrow 1 () 3 ()\nend\ncertificate 1\nclaim 4\ndenominator 1\nrow 1 () 4 ()\nend\n\
          certificate 1\nclaim 5\ndenominator 1\nrow 1 () 5 ()\nend\ncertificate 1\nclaim 6\ndenominator 1\nrow 1 () 6 ()\nend\n\
          certificate 1\nclaim 7\ndenominator 1\nrow 1 () 7 ()\nend\ncertificate 1\nclaim 8\ndenominator 1\nrow 1 () 8 ()\nend\n\
          certificate 1\nclaim 9\ndenominator 1\nrow 1 () 9 ()\nend\n\
          certificate 1\nclaim 10\ndenominator 1\nrow 1 () 10 ()\nend\n\
          certificate 1\nclaim 1\ndenominator 1\nrow 1 () 11 ()\nend\n",
        "7 # block 1 accepted claim 1 denominator 1\n# block 2 accepted claim 2 denominator 1\n\
         # block 3 accepted claim 3 denominator 1\n# block 4 accepted claim 4 denominator 1\n\
         # block 5 accepted claim 5 denominator 1\n# block 6 accepted claim 6 denominator 1\n\
         # block 7 accepted claim 7 denominator 1\n# block 8 accepted claim 8 denominator 1\n\
         # block 9 accepted claim 9 denominator 1\n# block 10 accepted claim 10 denominator 1\n# block 11 refused C2 row 1\n",
    ),
];

/// Reports of `prove` as evidence: of both formats, and of a claim that isn't derivable.
pub const REPORTS: &[Row] = &[
    (
        HALVED,
        b"# claim 1 proved denominator 2 rows 1\ncertificate 1\nclaim 1\ndenominator 2\nrow 1 () 1 ()\nend\n",
        "0 # block 1 accepted claim 1 denominator 2\n",
    ),
    (
        HALVED,
        b"# claim 1 proved denominator 2 rows 2\ncertificate 2\nclaim 1\ndenominator 2\nlemma 1 scale 2\nrow 1 () 1 ()\ngoal scale 1\n\
          row 1 () lemma 1 ()\nend\n",
        "0 # block 1 accepted claim 1 denominator 2\n",
    ),
    (
        b"object U V\nmap z : V -> V\nmap x : U -> U\nassume z = [V]\nassume z = 0\nclaim x = 0\n",
        b"# claim 1 not derivable rules 5\nbasis 1\nclaim 1\nrule [V] [V] - [V]\nrule [V] z - z\nrule z [V] - z\nrule z - [V]\n\
          rule [V]\nrest x\nend\n",
        "7 # refused K7\n",
    ),
];

/// Other words, and files that aren't there.
pub const CALLS: &[(&[&str], &str)] = &[
    (&["check", "f", "c"], "4 # load failed f\n"),
    (&["check", "s", "g"], "4 # load failed g\n"),
    (&[], USAGE),
];

/// A statement and its certificate, which is accepted.
pub const SOUND: (&[u8], &[u8]) = (
    MAPS,
    b"certificate 1\nclaim 1\ndenominator 1\nrow 1 () 3 ()\nend\n",
);
