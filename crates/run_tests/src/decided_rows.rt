//! Runs of `prove`, `refute` and `bench`: words, a statement, and the status with the report, worked out by hand.
use crate::answers::USAGE;

/// The words, the statement that they name by `s`, and the status with the report.
pub type CallRow = (&'static [&'static str], &'static [u8], &'static str);

const REFLEXIVE: &[u8] = b"object U\nmap a : U -> U\nclaim a = a\n";

// The same with the greatest coefficient, and with the first literal past it.
const GREATEST: &[u8] = b"object U\nmap a : U -> U\n\
      claim 170141183460469231731687303715884105727 a = 170141183460469231731687303715884105727 a\n";

const PAST_GREATEST: &[u8] =
    b"object U\nmap a : U -> U\nclaim 170141183460469231731687303715884105728 a = a\n";

/// Twice a map is zero.
const DOUBLED: &[u8] = b"object U\nmap x : U -> U\nassume 2 x = 0\nclaim x = 0\n";

const PSEUDOINVERSE: &[u8] =
    b"object U V\nmap a : U -> V\nmap x : V -> U\npinv a x\nclaim a' x' a' = a'\n";

const PROJECTION: &[u8] =
    b"object U V\nmap a : U -> V\nmap x : V -> U\npinv a x\nclaim (a x)(a x) = a x\n";

// The second assumption makes V a zero object.
const ZERO_OBJECT: &[u8] =
    b"object U V\nmap z : V -> V\nmap x : U -> U\nassume z = [V]\nassume z = 0\nclaim x = 0\n";

const ONE_SIDED: &[u8] =
    b"object U V\nmap a : U -> V\nmap b : V -> U\nassume a b = [V]\nclaim b a = [U]\nmodel 2 U 2 V 1\n";

const BRAID: &[u8] = b"object V\nmap a b : V -> V\nassume b a b = a b a\nclaim a = b\n";

const LARGE: &[u8] =
    b"object V\nmap a b : V -> V\nassume 170141183460469231731687303715884105727 a = b\nclaim b b = 0\n";

const WEIGHTED: &[u8] =
    b"object V\nmap a b : V -> V\norder weight b 3\nassume a a = b\nclaim b b = a a a a\n";

/// A letter 34 times, which overlaps itself at 33 places.
const POWER: &[u8] =
    b"object U\nmap a : U -> U\nassume a a a a a a a a a a a a a a a a a a a a a a a a a a a a a a a a a a = 0\nclaim a = 0\n";

/// A true claim with one shape of side 1 modulo 2.
const TWO_CANDIDATES: &[u8] = b"object U\nmap a : U -> U\nclaim a = a\nmodel 2 U 1\n";

/// A map and an inner inverse, which isn't determined by it. The candidates of its shape are drawn.
pub const INNER: &[u8] =
    b"object U V\nmap a : U -> V\nmap x : V -> U\ninner a x\nclaim x a x = x\nmodel 7 U 2 V 2\n";

const BRACKETS_64: &[u8] = b"object U\nmap a : U -> U\nclaim \
      ((((((((((((((((((((((((((((((((((((((((((((((((((((((((((((((((a)))))))))))))))))))))))))))))))))))))))))))))))))))))))))))))))) \
      = a\n";

const BRACKETS_65: &[u8] = b"object U\nmap a : U -> U\nclaim \
      (((((((((((((((((((((((((((((((((((((((((((((((((((((((((((((((((a))))))))))))))))))))))))))))))))))))))))))))))))))))))))))))))))) \
      = a\n";

const PROVE: &[&str] = &["prove", "s"];

/// By rows over generators alone.
pub const PLAIN: &[&str] = &["prove", "s", "--format", "1"];

const REFUTE: &[&str] = &["refute", "s"];

const BROKEN_BRAID: &str =
    "11 # claim 1 refuted\nmodel 1\nclaim 1\nmodulus 2\nside V 1\nmap a = 1\nmap b = 0\nend\n";

const BROKEN_SIDED: &str =
    "11 # claim 1 refuted\nmodel 1\nclaim 1\nmodulus 2\nside U 2\nside V 1\nmap a = 1 0\nmap b = 1 ; 0\nend\n";

const ONE_SIDED_BASIS: &str =
    "10 # claim 1 not derivable rules 7\nbasis 1\nclaim 1\nrule [U] [U] - [U]\nrule a [U] - a\nrule [U] b - b\nrule [V] [V] - [V]\n\
     rule [V] a - a\nrule b [V] - b\nrule a b - [V]\nrest b a - [U]\nend\n";

const BRAID_LEAST: &str = "12 # claim 1 undecided pairs 1 least b a a b a b\n";

const TRUE_PLAINLY: &str =
    "0 # claim 1 proved denominator 1 rows 0\ncertificate 1\nclaim 1\ndenominator 1\nend\n";

const BENCH: &str =
    "10 # claim 1 proved denominator 1 rows 79\n# claim 2 not derivable rules 241\n";

/// Claims that are proved, by evidence with lemmas.
pub const PROVED: &[CallRow] = &[
    (
        PROVE,
        REFLEXIVE,
        "0 # claim 1 proved denominator 1 rows 0\ncertificate 2\nclaim 1\ndenominator 1\ngoal scale 1\nend\n",
    ),
    (
        PROVE,
        BRACKETS_64,
        "0 # claim 1 proved denominator 1 rows 0\ncertificate 2\nclaim 1\ndenominator 1\ngoal scale 1\nend\n",
    ),
    (
        PROVE,
        DOUBLED,
        "0 # claim 1 proved denominator 2 rows 2\ncertificate 2\nclaim 1\ndenominator 2\nlemma 1 scale 2\nrow 1 () 1 ()\ngoal scale 1\n\
         row 1 () lemma 1 ()\nend\n",
    ),
    (
        PROVE,
        PSEUDOINVERSE,
        "0 # claim 1 proved denominator 1 rows 4\ncertificate 2\nclaim 1\ndenominator 1\nlemma 1 scale 1\nrow 1 () 5 ()\n\
         row -1 (a') 3 ()\ngoal scale 1\nrow 1 (a') 3 ()\nrow 1 () lemma 1 ()\nend\n",
    ),
    (
        PROVE,
        PROJECTION,
        "0 # claim 1 proved denominator 1 rows 1\ncertificate 2\nclaim 1\ndenominator 1\ngoal scale 1\nrow 1 () 1 (x)\nend\n",
    ),
    (
        PROVE,
        GREATEST,
        "0 # claim 1 proved denominator 1 rows 0\ncertificate 2\nclaim 1\ndenominator 1\ngoal scale 1\nend\n",
    ),
];

/// Claims that are proved, by rows over generators alone.
pub const PROVED_PLAINLY: &[CallRow] = &[
    (PLAIN, REFLEXIVE, TRUE_PLAINLY),
    (
        PLAIN,
        DOUBLED,
        "0 # claim 1 proved denominator 2 rows 1\ncertificate 1\nclaim 1\ndenominator 2\nrow 1 () 1 ()\nend\n",
    ),
    (
        PLAIN,
        PSEUDOINVERSE,
        "0 # claim 1 proved denominator 1 rows 1\ncertificate 1\nclaim 1\ndenominator 1\nrow 1 () 5 ()\nend\n",
    ),
    (
        PLAIN,
        PROJECTION,
        "0 # claim 1 proved denominator 1 rows 1\ncertificate 1\nclaim 1\ndenominator 1\nrow 1 () 1 (x)\nend\n",
    ),
    (
        PLAIN,
        WEIGHTED,
        "0 # claim 1 proved denominator 1 rows 2\ncertificate 1\nclaim 1\ndenominator 1\nrow -1 () 1 (b)\nrow -1 (a a) 1 ()\nend\n",
    ),
    (PLAIN, GREATEST, TRUE_PLAINLY),
    (PLAIN, BRACKETS_64, TRUE_PLAINLY),
];

/// Claims that no positive multiple of is a combination of the generators, and claims that are left undecided.
pub const OTHERS: &[CallRow] = &[
    (
        PROVE,
        ZERO_OBJECT,
        "10 # claim 1 not derivable rules 5\nbasis 1\nclaim 1\nrule [V] [V] - [V]\nrule [V] z - z\nrule z [V] - z\nrule z - [V]\nrule [V]\nrest x\nend\n",
    ),
    (PROVE, ONE_SIDED, ONE_SIDED_BASIS),
    (
        &["prove", "s", "--workers", "1"],
        ONE_SIDED,
        ONE_SIDED_BASIS,
    ),
    (
        &["prove", "s", "--workers", "7"],
        ONE_SIDED,
        ONE_SIDED_BASIS,
    ),
    (
        &["prove", "s", "--pairs", "33", "--no-models"],
        POWER,
        "10 # claim 1 not derivable rules 1\nbasis 1\nclaim 1\nrule a a a a a a a a a a a a a a a a a a a a a a a a a a a a a a a a a a\nrest a\nend\n",
    ),
    (
        &["prove", "s", "--pairs", "32", "--no-models"],
        POWER,
        "12 # claim 1 undecided pairs 32 least a a a a a a a a a a a a a a a a a a a a a a a a a a a a a a a a a a a a a a a a a \
         a a a a a a a a a a a a a a a a a a a a a a a a a a\n",
    ),
    // the words in each order
    (
        &["prove", "s", "--pairs", "1", "--no-models"],
        BRAID,
        BRAID_LEAST,
    ),
    (
        &["prove", "s", "--no-models", "--pairs", "1"],
        BRAID,
        BRAID_LEAST,
    ),
    (
        &["prove", "--pairs", "1", "s", "--no-models"],
        BRAID,
        BRAID_LEAST,
    ),
    (
        &["prove", "--pairs", "1", "--no-models", "s"],
        BRAID,
        BRAID_LEAST,
    ),
    (
        &["prove", "--no-models", "s", "--pairs", "1"],
        BRAID,
        BRAID_LEAST,
    ),
    (
        &["prove", "--no-models", "--pairs", "1", "s"],
        BRAID,
        BRAID_LEAST,
    ),
    (
        &["prove", "s", "--no-models"],
        LARGE,
        "12 # claim 1 undecided overflow 170141183460469231731687303715884105727 times -170141183460469231731687303715884105727 at claim after round 0\n",
    ),
    (PROVE, BRACKETS_65, "3 # refused S5 line 3 column 71\n"),
    (PLAIN, BRACKETS_65, "3 # refused S5 line 3 column 71\n"),
    (PROVE, PAST_GREATEST, "3 # refused S4 line 3 column 7\n"),
    (PLAIN, PAST_GREATEST, "3 # refused S4 line 3 column 7\n"),
];

/// Claims that a small model breaks, and claims that none of the candidates does.
pub const BROKEN: &[CallRow] = &[
    (REFUTE, ONE_SIDED, BROKEN_SIDED),
    (&["refute", "s", "--workers", "1"], ONE_SIDED, BROKEN_SIDED),
    (&["refute", "s", "--workers", "7"], ONE_SIDED, BROKEN_SIDED),
    (&["prove", "s", "--pairs", "1"], BRAID, BROKEN_BRAID),
    (
        &["prove", "s", "--pairs", "1", "--workers", "1"],
        BRAID,
        BROKEN_BRAID,
    ),
    (
        &["prove", "s", "--pairs", "1", "--workers", "7"],
        BRAID,
        BROKEN_BRAID,
    ),
    (
        PROVE,
        LARGE,
        "11 # claim 1 refuted\nmodel 1\nclaim 1\nmodulus 2\nside V 1\nmap a = 1\nmap b = 1\nend\n",
    ),
    (
        REFUTE,
        TWO_CANDIDATES,
        "13 # claim 1 not refuted candidates 2\n",
    ),
    (
        &["refute", "s", "--workers", "1"],
        TWO_CANDIDATES,
        "13 # claim 1 not refuted candidates 2\n",
    ),
    (
        &["refute", "s", "--workers", "7"],
        TWO_CANDIDATES,
        "13 # claim 1 not refuted candidates 2\n",
    ),
];

/// Runs of `bench`, and words that are not taken.
pub const WITHOUT_FILES: &[CallRow] = &[
    (
        &["bench", "1"],
        b"",
        "10 # claim 1 proved denominator 1 rows 1\n# claim 2 not derivable rules 7\n",
    ),
    (&["bench", "40", "--workers", "1"], b"", BENCH),
    (&["bench", "40", "--workers", "7"], b"", BENCH),
    (&["bench", "61"], b"", USAGE),
    (&["prove", "s", "--pairs", "0"], b"", USAGE),
    (&["--help"], b"", USAGE),
    (&["prove", "f"], b"", "4 # load failed f\n"),
];

/// One file of each language, and two faults.
pub const BEGINNINGS: &[CallRow] = &[
    (
        PROVE,
        b"language 2\nobject V\nmap a b : V -> V\neliminate b\nassume a^2 = b\nclaim b^2 = a^4\n",
        "0 # claim 1 proved denominator 1 rows 2\ncertificate 2\nclaim 1\ndenominator 1\ngoal scale 1\nrow -1 () 1 (b)\nrow -1 (a a) 1 ()\nend\n",
    ),
    (
        PROVE,
        b"object V\nmap a b : V -> V\nassume a^2 = b\nclaim a = a\n",
        "3 # refused S2 line 3 column 9\n",
    ),
    (
        PROVE,
        b"language 2\nobject U V\nmap a : U -> V\nclaim a^2 = a\n",
        "3 # refused S10 line 4 column 8 left U -> V right U -> V\n",
    ),
    (
        PROVE,
        b"language 2\nobject U\nmap a : U -> U\nclaim a^501 = a\n",
        "3 # refused S16 line 4 column 9\n",
    ),
];
