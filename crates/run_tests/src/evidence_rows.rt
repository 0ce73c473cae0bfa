//! Runs of `cancel`, `confirm` and `explain`, worked out by hand.
use crate::answers::Row;

// A map in front of two others.
const FRONT: &[u8] =
    b"object U V\nmap a : U -> V\nmap p q : U -> U\nassume a p = a q\nclaim p = q\n";

const PARALLEL: &[u8] = b"object U V\nmap a b : U -> V\nclaim a = 0\n";

// The third assumption is the claim.
const EQUALS: &[u8] =
    b"object U V\nmap a b c z : U -> V\nassume a = b\nassume b = c\nassume a = c\nclaim a = c\n";

// Two one-sided inverses of one map.
const ONE_SIDED: &[u8] =
    b"object U V\nmap l : V -> U\nmap a : U -> V\nmap r : V -> U\nassume l a = [U]\nassume a r = [V]\nclaim l = r\n";

/// Proofs by which letters come off that are declared, and that begin each word.
pub const CANCELLED: &[Row] = &[
    (
        FRONT,
        b"cancellation 1\nclaim 1\ndenominator 1\nmonic a\nlemma 1 scale 1\nrow 1 () 1 ()\ncancel 2 a left 1\ngoal scale 1\n\
          row 1 () lemma 2 ()\nend\n",
        "0 # block 1 accepted claim 1 denominator 1 monic a\n",
    ),
    (
        FRONT,
        b"cancellation 1\nclaim 1\ndenominator 1\nepic a\nlemma 1 scale 1\nrow 1 () 1 ()\ncancel 2 a left 1\ngoal scale 1\n\
          row 1 () lemma 2 ()\nend\n",
        "7 # block 1 refused X2 item 2\n",
    ),
    (
        FRONT,
        b"cancellation 1\nclaim 1\ndenominator 1\nmonic a\nmonic p\nlemma 1 scale 1\nrow 1 () 1 ()\ncancel 2 p left 1\n\
          goal scale 1\nrow 1 () lemma 2 ()\nend\n",
        "7 # block 1 refused X4 item 2\n",
    ),
];

/// Bases that are closed or refused, and which of them are sharp: each rule is typed, and its letters are in play.
pub const CONFIRMED: &[Row] = &[
    (
        PARALLEL,
        b"basis 1\nclaim 1\nrule b b\nrest a\nend\n",
        "0 # block 1 closed claim 1\n",
    ),
    (
        b"object V\nmap a b : V -> V\nassume b a b = a b a\nclaim a = b\n",
        b"basis 1\nclaim 1\nrule b a b - a b a\nrest - b + a\nend\n",
        "7 # block 1 refused B4 overlap 1 1 2 rest b a a b a - a b a a b\n",
    ),
    (
        b"object U V\nmap z : V -> V\nmap x : U -> U\nassume z = [V]\nassume z = 0\nclaim x = 0\n",
        b"# claim 1 not derivable rules 5\nbasis 1\nclaim 1\nrule [V] [V] - [V]\nrule [V] z - z\nrule z [V] - z\nrule z - [V]\nrule [V]\nrest x\nend\n",
        "0 # block 1 closed claim 1 sharp\n",
    ),
    (
        b"object U V\nmap z : V -> V\nmap x : U -> U\nassume z = [V]\nassume z = 0\nclaim x = 0\n",
        b"# claim 1 not derivable rules 5\nbasis 1\nclaim 1\nrule [V] [V] - [V]\nrule [V] z - z\nrule z [V] - z\nrule z - [V]\nrest x\nend\n",
        "7 # block 1 refused B3 generator 2 rest [V]\n",
    ),
];

/// Certificates with their chains of equations, the first of one step among rows that aren't typed.
pub const EXPLAINED: &[Row] = &[
    (
        EQUALS,
        b"certificate 1\nclaim 1\ndenominator 1\nrow 1 (z) 1 ()\nrow 1 () 3 ()\nrow 1 (z) 2 ()\nrow -1 (z) 3 ()\nend\n",
        "0 # block 1 explained claim 1 denominator 1 steps 1\nchain 1\nclaim 1\ndenominator 1\nline - c + a\nuse 1 () 3 ()\nline 0\nend\n",
    ),
    (
        ONE_SIDED,
        b"certificate 1\nclaim 1\ndenominator 1\nrow 1 () 1 (r)\nrow -1 (l) 2 ()\nrow 1 () 6 ()\nrow -1 () 8 ()\nend\n",
        "0 # block 1 explained claim 1 denominator 1 steps 4\nchain 1\nclaim 1\ndenominator 1\nline - r + l\nuse 1 () 1 (r)\n\
         line - l a r + [U] r - r + l\nuse -1 (l) 2 ()\nline - l [V] + [U] r - r + l\nuse 1 () 6 ()\nline - l [V] + l\n\
         use -1 () 8 ()\nline 0\nend\n",
    ),
];
