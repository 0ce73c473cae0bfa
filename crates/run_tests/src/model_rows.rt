//! Runs of `model` over models, worked out by hand from the grammar and the tests of a model.
use crate::answers::Row;

const MAPS: &[u8] = b"object U V\nmap p : U -> U self\nmap a : U -> V\nclaim a = 0\n";

const ONE_SIDED: &[u8] =
    b"object U V\nmap a : U -> V\nmap b : V -> U\nassume a b = [V]\nclaim b a = [U]\nmodel 2 U 2 V 1\n";

const SELF: &[u8] =
    b"model 1\nclaim 1\nmodulus 3\nside U 2\nside V 1\nmap p = 0 1 ; 1 0\nmap a = 1 0\nend\n";

const CONFIRMED: &str = "0 # block 1 confirmed claim 1\n";

/// Models that are confirmed, and models that are refused.
pub const MODELS: &[Row] = &[
    (
        ONE_SIDED,
        b"model 1\nclaim 1\nmodulus 2\nside U 2\nside V 1\nmap a = 1 0\nmap b = 1 ; 0\nend\n",
        CONFIRMED,
    ),
    (
        ONE_SIDED,
        b"model 1\nclaim 1\nmodulus 2\nside U 2\nside V 1\nmap a = 1 0\nmap b = 0 ; 0\nend\n",
        "7 # block 1 refused M4 assumption 1\n",
    ),
    (
        ONE_SIDED,
        b"model 1\nclaim 1\nmodulus 2\nside U 2\nside V 1\nmap a = 1 0\nend\n",
        "7 # block 1 refused M2 map b\n",
    ),
    (MAPS, SELF, CONFIRMED),
    (
        MAPS,
        b"model 1\nclaim 1\nmodulus 3\nside U 2\nside V 1\nmap p = 0 1 ; 2 0\nmap a = 1 0\nend\n",
        "7 # block 1 refused M6 map p\n",
    ),
    (
        MAPS,
        b"model 1\nclaim 1\nmodulus 3\nside U 2\nside V 1\nmap p = 0 1 ; 1 0\nmap a = 0 0\nend\n",
        "7 # block 1 refused M5\n",
    ),
    (
        MAPS,
        b"model 1\nclaim 1\nmodulus 3\nside U 2\nside V 1\nmap p = 0 1 ; 1 0\nmap a = 1\nend\n",
        "7 # block 1 refused M3 map a\n",
    ),
    // the report of `refute`
    (
        ONE_SIDED,
        b"# claim 1 refuted\nmodel 1\nclaim 1\nmodulus 2\nside U 2\nside V 1\nmap a = 1 0\nmap b = 1 ; 0\nend\n",
        CONFIRMED,
    ),
];
