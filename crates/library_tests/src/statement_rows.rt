//! Texts by theme, worked out by hand from the grammar: each with what is written back of it or its first fault.
//! A text ends before the line of `=>`, and `%` stands between two rows.

/// Each kind of statement.
pub const STATEMENTS: &str = "object U
=> object U
%
object U V W
=> object U V W
%
map a : U -> V
=> map a : U -> V
%
map a b : U -> U self
=> map a b : U -> U self
%
assume a b = 0
=> assume a b = 0
%
assume - 2 a + b = - 0
=> assume - 2 a + b = - 0
%
claim a (b - 3 [U])' = c''
=> claim a (b - 3 [U])' = c''
%
claim + a = +b - (+c)
=> claim a = b - (c)
%
pinv a x
=> pinv a x
%
inverse a x
=> inverse a x
%
inner a x
=> inner a x
%
projection p
=> projection p
%
order degree
=> order degree
%
order weight a 2
=> order weight a 2
%
order weight a 2 b 010
=> order weight a 2 b 10
%
solve a
=> solve a
%
solve a b
=> solve a b
%
model 2
=> model 2
%
model 7 U 2 V 1
=> model 7 U 2 V 1
%
object U
map a : U -> U
claim a = a
=> object U
map a : U -> U
claim a = a
";

/// Files of the second language: powers, elimination, and the line that names it.
pub const SECOND_LANGUAGE: &str = "language\t002 # c
claim 2a ^ 03 ' ^1b^2 = ( [U] )^ 2 - 0
=> language 2
claim 2 a^3'^1 b^2 = ([U])^2 - 0
%
 language 2
eliminate  a  b#x
=> language 2
eliminate a b
%
language 2
assume (a^2'(b^ 1)c)^007 = - [ V ] ^2 a^1-b^1
solve a
=> language 2
assume (a^2' (b^1) c)^7 = - [V]^2 a^1 - b^1
solve a
%
claim 2a' ' = + b
=> claim 2 a'' = b
%
language 2
=> language 2
%
object language eliminate
=> object language eliminate
%
eliminate a
=> S3 line 1 column 1
%
language 2
language 2
=> S3 line 2 column 1
";

/// Line ends, blanks, comments, and signs that stand close.
pub const LINES: &str = "
=> %

\r


=> %
 \t
=> %
# only a comment
=> %
object U V\r
solve a\r

=> object U V
solve a
%
\tobject\tU\t
solve\ta
=> object U
solve a
%
  object  U # not V !

#
solve a#b
=> object U
solve a
%
object U # a carriage return \r here
solve a
=> object U
solve a
%
object U\r!
=> S2 line 1 column 9
%
map a b:U->V self
=> map a b : U -> V self
%
claim-a-b=a'  ' ( [ U ] )
=> claim - a - b = a'' ([U])
%
map a : U - > V
=> S2 line 1 column 13
%
map a : U --> V
=> S3 line 1 column 11
%
claim a->-b = c
=> S3 line 1 column 8
%
claim a-->b = c
=> S3 line 1 column 9
";

/// Names in many scripts, the longest ones, and words of the language as names.
pub const NAMED: &str = "object αβ Жук 漢字 किताब _x é1
=> object αβ Жук 漢字 किताब _x é1
%
object é ! # columns count characters
=> S2 line 1 column 10
%
object 1a
=> S3 line 1 column 8
%
object abcdefghijklmnopqrstuvwxyz012345
=> object abcdefghijklmnopqrstuvwxyz012345
%
object U abcdefghijklmnopqrstuvwxyz0123456
=> S2 line 1 column 10
%
object αβγδεζηθικλμνξοπ
=> object αβγδεζηθικλμνξοπ
%
object U αβγδεζηθικλμνξοπx
=> S2 line 1 column 10
%
object αβ αβγδεζηθικλμνξοπρ
=> S2 line 1 column 11
%
object object map
map map : object -> object
claim claim = [map] self
=> object object map
map map : object -> object
claim claim = [map] self
%
map self : self -> self self
=> map self : self -> self self
%
order weight weight 1 degree 2
=> order weight weight 1 degree 2
%
solve solve
pinv pinv order
=> solve solve
pinv pinv order
";

/// The largest literals, and where 0 is a term.
pub const LITERALS: &str = "claim 170141183460469231731687303715884105727 a = 00
=> claim 170141183460469231731687303715884105727 a = 0
%
model 00170141183460469231731687303715884105727
=> model 170141183460469231731687303715884105727
%
claim 170141183460469231731687303715884105728 a = a
=> S4 line 1 column 7
%
claim 00170141183460469231731687303715884105728 a = a
=> S4 line 1 column 7
%
claim 0 a = 000 b
=> claim 0 a = 0 b
%
claim 0 = 0 - 0
=> claim 0 = 0 - 0
%
claim 1 = 0
=> S3 line 1 column 9
%
claim 2 0 = b
=> S3 line 1 column 9
%
claim a 0 = b
=> S3 line 1 column 9
%
2
=> S3 line 1 column 1
";

/// Each fault in the first, in a middle and in the last line, and which of two is the first.
pub const FAULTS: &str = "object U !
map a : U -> U
claim a = a
=> S2 line 1 column 10
%
object U
map a ; U -> U
claim a = a
=> S2 line 2 column 7
%
object U
map a : U -> U
claim a * a = a
=> S2 line 3 column 9
%
solve abcdefghijklmnopqrstuvwxyz0123456
object U
claim a = a
=> S2 line 1 column 7
%
object U
object abcdefghijklmnopqrstuvwxyz0123456
claim a = a
=> S2 line 2 column 8
%
object U
claim a = a
claim a = abcdefghijklmnopqrstuvwxyz0123456
=> S2 line 3 column 11
%
object U : V
map a : U -> U
claim a = a
=> S3 line 1 column 10
%
object U
map a : U = U
claim a = a
=> S3 line 2 column 11
%
object U
map a : U -> U
claim a = a = a
=> S3 line 3 column 13
%
object
map a : U -> U
claim a = a
=> S3 line 1 column 7
%
object U
map a : U ->  # V
claim a = a
=> S3 line 2 column 13
%
object U
map a : U -> U
claim a = \x20
=> S3 line 3 column 10
%
claim 170141183460469231731687303715884105728 a = a
object U
solve a
=> S4 line 1 column 7
%
object U
assume 2 a = 170141183460469231731687303715884105728
solve a
=> S4 line 2 column 14
%
object U
solve a
model 2 U 170141183460469231731687303715884105728
=> S4 line 3 column 11
%
object
solve
claim
=> S3 line 1 column 7
%
object
solve a
claim a ; a
=> S2 line 3 column 9
%
object
claim a = 170141183460469231731687303715884105728 ?
=> S4 line 2 column 11
%
object ?
claim a = 170141183460469231731687303715884105728
=> S2 line 1 column 8
";

/// Lines that do not fit the grammar.
pub const MISFITS: &str = "other U
=> S3 line 1 column 1
%
map : U -> V
=> S3 line 1 column 5
%
map a
=> S3 line 1 column 6
%
map a : U -> V self self
=> S3 line 1 column 21
%
map a : U -> V other
=> S3 line 1 column 16
%
claim '= a
=> S3 line 1 column 7
%
claim a + - b = c
=> S3 line 1 column 11
%
claim a + = c
=> S3 line 1 column 11
%
claim [a b] = a
=> S3 line 1 column 10
%
claim [] = a
=> S3 line 1 column 8
%
claim () = a
=> S3 line 1 column 8
%
claim (a = b
=> S3 line 1 column 10
%
claim a) = b
=> S3 line 1 column 8
%
claim a # = b
=> S3 line 1 column 8
%
pinv a
=> S3 line 1 column 7
%
pinv a x y
=> S3 line 1 column 10
%
projection
=> S3 line 1 column 11
%
projection p q
=> S3 line 1 column 14
%
order
=> S3 line 1 column 6
%
order both
=> S3 line 1 column 7
%
order degree a
=> S3 line 1 column 14
%
order weight
=> S3 line 1 column 13
%
order weight a
=> S3 line 1 column 15
%
order weight a 1 2
=> S3 line 1 column 18
%
solve
=> S3 line 1 column 6
%
model
=> S3 line 1 column 6
%
model U
=> S3 line 1 column 7
%
model 2 U
=> S3 line 1 column 10
";

/// A text as bytes, and what is written back of it or its first fault.
pub type Bytes = (&'static [u8], &'static str);

/// Bytes that are not UTF-8, which come before all other faults.
pub const NOT_UTF8: &[Bytes] = &[
    (b"object \xff\nobject V\nobject W", "S1 line 0 column 7\n"),
    (
        b"object \xc3\xa9\nmap \xc3(\nclaim a",
        "S1 line 0 column 14\n",
    ),
    (
        b"object U\nobject V\nobject \xe2\x82",
        "S1 line 0 column 25\n",
    ),
    (b"!\nobject\n\xc3", "S1 line 0 column 9\n"),
    (b"object \xc3\xa9\nclaim", "S3 line 2 column 6\n"),
];
