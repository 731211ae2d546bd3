//! Mairix patterns, and the queries that are read from them.

use crate::query_lines::is_reported;
use crate::reading::read_patterns;
use std::alloc::Global;

/// The number of rows of the table.
const COUNT: usize = 240;

/// The rows have the form `PATTERN, PATTERN => QUERY`, with the query as [`is_reported`] reads it. The queries were found
/// by a second reader.
const PATTERNS: &str = "\
F:-rs, s:one/GRÜSSE, d:mar => all(all(flag -r, flag s), either(word s one, word s grüsse), date 1046476800 1049155199)
 => query item 1: no pattern
d:31apr => query item 1: bad date
z:10 => query item 1: bad size
F:x => query item 1: bad flag
f:alice=2 => query item 1: approximate match not supported
f:alice@example.org => word f alice@example.org
f:Example => word f example
f:STRASSE => word f strasse
f:Straße => word f strasse
n:Report.PDF => word n report.pdf
an:rep= => part tcfn rep
m:<1@X> => word m 1@X
s:a => word s a
s: => query item 1: bad word
q:x => query item 1: bad prefix
F:s => flag s
F:S => flag s
F:-s => flag -s
F: => query item 1: bad flag
F:- => query item 1: bad flag
F:--s => query item 1: bad flag
F:s- => query item 1: bad flag
F:srf => all(flag s, flag r, flag f)
F:s-r-f => all(flag s, flag -r, flag -f)
F:rr => all(flag r, flag r)
alice => word tcfsb alice
f:alic= => part f alic
f:xample= => part f xample
f:^xample= => prefix f xample
bs:hel/hi => either(word sb hel, word sb hi)
tc:~bob => not word tc bob
t:~bob => not word t bob
d: => query item 1: bad date
d:ok- => query item 1: bad date
dd:ok => query item 1: bad prefix
:x => query item 1: bad prefix
: => query item 1: bad prefix
~ => query item 1: bad word
~~a => query item 1: bad word
= => query item 1: bad word
^= => query item 1: bad word
^ => query item 1: bad word
a= => part tcfsb a
^a= => prefix tcfsb a
^a => query item 1: bad word
a=b => query item 1: bad word
a=b=2 => query item 1: approximate match not supported
=2 => query item 1: approximate match not supported
^=2 => query item 1: approximate match not supported
a b=2 => query item 1: approximate match not supported
a=2b => query item 1: bad word
a=2= => query item 1: bad word
m:x => word m x
m:<> => query item 1: bad word
m:< => word m <
m:> => word m >
m:<>= => part m <>
m:<x>= => part m <x>
m:^<x= => prefix m <x
m:x=2 => query item 1: approximate match not supported
m:x^ => query item 1: bad word
m:a:b => word m a:b
m:a b => word m a b
m:~x => not word m x
m: => query item 1: bad word
m:= => query item 1: bad word
m:AbC => word m AbC
mm:x => query item 1: bad prefix
ms:x => query item 1: bad prefix
ts:x => word ts x
tt:x => word t x
a:x => word tcf x
ac:x => word tcf x
afb:X/y => either(word tcfb x, word tcfb y)
n:x => word n x
S:x => query item 1: bad prefix
sd:x => query item 1: bad prefix
FF:s => query item 1: bad prefix
z:- => size 0 -
z:9007199254740991k- => size 9223372036854774784 -
z:9007199254740992k- => query item 1: bad size
z:9-3 => size 9 3
z:19-19 => size 19 19
z:20- => size 20 -
z:-5m => size 0 5242880
z:1K-1M => size 1024 1048576
z:-- => query item 1: bad size
z:1-2-3 => query item 1: bad size
z:k- => query item 1: bad size
z:1kk- => query item 1: bad size
z:999999999999999999- => size 999999999999999999 -
z:1000000000000000000- => query item 1: bad size
z:0000000000000000001-2 => query item 1: bad size
z:000000000000000001-2 => size 1 2
z:8796093022207M- => size 9223372036853727232 -
z:8796093022208M- => query item 1: bad size
z:9223372036854775807- => query item 1: bad size
z: 1- => query item 1: bad size
z:+1- => query item 1: bad size
s:a,b => all(word s a, word s b)
s:a/b => either(word s a, word s b)
s:a,b/c => either(all(word s a, word s b), word s c)
s:a/b,c => either(word s a, all(word s b, word s c))
s:~a,b => all(not word s a, word s b)
s:~a/~b => either(not word s a, not word s b)
s:, => query item 1: bad word
s:/ => query item 1: bad word
s:a, => query item 1: bad word
s:/a => query item 1: bad word
s:a,,b => query item 1: bad word
s:bbbbbbbbbbbbbbbbbbbbbbbbbbbbbbbbbbbbbbbbbbbbbbbbbbbbbbbbbbbbbbbbbbbbbbbbbbbbbbbbbbbbbbbbbbbbbbbbbbbbbbbbbbbbbbbbbbb\
    bbbbbbbbbbbbb => word s bbbbbbbbbbbbbbbbbbbbbbbbbbbbbbbbbbbbbbbbbbbbbbbbbbbbbbbbbbbbbbbbbbbbbbbbbbbbbbbbbbbbbbbbb\
    bbbbbbbbbbbbbbbbbbbbbbbbbbbbbbbbbbbbbbb
s:bbbbbbbbbbbbbbbbbbbbbbbbbbbbbbbbbbbbbbbbbbbbbbbbbbbbbbbbbbbbbbbbbbbbbbbbbbbbbbbbbbbbbbbbbbbbbbbbbbbbbbbbbbbbbbbbbbb\
    bbbbbbbbbbbbbb => query item 1: bad word
s:bbbbbbbbbbbbbbbbbbbbbbbbbbbbbbbbbbbbbbbbbbbbbbbbbbbbbbbbbbbbbbbbbbbbbbbbbbbbbbbbbbbbbbbbbbbbbbbbbbbbbbbbbbbbbbbbbbb\
    bbbbbbbbbbbbb= => part s bbbbbbbbbbbbbbbbbbbbbbbbbbbbbbbbbbbbbbbbbbbbbbbbbbbbbbbbbbbbbbbbbbbbbbbbbbbbbbbbbbbbbbbb\
    bbbbbbbbbbbbbbbbbbbbbbbbbbbbbbbbbbbbbbbb
s:bbbbbbbbbbbbbbbbbbbbbbbbbbbbbbbbbbbbbbbbbbbbbbbbbbbbbbbbbbbbbbbbbbbbbbbbbbbbbbbbbbbbbbbbbbbbbbbbbbbbbbbbbbbbbbbbbbb\
    bbbbbbbbbbbbbb= => query item 1: bad word
s:a- => query item 1: bad word
s:a-= => part s a-
s:a, t:b => all(word s a, word t b)
F:x, s:a => query item 1: bad flag
s:a, z:1 => query item 2: bad size
s:a, b:c, d:no => query item 3: bad date
s:a,-, q:x => query item 1: bad word
s:-/2=3 => query item 1: bad word
s:2=3/1 => query item 1: approximate match not supported
s:a=2,^ => query item 1: approximate match not supported
a:b:c => query item 1: bad word
s:a:b => query item 1: bad word
s:a=:2 => query item 1: bad word
,x-y-< => query item 1: bad word
c:><ok~ => query item 1: bad word
m:x-y => word m x-y
a:>:<> => query item 1: bad word
c:a => word c a
d:aok,2, => query item 1: bad date
c:>=, q:, => query item 1: bad word
c:: => query item 1: bad word
d:=aB<ok => query item 1: bad date
z:Ba-> => query item 1: bad size
s:/:// => query item 1: bad word
d:2B= => query item 1: bad date
a:~ => query item 1: bad word
c:,x-y => query item 1: bad word
/> => query item 1: bad word
a:a= => part tcf a
s:~/, a => query item 1: bad word
z:ok => query item 1: bad size
z:BBB^, d:< => query item 1: bad size
b:<, => query item 1: bad word
a:>~, d:^:^~: => query item 1: bad word
a:<B/a, s:=^::/ => query item 1: bad word
f:=x-y~k => query item 1: bad word
b:>-<<B => query item 1: bad word
d:B => query item 1: bad date
d:a => query item 1: bad date
c:~B2~k => query item 1: bad word
<a => query item 1: bad word
F:aa< => query item 1: bad flag
sb:2~B => query item 1: bad word
F:k => query item 1: bad flag
F:B>, => query item 1: bad flag
oka-, => query item 1: bad word
q:/<a<, t:= => query item 1: bad prefix
a:,,,-x-y => query item 1: bad word
c:= => query item 1: bad word
s::B, f:=ka2 => query item 1: bad word
f:x-y~ => query item 1: bad word
b:k^2/ => query item 1: bad word
a:k^ => query item 1: bad word
F:~~ => query item 1: bad flag
s:= => query item 1: bad word
b:k^- => query item 1: bad word
c:>2:- => query item 1: bad word
t:=, > => query item 1: bad word
z:a>~/, => query item 1: bad size
z:ok~ => query item 1: bad size
, => query item 1: bad word
q:B>^ => query item 1: bad prefix
z::a => query item 1: bad size
s:^= => query item 1: bad word
c:<ok~/- => query item 1: bad word
sb:~,,^ => query item 1: bad word
f:ok-2,2 => all(word f ok-2, word f 2)
:^ => query item 1: bad prefix
=k:, x-yBa => query item 1: bad prefix
a:,ka => query item 1: bad word
t:oka~x-y => query item 1: bad word
m:~x-yk: => not word m x-yk:
sb:k,<:, d:x-yx-y=- => query item 1: bad word
c:-kx-y==, f:=- => query item 1: bad word
<,^ => query item 1: bad word
c:< => query item 1: bad word
s:k/x-yok< => query item 1: bad word
sb:Bk => word sb bk
:=^,,, a:x-y2B^ => query item 1: bad prefix
z::ok => query item 1: bad size
m:a> => word m a>
F:<, => query item 1: bad flag
f:- => query item 1: bad word
sb::x-y, / => query item 1: bad word
f:x-y^ => query item 1: bad word
c:-x-y, m:k: => query item 1: bad word
<2k => query item 1: bad word
d:~ => query item 1: bad date
t:/B/ => query item 1: bad word
sb:^/ => query item 1: bad word
f:k-2 => word f k-2
q:x-y>- => query item 1: bad prefix
b:a => word b a
f:k<,~^ => query item 1: bad word
m:=k => query item 1: bad word
m:BokB2 => word m BokB2
c:/^< => query item 1: bad word
sb:- => query item 1: bad word
b::2/ => query item 1: bad word
t:oka2kB => word t oka2kb
d:<2okok= => query item 1: bad date
s:?,a=2 => query item 1: bad word
s:a=2,? => query item 1: approximate match not supported
s:?/a=2 => query item 1: bad word
s:a,b=2/? => query item 1: approximate match not supported
s:~?=2,? => query item 1: approximate match not supported
q:a=2 => query item 1: bad prefix
s:a, t:?, q:x => query item 2: bad word
s:a, q:?, t:a=2 => query item 2: bad prefix
n:report => word n report
ns:rep= => part sn rep
sn:^rep= => prefix sn rep
nn:pdf => word n pdf
n:annual,pdf => all(word n annual, word n pdf)
n:~pdf => not word n pdf
n: => query item 1: bad word
mn:report => query item 1: bad prefix
nm:report => query item 1: bad prefix
nd:ok => query item 1: bad prefix
Fn:s => query item 1: bad prefix
nz:1- => query item 1: bad prefix
N:x => query item 1: bad prefix
n:x=1 => query item 1: approximate match not supported
report => word tcfsb report
tcfsban:x => word tcfsbn x
";

/// Whether patterns are read as the query of their row. It is None if memory runs out before they are read.
fn row_is_reported(alloc: Global, row: &str) -> Option<bool> {
    let (text, reported) = row.split_once(" => ")?;
    Some(is_reported(&read_patterns(alloc, text)?, reported))
}

#[test]
fn patterns_are_reported(rt: HostRuntime) {
    let mut count = 0usize;
    for row in PATTERNS.lines() {
        assert!(rt; row_is_reported(rt.alloc(), row) == Some(true), "{row}");
        count = count.saturating_add(1);
    }
    assert_eq!(rt; count, COUNT);
}
