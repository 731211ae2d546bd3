//! Runs over one archive: patterns of each form.

/// Sizes, choices and negations, kinds of text, parts of words, flags, names of attachments, and several patterns
/// together.
pub const PATTERN_ROWS: &str = "\
words -f, rc, --once, -r
rcfile mbox=m.mbox|database=m.idx|mfolder=hits|
archives ^Subject: Hello||hi||
z:19-19 => found 1: 0 58 m.mbox|
z:-19 => found 1: 0 58 m.mbox|
z:19- => found 1: 0 58 m.mbox|
z:- => found 1: 0 58 m.mbox|
z:0k-1K => found 1: 0 58 m.mbox|
z:20- => none
z:-18 => none
z:9-3 => none
z:9007199254740991k- => none
bs:hello/hi => found 1: 0 58 m.mbox|
s:hello, b:hi, z:19-19 => found 1: 0 58 m.mbox|
s:hello, s:hello, hello => found 1: 0 58 m.mbox|
s:absent, b:hi, z:19-19 => none
s:hello, b:absent, z:19-19 => none
s:hello, b:hi, z:20- => none
archives ^|{1021*x}||
z:1k-2k => none
archives ^|{1022*x}||
z:1k-2k => found 1: 0 1063 m.mbox|
archives ^|{2046*x}||
z:1k-2k => found 1: 0 2087 m.mbox|
archives ^|{2047*x}||
z:1k-2k => none
archives ^Subject: one||a||From here on we go||From - Sat Jan  4 12:00:00 2003|Subject: two||b||
z:36-36 => found 1: 0 75 m.mbox|
z:16-16 => found 1: 75 49 m.mbox|
s:one/two => found 2: 0 75 m.mbox|75 49 m.mbox|
s:~absent => found 2: 0 75 m.mbox|75 49 m.mbox|
s:two/one => found 2: 0 75 m.mbox|75 49 m.mbox|
b:a/b => found 2: 0 75 m.mbox|75 49 m.mbox|
s:~two => found 1: 0 75 m.mbox|
s:one,~two => found 1: 0 75 m.mbox|
s:absent/one => found 1: 0 75 m.mbox|
s:one,two => none
archives {}
s:~absent => none
archives ||
s:~absent => none
archives ^To: alice@x.org|Cc: bob@x.org||x||
tc:~bob => none
d:1990- => none
t:bob => none
c:alice => none
f:alice => none
t:~bob => found 1: 0 72 m.mbox|
tc:bob => found 1: 0 72 m.mbox|
a:bob,alice => found 1: 0 72 m.mbox|
c:bob => found 1: 0 72 m.mbox|
cct:alice => found 1: 0 72 m.mbox|
archives ^To: alpha@x.org|Cc: beta|Bcc: gamma|From: delta|Subject: epsilon||zeta||
alpha => found 1: 0 110 m.mbox|
beta => found 1: 0 110 m.mbox|
delta => found 1: 0 110 m.mbox|
epsilon => found 1: 0 110 m.mbox|
zeta => found 1: 0 110 m.mbox|
~gamma => found 1: 0 110 m.mbox|
gamma => none
~zeta => none
~alpha => none
eta => none
archives ^From: Alice <alice@example.org>||x||
f:alice@example.org => found 1: 0 74 m.mbox|
f:example => found 1: 0 74 m.mbox|
f:alic= => found 1: 0 74 m.mbox|
f:xample= => found 1: 0 74 m.mbox|
f:^exampl= => found 1: 0 74 m.mbox|
f:^xample= => none
f:alic => none
t:alice => none
archives ^Status: RO||x||
F:s => found 1: 0 53 m.mbox|
F:S => found 1: 0 53 m.mbox|
F:-rs => found 1: 0 53 m.mbox|
F:-r-f => found 1: 0 53 m.mbox|
F:-s => none
F:r => none
F:sf => none
archives ^Content-Type: multipart/mixed; boundary=o||--o|Content-Type: application/pdf; name=old.pdf|Content-Disposition: attachment; filename=\"Annual Report.pdf\"||%PDF|--o--||
n:report => found 1: 0 204 m.mbox|
n:report.pdf => found 1: 0 204 m.mbox|
n:annual,pdf => found 1: 0 204 m.mbox|
ns:rep= => found 1: 0 204 m.mbox|
n:~old => found 1: 0 204 m.mbox|
n:old => none
b:report => none
report => none
s:report => none
";
