//! Runs in every form, with threads, in both query languages, and over several archives.

/// The forms of an answer and what chooses them, threads, boolean queries, the order of an answer, and own ids.
pub const FORM_ROWS: &str = "\
words -f, rc
rcfile mbox=m.mbox|database=m.idx|mfolder=hits|
archives ^Subject: Hello||hi||
--stdout, s:hello => found 1: ^Subject: Hello||hi||
-o, other, s:hello => found 1: ^Subject: Hello||hi||
-r, --boolean, subject:hello and not body:ho => found 1: 0 58 m.mbox|
-r, --boolean, (subject:ho or body:hi) hel* => found 1: 0 58 m.mbox|
-r, --boolean, * => found 1: 0 58 m.mbox|
-r, --boolean, not * => none
archives ^Subject: Hello||hi|
--stdout, s:hello => found 1: ^Subject: Hello||hi||
archives ^Subject: Hello||hi
--stdout, s:hello => found 1: ^Subject: Hello||hi||
archives ^Subject: one||a||From here on we go||From - Sat Jan  4 12:00:00 2003|Subject: two||b||
--stdout, s:one/two => found 2: ^Subject: one||a||From here on we go||From - Sat Jan  4 12:00:00 2003|Subject: two||b||
-r, --boolean, not (subject:one or not subject:two) => found 1: 75 49 m.mbox|
archives ^To: alice@x.org|Cc: bob@x.org||x||
-x, t:alice => found 1: m.mbox|To: alice@x.org|Cc: bob@x.org|From:|Subject:|Date:|
archives ^Message-ID: <1@x>||hi||^Message-ID: <2@x>|References: <1@x>||ho||^Message-ID: <3@x>|In-Reply-To: <2@x>||he||
-r, -t, b:hi => found 3: 0 61 m.mbox|61 79 m.mbox|140 80 m.mbox|
-r, b:hi => found 1: 0 61 m.mbox|
archives ||
-x, -t, s:~absent => none
rcfile base=/mail|mbox=m.mbox|mformat=raw|database=m.idx|mfolder=hits|
archives ^Subject: Hello||hi||
s:hello => found 1: 0 58 /mail/m.mbox|
-x, z:20- => none
rcfile mbox=m.mbox|mformat=excerpt|database=m.idx|mfolder=hits|
s:hello => found 1: m.mbox|To:|Cc:|From:|Subject: Hello|Date:|
-r, s:hello => found 1: 0 58 m.mbox|
rcfile mbox=a.mbox:b.mbox|database=m.idx|mfolder=hits|
archives ^Subject: Hello||hi| & ^Subject: Hello||hi||
--stdout, --once, s:hello => found 2: ^Subject: Hello||hi||^Subject: Hello||hi||
archives ^Message-ID: <1@x>|References: <0@x>||hi|| & ^Message-ID: <2@x>|References: <0@x>||ho||
-r, -t, b:hi => found 2: 0 79 a.mbox|0 79 b.mbox|
-r, --once, b:hi => found 1: 0 79 a.mbox|
-x, -t, b:ho => found 2: a.mbox|To:|Cc:|From:|Subject:|Date:|b.mbox|To:|Cc:|From:|Subject:|Date:|
--stdout, -t, b:hi => found 2: ^Message-ID: <1@x>|References: <0@x>||hi||^Message-ID: <2@x>|References: <0@x>||ho||
words -f, rc, --once, -r
archives ^Message-ID: <1@x>|References: <0@x>||hi|| & ^Message-ID: <2@X>|References: <1@x>||ho||
m:<1@x> => found 1: 0 79 a.mbox|
m:1@x => found 1: 0 79 a.mbox|
m:<2@X> => found 1: 0 79 b.mbox|
m:<2@x> => none
m:<0@x> => none
m:~1@x => found 1: 0 79 b.mbox|
m:@= => found 2: 0 79 a.mbox|0 79 b.mbox|
m:^2= => found 1: 0 79 b.mbox|
b:hi => found 1: 0 79 a.mbox|
archives ^Subject: one||a||From here on we go||From - Sat Jan  4 12:00:00 2003|Subject: two||b|| & ^Subject: Hello||hi||
b:hi/b/a => found 3: 0 75 a.mbox|75 49 a.mbox|0 58 b.mbox|
s:two/hello => found 2: 75 49 a.mbox|0 58 b.mbox|
archives ^Subject: Hello||hi|| & ^Subject: one||a||From here on we go||From - Sat Jan  4 12:00:00 2003|Subject: two||b||
b:a/hi/b => found 3: 0 58 a.mbox|0 75 b.mbox|75 49 b.mbox|
archives ^Subject: Hello||hi|| & ^Subject: Hello||hi||
s:hello => found 2: 0 58 a.mbox|0 58 b.mbox|
archives {} & ^Subject: Hello||hi||
s:hello => found 1: 0 58 b.mbox|
archives ^Subject: Hello||hi|| & ||
s:hello => found 1: 0 58 a.mbox|
";
