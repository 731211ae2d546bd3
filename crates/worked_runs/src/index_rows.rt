//! Searches of stored indexes that are invalid, too old, or not those of the rcfile or of the archives.

/// Refusals in order: each row has one reason less than the row before it. Then archives that have changed: their
/// lengths count before their digests, which only `--verify` compares. Then an index without names of attachments and
/// digests of archives: its own faults count before that, and another path counts after it.
pub const INDEX_ROWS: &str = "\
words -f, rc
index hello 31
rcfile mbox=n.mbox|
archives ^Subject: Hello||hi|
-rx, q:x => refused 2: -r and -x exclude each other
-r, q:x => refused 2: rcfile: database missing
rcfile mbox=n.mbox:o.mbox|database=m.idx|mfolder=hits|
-r, q:x => refused 2: query item 1: bad prefix
-r, s:hello => refused 3: index: too short
index hello 227
-r, s:hello => refused 3: archive 2: changed since it was indexed
rcfile mbox=n.mbox|database=m.idx|mfolder=hits|
-r, s:hello => refused 3: archive 1: changed since it was indexed
archives ^Subject: Hello||hi||
-r, s:hello => refused 3: archive 1: changed since it was indexed
rcfile mbox=m.mbox|database=m.idx|mfolder=hits|
archives ^Subject: Hello||hi|
-r, s:hello => refused 3: archive 1: changed since it was indexed
archives {}
-r, s:hello => refused 3: archive 1: changed since it was indexed
archives ^Subject: Hello||hi||
-r, s:hello => found 1: 0 58 m.mbox|
-r, s:hello, --verify => found 1: 0 58 m.mbox|
-r, s:absent, --verify => none
archives ^Subject: World||hi||
-r, s:hello, --verify => refused 3: archive 1: changed since it was indexed
-r, s:absent, --verify => refused 3: archive 1: changed since it was indexed
-r, s:hello => found 1: 0 58 m.mbox|
archives ^Subject: Hello||hi|
-r, s:hello, --verify => refused 3: archive 1: changed since it was indexed
index zeros 227
archives ^Subject: Hello||hi||
-r, s:hello, --verify => refused 3: archive 1: changed since it was indexed
-r, s:hello => found 1: 0 58 m.mbox|
index two 319
rcfile mbox=n.mbox:o.mbox|database=m.idx|mfolder=hits|
archives ^Subject: Hello||hi|| & ^Subject: Hello||hi||
-r, s:hello, --verify => found 2: 0 58 n.mbox|0 58 o.mbox|
-r, s:hello => found 2: 0 58 n.mbox|0 58 o.mbox|
archives ^Subject: Hello||hi|| & ^Subject: World||hi||
-r, s:hello, --verify => refused 3: archive 2: changed since it was indexed
-r, s:hello => found 2: 0 58 n.mbox|0 58 o.mbox|
archives ^Subject: World||hi|| & ^Subject: World||hi||
-r, s:hello, --verify => refused 3: archive 1: changed since it was indexed
-r, s:hello => found 2: 0 58 n.mbox|0 58 o.mbox|
archives ^Subject: World||hi|| & ^Subject: Hello||hi|
-r, s:hello, --verify => refused 3: archive 2: changed since it was indexed
-r, s:hello => refused 3: archive 2: changed since it was indexed
index old 195
rcfile mbox=m.mbox|database=m.idx|mfolder=hits|
archives ^Subject: Hello||hi|
-r, s:hello, --verify => refused 3: index: too old, build it again
archives ^Subject: Hello||hi||
-r, s:hello, --verify => refused 3: index: too old, build it again
-r, s:hello => found 1: 0 58 m.mbox|
-r, hello => found 1: 0 58 m.mbox|
-r, b:hello => none
-r, s:hello/~hi => found 1: 0 58 m.mbox|
-r, n:hello => refused 3: index: too old, build it again
-r, sn:~hi => refused 3: index: too old, build it again
-r, s:absent, n:hello => refused 3: index: too old, build it again
index old 194
-r, n:hello => refused 3: index: bad digest
index old 195
rcfile mbox=n.mbox|database=m.idx|mfolder=hits|
-r, n:hello => refused 3: index: too old, build it again
-r, s:hello => refused 3: archive 1: changed since it was indexed
-r, n: => refused 2: query item 1: bad word
";
